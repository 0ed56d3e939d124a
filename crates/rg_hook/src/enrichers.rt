// Several enrichers that run in turn.
ghost use Rattle.std.specs.Prelude.{◌≡◌, ◌≤◌, ◌⊎◌, length, map, vec_len, IfOk, OnErr, OnOk};
ghost use Rattle.rg_hook.specs.Enriching.{HaveRun, cut, enriched, has_run, request_after, state_by, unreserved};

use crate::enricher::Enricher;
use rg_base::{NoMemory, Seq};
use rg_policy::AccessRequest;
use std::alloc::Global;
use std::mem;

// Runs the enricher, and adds its pair. After want of memory the request stands, and the enricher may have run.
fn run_one(
    alloc: Global,
    enricher: &mut Box<dyn Enricher + Send>,
    request: &mut AccessRequest,
) -> Result<(), NoMemory>
    ensures ran { OnOk result (state_by (λ e. meaning e) (λ e. remembered e) enricher.new
        ≡ has_run (state_by (λ e. meaning e) (λ e. remembered e) enricher.old) request.old) }
    ensures request { OnOk result (request.new ≡ request_after
        (state_by (λ e. meaning e) (λ e. remembered e) enricher.old) request.old) }
    ensures err { OnErr result ((state_by (λ e. meaning e) (λ e. remembered e) enricher.new
        ≡ state_by (λ e. meaning e) (λ e. remembered e) enricher.old)
        ⊎ (state_by (λ e. meaning e) (λ e. remembered e) enricher.new ≡ has_run (state_by (λ e. meaning e) (λ e. remembered e) enricher.old) request.old)) }
    ensures same { OnErr result (request.new ≡ request.old) }
{
    if let Some(pair) = enricher.enrich(alloc, request)? {
        request.context.add(pair)?;
    }
    Ok(())
}

// Runs the enrichers in turn, up to the first want of memory. The pairs that the request had stand in front of the new ones.
fn run_each(
    alloc: Global,
    list: &mut [Box<dyn Enricher + Send>],
    request: &mut AccessRequest,
) -> Result<(), NoMemory>
    ensures ok { OnOk result
        (enriched (map (state_by (λ e. meaning e) (λ e. remembered e)) list.old) request.old
        ≡ record { enrichers = map (state_by (λ e. meaning e) (λ e. remembered e)) list.new; request = request.new }) }
    ensures err { OnErr result
        (HaveRun (map (state_by (λ e. meaning e) (λ e. remembered e)) list.old) request.old
        (map (state_by (λ e. meaning e) (λ e. remembered e)) list.new)) }
    ensures front { cut (length request.old.context.items) request.new ≡ unreserved request.old }
{
    for enricher in list.iter_mut() {
        run_one(alloc, enricher, request)?;
    }
    Ok(())
}

// Leaves the first pairs of the context, so many. It takes no memory.
fn cut_context(alloc: Global, request: &mut AccessRequest, count: usize)
    ensures { request.new ≡ cut count request.old }
{
    let context = mem::replace(&mut request.context, Seq::new(alloc));
    let mut pairs = context.into_vec();
    pairs.truncate(count);
    request.context = Seq::from_vec(pairs);
}

/// Up to 16 enrichers that run in turn, each on the request with the pairs of those before it.
#[derive(Drop)]
pub struct Enrichers {
    list: Vec<Box<dyn Enricher + Send>>,
    ghost few: { vec_len list ≤ 16 },
}

impl Enrichers {
    ghost use Rattle.std.specs.Prelude.{◌≡◌, ◌≤◌, map, vec_len, OnErr, OnOk};
    ghost use Rattle.rg_hook.specs.Enriching.{HaveRun, enriched, state_by, unreserved};
    ghost use Rattle.rg_hook.specs.Shown.{states_of};

    /// These enrichers, at most 16. It takes no memory.
    pub fn new(list: Vec<Box<dyn Enricher + Send>>) -> Enrichers
        requires { vec_len list ≤ 16 }
        ensures { states_of (λ e. meaning e) (λ e. remembered e) result
            ≡ map (state_by (λ e. meaning e) (λ e. remembered e)) list.items }
    {
        Enrichers { list }
    }

    /// Adds the enrichers' pairs to the context of the request, in their order. Want of memory leaves the request as before,
    /// but for a reserved place, and the enrichers that ran in their new state.
    pub fn run(&mut self, alloc: Global, request: &mut AccessRequest) -> Result<(), NoMemory>
        ensures ok { OnOk result
            (enriched (states_of (λ e. meaning e) (λ e. remembered e) self.old) request.old
            ≡ record { enrichers = states_of (λ e. meaning e) (λ e. remembered e) self.new; request = request.new }) }
        ensures ran { OnErr result
            (HaveRun (states_of (λ e. meaning e) (λ e. remembered e) self.old) request.old
            (states_of (λ e. meaning e) (λ e. remembered e) self.new)) }
        ensures unchanged { OnErr result (request.new ≡ unreserved request.old) }
    {
        let count = request.context.len();
        let ran = run_each(alloc, self.list.as_mut_slice(), request);
        if ran.is_err() {
            cut_context(alloc, request, count);
        }
        ran
    }
}
