// The command `grants`: a script of an administration with grants, and of what its plugin decides.
ghost use Rattle.std.specs.Prelude.{◌≡◌, [], Err, None, Some, OnErr, OnOk, string_bytes};
ghost use Rattle.rg_run_script.specs.Follow.{IsWorked};
ghost use Rattle.rg_run_script.specs.Hooked.{HaveRunOn, IsAudited, hooked, hooks_of};
ghost use Rattle.rg_run_grants.specs.Grants.{ask_work, judge_work, start_work};

use crate::granting::Granting;
use crate::line::{GrantLine, read_grant_line};
use rg_base::{Moment, NoMemory};
use rg_cmd::Config;
use rg_grant::GrantAsk;
use rg_hook::RequestHooks;
use rg_policy::AccessRequest;
use rg_run_script::{HookedWorker, add_reply, judge};
use rg_script::LineFault;
use std::alloc::Global;
use std::marker::Model;
use std::mem;

/// A script of grants that is worked. Contracts see its administration, None before the configuration.
#[derive(Drop)]
pub struct Grants {
    granting: Option<Granting>,
}

impl Model for Grants {
    ghost use Rattle.std.specs.Prelude.{Option};
    ghost use Rattle.rg_grant.specs.Logs.{Administration};

    ghost Value = { Option Administration };

    ghost view = { λ g. g.granting };
}

/// Asks the administration, and adds the line of its reply.
fn ask_and_print(
    alloc: Global,
    granting: &mut Granting,
    ask: GrantAsk,
    text: &mut String,
) -> Result<(), NoMemory>
    ensures { OnOk result (IsWorked (ask_work (Some granting.old) ask)
        (Some granting.new) (string_bytes text.old) (string_bytes text.new)) }
{
    let reply = granting.ask(alloc, ask)?;
    add_reply(alloc, text, reply)
}

/// An ask that stands out of place is let go.
fn refuse(_ask: GrantAsk) -> LineFault
    ensures { result ≡ LineFault.Bad }
{
    LineFault::Bad
}

impl Grants {
    /// A script of which no line is worked yet.
    pub fn new() -> Grants
        ensures { result ≡ None }
    {
        Grants { granting: None }
    }

    /// Starts the administration, where the script begins with its configuration, which breaks no rule.
    #[tactic(auto, unfolding(crate::specs::Grants::start_work))]
    fn start(&mut self, alloc: Global, config: Config) -> Result<(), LineFault>
        ensures worked { OnOk result (IsWorked (start_work self.old config) self.new [] []) }
        ensures bad { result ≡ Err LineFault.Bad
            → (start_work self.old config ≡ None) × (self.new ≡ self.old) }
    {
        if self.granting.is_some() {
            return Err(LineFault::Bad);
        }
        match Granting::start(alloc, config) {
            Ok(None) => Err(LineFault::Bad),
            Ok(Some(granting)) => {
                drop(mem::replace(&mut self.granting, Some(granting)));
                Ok(())
            }
            Err(_) => Err(LineFault::NoMemory),
        }
    }

    /// Asks the administration, and prints its reply.
    #[tactic(auto, unfolding(crate::specs::Grants::ask_work))]
    fn ask(&mut self, alloc: Global, ask: GrantAsk, text: &mut String) -> Result<(), LineFault>
        ensures worked { OnOk result (IsWorked
            (ask_work self.old ask) self.new (string_bytes text.old) (string_bytes text.new)) }
        ensures bad { result ≡ Err LineFault.Bad
            → (ask_work self.old ask ≡ None) × (self.new ≡ self.old) }
        ensures unwritten { result ≡ Err LineFault.Bad
            → string_bytes text.new ≡ string_bytes text.old }
    {
        match &mut self.granting {
            Some(granting) => match ask_and_print(alloc, granting, ask, text) {
                Ok(()) => Ok(()),
                Err(_) => Err(LineFault::NoMemory),
            },
            None => Err(refuse(ask)),
        }
    }

    /// Decides the request over what the plugin sees now, prints the decision, and audits it.
    #[tactic(auto, using(rg_run_script::proofs::Hooks::judges), unfolding(crate::specs::Grants::judge_work))]
    fn decide<H: RequestHooks>(
        &mut self,
        alloc: Global,
        request: &mut AccessRequest,
        text: &mut String,
        hooks: &mut H,
    ) -> Result<(), LineFault>
        ensures same { self.new ≡ self.old }
        ensures worked { OnOk result
            (IsWorked (judge_work self.old (H.enrichers hooks.old) request.old) (hooked self.old
            (H.enrichers hooks.new)) (string_bytes text.old) (string_bytes text.new)) }
        ensures audited { OnOk result (IsAudited (judge_work self.old (H.enrichers hooks.old)
            request.old) (hooks_of (H.sinks hooks.old) (H.enrichers hooks.old))
            (hooks_of (H.sinks hooks.new) (H.enrichers hooks.new))) }
        ensures bad { result ≡ Err LineFault.Bad
            → judge_work self.old (H.enrichers hooks.old) request.old ≡ None }
        ensures unchanged { result ≡ Err LineFault.Bad → (string_bytes text.new
            ≡ string_bytes text.old) × (H.enrichers hooks.new ≡ H.enrichers hooks.old) }
        ensures unheard { OnErr result (H.sinks hooks.new ≡ H.sinks hooks.old) }
        ensures in_part { OnErr result (HaveRunOn (H.enrichers hooks.old) (H.enrichers hooks.new)) }
    {
        match &mut self.granting {
            None => Err(LineFault::Bad),
            Some(granting) => match judge(alloc, granting, request, text, hooks) {
                Ok(()) => Ok(()),
                Err(_) => Err(LineFault::NoMemory),
            },
        }
    }
}

impl HookedWorker for Grants {
    ghost use Rattle.rg_run_grants.specs.Grants.{grants_step};

    ghost hooked_step = { grants_step };

    #[tactic(auto, using(rg_run_script::proofs::Hooks::carries))]
    fn work_hooked<H: RequestHooks>(
        &mut self,
        alloc: Global,
        line: &[u8],
        now: Moment,
        text: &mut String,
        hooks: &mut H,
    ) -> Result<(), LineFault> {
        match read_grant_line(alloc, line, now) {
            Ok(GrantLine::Blank) => Ok(()),
            Ok(GrantLine::Config(config)) => self.start(alloc, config),
            Ok(GrantLine::Ask(ask)) => self.ask(alloc, ask, text),
            Ok(GrantLine::Decide(mut request)) => self.decide(alloc, &mut request, text, hooks),
            Err(fault) => Err(fault),
        }
    }
}
