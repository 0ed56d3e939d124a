// From words and bytes to bytes and a status.
ghost use Rattle.std.specs.Prelude.{◌≡◌, ◌⊎◌, ◌≤◌, ℕ, List, [], Some, None, IsSome, true, false, drop, length, map, string_bytes};
ghost use Rattle.rg_run.specs.declared.command.Command.{Command};
ghost use Rattle.rg_run.specs.Commands.{command_of, judges, reads, serves, takes_keeper};
ghost use Rattle.rg_run_script.specs.Limits.{is_too_long};
ghost use Rattle.rg_run_script.specs.Ports.{ports};
ghost use Rattle.rg_run.specs.Runs.{Answers, Drilled, around, first_hooks, shelf_of};
ghost use Rattle.rg_run_script.specs.Follow.{worked};
ghost use Rattle.rg_run_script.specs.Hooked.{hooked, with_enrichers};
ghost use Rattle.rg_run_script.specs.Runs.{IsRun, OfStatus, Stands, StandsHooked, WriteFaults};
ghost use Rattle.rg_run_serve.specs.Serve.{door};
ghost use Rattle.rg_run_keep.specs.Custody.{Keeps};

use crate::command::{Command, command_of};
use rg_hook::RequestHooks;
use rg_ports::{Clock, Gate, Listener, Sink, Source};
use rg_record_store::Keeper;
use rg_run_drill::{add_report, carry_out};
use rg_run_grants::Grants;
use rg_run_keep::keep_script;
use rg_run_replay::Replay;
use rg_run_report::Reports;
use rg_run_script::{HookedWorker, Status, Worker, work_script, work_script_hooked, write_all};
use rg_run_serve::{Service, serve_script};
use std::alloc::Global;
use std::mem;
use std::sync::Wait;
use std::thread::Threads;

/// Carries out a drill, and writes its report.
fn drill<R: Wait, K: Sink>(
    rt: &R,
    alloc: Global,
    seed: u32,
    policies: u32,
    requests: u32,
    sink: &mut K,
) -> Status
    ensures stands { Drilled seed policies requests (K.held sink.old) (K.held sink.new) result }
    ensures writes { WriteFaults result (K.faults sink.old) (K.faults sink.new) }
{
    let mut text = String::new(alloc);
    let totals = match carry_out(rt, alloc, seed, policies, requests) {
        Ok(totals) => totals,
        Err(_) => return Status::NoMemory,
    };
    if add_report(&mut text, &totals).is_err() {
        return Status::NoMemory;
    }
    match write_all(sink, text.as_bytes()) {
        Ok(()) => Status::Done,
        Err(_) => Status::WriteFault,
    }
}

/// Works a script by this worker, which is let go.
fn work_by<W: Worker + Drop, S: Source, K: Sink, C: Clock>(
    alloc: Global,
    mut worker: W,
    source: &mut S,
    sink: &mut K,
    clock: &mut C,
) -> Status
    ensures run { IsRun (Stands _ (worked W.step worker 1))
        (ports (S.left source.old) (S.ended source.old) (S.faults source.old) (C.given clock.old) (K.held sink.old) (K.faults sink.old))
        (ports (S.left source.new) (S.ended source.new) (S.faults source.new) (C.given clock.new) (K.held sink.new) (K.faults sink.new)) result }
    ensures clock_stays { (result ≡ Status.ReadFault)
        ⊎ (result ≡ Status.TooLong) → clock.new ≡ clock.old }
{
    let status = work_script(alloc, &mut worker, source, sink, clock);
    drop(worker);
    status
}

/// Works a script by this worker, which is let go, with the hooks of worker 0.
fn judge_by<W: HookedWorker + Drop, S: Source, K: Sink, C: Clock, H: RequestHooks>(
    alloc: Global,
    mut worker: W,
    source: &mut S,
    sink: &mut K,
    clock: &mut C,
    hooks: &mut Vec<H>,
) -> Status
    requires { 1 ≤ length hooks.old.items }
    ensures run { IsRun (StandsHooked _ (worked (with_enrichers W.hooked_step)
        (hooked worker (first_hooks H.sinks H.enrichers hooks.old.items).enrichers) 1)
        (first_hooks H.sinks H.enrichers hooks.old.items) (first_hooks H.sinks H.enrichers hooks.new.items))
        (ports (S.left source.old) (S.ended source.old) (S.faults source.old) (C.given clock.old) (K.held sink.old) (K.faults sink.old))
        (ports (S.left source.new) (S.ended source.new) (S.faults source.new) (C.given clock.new) (K.held sink.new) (K.faults sink.new)) result }
    ensures clock_stays { (result ≡ Status.ReadFault)
        ⊎ (result ≡ Status.TooLong) → clock.new ≡ clock.old }
    ensures unheard { (result ≡ Status.Usage) ⊎ ((result ≡ Status.ReadFault)
        ⊎ (result ≡ Status.TooLong)) → hooks.new.items ≡ hooks.old.items }
    ensures others { drop 1 hooks.new.items ≡ drop 1 hooks.old.items }
    ensures as_many { length hooks.new.items ≡ length hooks.old.items }
{
    let status = work_script_hooked(alloc, &mut worker, source, sink, clock, &mut hooks[0]);
    drop(worker);
    status
}

/// Works a script over the keeper, which is put back into its place, with the hooks of worker 0.
fn keep<P: Keeper + Drop, S: Source, K: Sink, C: Clock, H: RequestHooks>(
    alloc: Global,
    keeper: &mut Option<P>,
    source: &mut S,
    sink: &mut K,
    clock: &mut C,
    hooks: &mut Vec<H>,
) -> Status
    requires keeper { IsSome keeper.old }
    requires workers { 1 ≤ length hooks.old.items }
    ensures run { IsRun
        (Keeps (shelf_of P.kept P.faults keeper.old) (shelf_of P.kept P.faults keeper.new)
        (first_hooks H.sinks H.enrichers hooks.old.items) (first_hooks H.sinks H.enrichers hooks.new.items))
        (ports (S.left source.old) (S.ended source.old) (S.faults source.old) (C.given clock.old) (K.held sink.old) (K.faults sink.old))
        (ports (S.left source.new) (S.ended source.new) (S.faults source.new) (C.given clock.new) (K.held sink.new) (K.faults sink.new)) result }
    ensures clock_stays { (result ≡ Status.ReadFault)
        ⊎ (result ≡ Status.TooLong) → clock.new ≡ clock.old }
    ensures unheard { (result ≡ Status.Usage) ⊎ ((result ≡ Status.ReadFault)
        ⊎ (result ≡ Status.TooLong)) → hooks.new.items ≡ hooks.old.items }
    ensures others { drop 1 hooks.new.items ≡ drop 1 hooks.old.items }
    ensures as_many { length hooks.new.items ≡ length hooks.old.items }
    ensures put_back { IsSome keeper.new }
{
    let held = keeper.take().unwrap();
    let (held, status) = keep_script(alloc, held, source, sink, clock, &mut hooks[0]);
    *keeper = Some(held);
    status
}

/// What is asked, and what answers it beside the outside that it changes.
#[derive(Drop)]
struct Task<'r, 'g, R, G> {
    /// What starts threads, by which they wait.
    rt: &'r R,
    alloc: Global,
    /// To which the workers of a service come before and after each decision.
    gate: &'g G,
    /// The command; None for words that ask for none.
    command: Option<Command>,
}

/// Answers a command.
fn answer<
    S: Source,
    K: Sink,
    C: Clock,
    N: Listener,
    G: Gate,
    H: RequestHooks + Send,
    P: Keeper + Drop,
    R: Threads + Wait + Sync,
>(
    task: &Task<R, G>,
    source: &mut S,
    sink: &mut K,
    clock: &mut C,
    net: &mut N,
    hooks: &mut Vec<H>,
    keeper: &mut Option<P>,
) -> Status
    requires workers { (1 ≤ length hooks.old.items) × (length hooks.old.items ≤ 64) }
    requires keeper { takes_keeper task.now.command ≡ true → IsSome keeper.old }
    ensures run { IsRun (Answers (length hooks.old.items)
        (around (door (N.given net.old) (N.ended net.old) (N.faults net.old)) (shelf_of P.kept P.faults keeper.old) (first_hooks H.sinks H.enrichers hooks.old.items))
        (around (door (N.given net.new) (N.ended net.new) (N.faults net.new)) (shelf_of P.kept P.faults keeper.new) (first_hooks H.sinks H.enrichers hooks.new.items)) task.now.command)
        (ports (S.left source.old) (S.ended source.old) (S.faults source.old) (C.given clock.old) (K.held sink.old) (K.faults sink.old))
        (ports (S.left source.new) (S.ended source.new) (S.faults source.new) (C.given clock.new) (K.held sink.new) (K.faults sink.new)) result }
    ensures clock_stays { (result ≡ Status.ReadFault)
        ⊎ (result ≡ Status.TooLong) → clock.new ≡ clock.old }
    ensures untouched { reads task.now.command ≡ false
        → (source.new ≡ source.old) × (clock.new ≡ clock.old) }
    ensures unserved { serves task.now.command ≡ false → net.new ≡ net.old }
    ensures taken { serves task.now.command ≡ true → hooks.new.items ≡ [] }
    ensures others { serves task.now.command ≡ false → (drop 1 hooks.new.items
        ≡ drop 1 hooks.old.items) × (length hooks.new.items ≡ length hooks.old.items) }
    ensures unhooked { serves task.now.command ≡ false
        → judges task.now.command ≡ false → hooks.new.items ≡ hooks.old.items }
    ensures unheard { serves task.now.command ≡ false
        → (result ≡ Status.Usage) ⊎ ((result ≡ Status.ReadFault) ⊎ (result ≡ Status.TooLong))
        → hooks.new.items ≡ hooks.old.items }
    ensures unkept { takes_keeper task.now.command ≡ false → keeper.new ≡ keeper.old }
    ensures put_back { takes_keeper task.now.command ≡ true → IsSome keeper.new }
{
    match &task.command {
        Some(Command::Replay) => judge_by(
            task.alloc,
            Replay::new(task.rt),
            source,
            sink,
            clock,
            hooks,
        ),
        Some(Command::Serve { address, links }) => {
            let hooks = mem::replace(hooks, Vec::new(task.alloc));
            let service = Service {
                rt: task.rt,
                address,
                links: *links,
                gate: task.gate,
            };
            serve_script(task.alloc, &service, source, sink, clock, net, hooks)
        }
        Some(
            Command::Drill {
                seed,
                policies,
                requests,
            },
        ) => drill(task.rt, task.alloc, *seed, *policies, *requests, sink),
        Some(Command::Grants) => judge_by(task.alloc, Grants::new(), source, sink, clock, hooks),
        Some(Command::Report) => work_by(task.alloc, Reports::new(), source, sink, clock),
        Some(Command::Keep) => keep(task.alloc, keeper, source, sink, clock, hooks),
        None => match write_all(
            sink,
            b"usage: rangerd replay | serve ADDRESS LINKS | drill SEED POLICIES REQUESTS | grants | report | keep\n",
        ) {
            Ok(()) => Status::Usage,
            Err(_) => Status::WriteFault,
        },
    }
}

/// Runs the command that the words ask for, and answers the number of its status. There are as many workers as hooks, 1 to 64.
/// `serve` takes the hooks and leaves none. `keep` alone needs a keeper, which is there again afterwards.
pub fn run<
    S: Source,
    K: Sink,
    C: Clock,
    N: Listener,
    G: Gate,
    H: RequestHooks + Send,
    P: Keeper + Drop,
>(
    rt: &(impl Threads + Wait + Sync),
    alloc: Global,
    words: &[String],
    source: &mut S,
    sink: &mut K,
    clock: &mut C,
    net: &mut N,
    gate: &G,
    hooks: &mut Vec<H>,
    keeper: &mut Option<P>,
) -> u8
    requires workers { (1 ≤ length hooks.old.items) × (length hooks.old.items ≤ 64) }
    requires keeper { takes_keeper (command_of (map string_bytes words.now)) ≡ true
        → IsSome keeper.old }
    // Each status comes as `Answers` says: with Done and BadLine the sink got exactly the text of the command's definition over the source's
    // lines and the clock's moments, after a failed write a prefix of the one text that belongs to the words, the bytes and these moments,
    // and a count of faults rose exactly where the status says so. After links were served the totals are those of `AreTotals`. After `keep`
    // the keeper's records are those that were found, and then those of the script, or the first of these where the run broke off.
    ensures answers { OfStatus result (IsRun (Answers (length hooks.old.items)
        (around (door (N.given net.old) (N.ended net.old) (N.faults net.old)) (shelf_of P.kept P.faults keeper.old) (first_hooks H.sinks H.enrichers hooks.old.items))
        (around (door (N.given net.new) (N.ended net.new) (N.faults net.new)) (shelf_of P.kept P.faults keeper.new) (first_hooks H.sinks H.enrichers hooks.new.items)) (command_of (map string_bytes words.now)))
        (ports (S.left source.old) (S.ended source.old) (S.faults source.old) (C.given clock.old) (K.held sink.old) (K.faults sink.old))
        (ports (S.left source.new) (S.ended source.new) (S.faults source.new) (C.given clock.new) (K.held sink.new) (K.faults sink.new))) }

    // Words that ask for no command, and a drill, leave source and clock alone, and limits are decided before the clock is asked. Other
    // commands than `serve` leave the listener alone, and other commands than `keep` the keeper.
    ensures untouched { reads (command_of (map string_bytes words.now)) ≡ false
        → (source.new ≡ source.old) × (clock.new ≡ clock.old) }
    ensures clock_stays { (result ≡ 1) ⊎ ((result ≡ 3) ⊎ (result ≡ 6)) → clock.new ≡ clock.old }
    ensures unserved { serves (command_of (map string_bytes words.now)) ≡ false
        → net.new ≡ net.old }
    ensures unkept { takes_keeper (command_of (map string_bytes words.now)) ≡ false
        → keeper.new ≡ keeper.old }
    ensures put_back { takes_keeper (command_of (map string_bytes words.now)) ≡ true
        → IsSome keeper.new }

    // The hooks. `serve` takes them and leaves none. All other commands leave them there, and those of other workers than worker 0 as they
    // were. `replay`, `grants` and `keep` enrich and audit by those of worker 0, as `Answers` says; before a script is worked they are as
    // they were.
    ensures taken { serves (command_of (map string_bytes words.now)) ≡ true
        → (hooks.new.items ≡ []) ⊎ ((result ≡ 9) × (hooks.new.items ≡ hooks.old.items)) }
    ensures others { serves (command_of (map string_bytes words.now)) ≡ false →
        (drop 1 hooks.new.items ≡ drop 1 hooks.old.items) × (length hooks.new.items ≡ length hooks.old.items) }
    ensures unhooked { serves (command_of (map string_bytes words.now)) ≡ false
        → judges (command_of (map string_bytes words.now)) ≡ false →
        hooks.new.items ≡ hooks.old.items }
    ensures unheard { serves (command_of (map string_bytes words.now)) ≡ false
        → (result ≡ 1) ⊎ ((result ≡ 3) ⊎ (result ≡ 6)) → hooks.new.items ≡ hooks.old.items }

    // Completeness: a command, bytes within the limits and no fault give the script's status, or want of memory, or with `keep` a bad
    // record.
    ensures complete { (command : Command)
        → command_of (map string_bytes words.now) ≡ Some command →
        S.faults source.new ≡ S.faults source.old → K.faults sink.new ≡ K.faults sink.old → N.faults net.new ≡ N.faults net.old →
        (shelf_of P.kept P.faults keeper.new).faults ≡ (shelf_of P.kept P.faults keeper.old).faults →
        (bytes : List ℕ) → S.left source.old ≡ Some bytes → is_too_long bytes ≡ false →
        (result ≡ 0) ⊎ ((result ≡ 2) ⊎ ((result ≡ 9) ⊎ ((takes_keeper (command_of (map string_bytes words.now)) ≡ true) × (result ≡ 10)))) }
{
    match command_of(alloc, words) {
        Ok(command) => {
            let task = Task {
                rt,
                alloc,
                gate,
                command,
            };
            answer(&task, source, sink, clock, net, hooks, keeper).number()
        }
        Err(_) => Status::NoMemory.number(),
    }
}
