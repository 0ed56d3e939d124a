// A script of a kept administration on its way, line by line.
ghost use Rattle.std.specs.Prelude.{◌≡◌, ◌≢◌, ◌≤◌, ◌<◌, ◌++◌, [], Err, OnOk, IfErr, string_bytes};
ghost use Rattle.rg_ask_wire.specs.KeyOrder.{IsInKeyOrder};
ghost use Rattle.rg_run_keep.specs.Keeps.{ask_work, config_work, full_line, judge_work, kept_line, reopen_work};
ghost use Rattle.rg_run_keep.specs.Stages.{Goes, GoesOn, IsLeft, Stops, StopsAt, keeper_of, kept_reply_line, line_step, opened_of, stop_of_cause, stop_of_fault};
ghost use Rattle.rg_run_script.specs.Hooked.{hooks_of};

use crate::keeping::Keeping;
use crate::line::{KeepLine, read_keep_line};
use rg_base::{Moment, NoMemory};
use rg_cmd::{Ask, Config};
use rg_hook::RequestHooks;
use rg_keep::{KeptReply, ReopenCause};
use rg_policy::AccessRequest;
use rg_record_store::{Keeper, KeeperFault};
use rg_run_script::{LineFault, add_reply, judge};
use std::alloc::Global;

/// Why a script goes no further.
#[derive(Clone, Copy, Debug, PartialEq, Eq)]
pub(crate) enum KeepStop {
    /// The line is a bad one.
    Bad,
    /// The record at this place is a bad one.
    BadRecord(u64),
    /// The keeper failed.
    Failed,
    NoMemory,
}

/// What is held of a script of a kept administration.
#[derive(Drop)]
pub(crate) enum Stage<P: Keeper + Drop> {
    /// There were only blank lines, or the administration is gone and the script stops.
    Closed(P),
    Opened(Keeping<P>),
}

/// Why a script stops where its administration isn't opened.
fn stop_of_cause(cause: ReopenCause) -> KeepStop
    ensures { result ≡ stop_of_cause cause }
{
    match cause {
        ReopenCause::Rule(_) => KeepStop::Bad,
        ReopenCause::BadRecord(place) => KeepStop::BadRecord(place),
        ReopenCause::Failed => KeepStop::Failed,
        ReopenCause::NoMemory => KeepStop::NoMemory,
    }
}

/// Why a script stops where its keeper doesn't keep a record.
fn stop_of_fault(fault: KeeperFault) -> KeepStop
    ensures { result ≡ stop_of_fault fault }
{
    match fault {
        KeeperFault::Failed => KeepStop::Failed,
        KeeperFault::NoMemory => KeepStop::NoMemory,
    }
}

/// Adds the line of an administration that was opened again.
#[tactic(auto, unfolding(crate::specs::Keeps::kept_line))]
fn add_kept(text: &mut String, kept: u64) -> Result<(), NoMemory>
    ensures { OnOk result (string_bytes text.new ≡ string_bytes text.old ++ kept_line kept) }
{
    match writeln!(text, "{{\"kept\":{kept}}}") {
        Ok(()) => Ok(()),
        Err(_) => Err(NoMemory),
    }
}

/// Adds the line that says that no more commands are kept.
#[tactic(auto, unfolding(crate::specs::Keeps::full_line))]
fn add_full(text: &mut String) -> Result<(), NoMemory>
    ensures { OnOk result (string_bytes text.new ≡ string_bytes text.old ++ full_line) }
{
    match writeln!(text, "{{\"full\":true}}") {
        Ok(()) => Ok(()),
        Err(_) => Err(NoMemory),
    }
}

/// Adds the line of what an ask is answered.
fn add_answer(alloc: Global, text: &mut String, reply: KeptReply) -> Result<(), NoMemory>
    ensures { OnOk result (string_bytes text.new ≡ string_bytes text.old ++ kept_reply_line reply) }
{
    match reply {
        KeptReply::Reply(reply) => add_reply(alloc, text, reply),
        KeptReply::Full => add_full(text),
    }
}

impl<P: Keeper + Drop> Stage<P> {
    /// The keeper, with the administration gone.
    pub(crate) fn into_keeper(self) -> P
        ensures { result ≡ keeper_of self }
    {
        match self {
            Stage::Closed(keeper) => keeper,
            Stage::Opened(keeping) => keeping.into_keeper(),
        }
    }

    /// Opens the administration that the keeper's records make of the configuration, where the script begins with it.
    #[tactic(auto, using(crate::proofs::Staging::starting))]
    fn start(self, alloc: Global, config: Config) -> (Stage<P>, Result<(), KeepStop>)
        ensures worked { OnOk result.1 (Goes (P.kept (keeper_of self))
            (λ records. config_work (opened_of self) records config)
            (P.kept (keeper_of result.0)) (opened_of result.0) [] []) }
        ensures stopped { IfErr result.1 (λ stop. Stops stop (P.kept (keeper_of self))
            (λ records. config_work (opened_of self) records config)
            (opened_of self) (P.kept (keeper_of result.0))) }
        ensures counted { P.faults (keeper_of self) ≤ P.faults (keeper_of result.0) }
        ensures failed { result.1 ≡ Err KeepStop.Failed
            → P.faults (keeper_of self) < P.faults (keeper_of result.0) }
    {
        let keeper = match self {
            Stage::Closed(keeper) => keeper,
            Stage::Opened(keeping) => {
                drop(config);
                return (Stage::Opened(keeping), Err(KeepStop::Bad));
            }
        };
        match Keeping::open(alloc, config, keeper) {
            Ok(keeping) => (Stage::Opened(keeping), Ok(())),
            Err(fault) => (Stage::Closed(fault.keeper), Err(stop_of_cause(fault.cause))),
        }
    }

    /// Asks the administration, and prints the reply once what is to be kept is with the keeper.
    #[tactic(auto, using(crate::proofs::Staging::asking))]
    fn ask(self, alloc: Global, ask: Ask, text: &mut String) -> (Stage<P>, Result<(), KeepStop>)
        requires { IsInKeyOrder ask }
        ensures worked { OnOk result.1 (Goes (P.kept (keeper_of self))
            (λ records. ask_work (opened_of self) records ask) (P.kept (keeper_of result.0))
            (opened_of result.0) (string_bytes text.old) (string_bytes text.new)) }
        ensures stopped { IfErr result.1 (λ stop. Stops stop (P.kept (keeper_of self))
            (λ records. ask_work (opened_of self) records ask)
            (opened_of self) (P.kept (keeper_of result.0))) }
        ensures unprinted { IfErr result.1
            (λ stop. stop ≢ KeepStop.NoMemory → string_bytes text.new ≡ string_bytes text.old) }
        ensures counted { P.faults (keeper_of self) ≤ P.faults (keeper_of result.0) }
        ensures failed { result.1 ≡ Err KeepStop.Failed
            → P.faults (keeper_of self) < P.faults (keeper_of result.0) }
    {
        let keeping = match self {
            Stage::Opened(keeping) => keeping,
            Stage::Closed(keeper) => {
                drop(ask);
                return (Stage::Closed(keeper), Err(KeepStop::Bad));
            }
        };
        // It is the length of the keeper's list.
        let _kept = keeping.kept();
        match keeping.ask(alloc, ask) {
            Ok((keeping, reply)) => {
                let stage = Stage::Opened(keeping);
                match add_answer(alloc, text, reply) {
                    Ok(()) => (stage, Ok(())),
                    Err(_) => (stage, Err(KeepStop::NoMemory)),
                }
            }
            Err(stopped) => (
                Stage::Closed(stopped.keeper),
                Err(stop_of_fault(stopped.cause)),
            ),
        }
    }

    /// Opens the administration again over the keeper's records, and prints how many they are.
    #[tactic(auto, using(crate::proofs::Staging::reopening))]
    fn reopen(self, alloc: Global, text: &mut String) -> (Stage<P>, Result<(), KeepStop>)
        ensures worked { OnOk result.1 (Goes (P.kept (keeper_of self))
            (reopen_work (opened_of self)) (P.kept (keeper_of result.0))
            (opened_of result.0) (string_bytes text.old) (string_bytes text.new)) }
        ensures stopped { IfErr result.1 (λ stop. Stops stop (P.kept (keeper_of self))
            (reopen_work (opened_of self)) (opened_of self) (P.kept (keeper_of result.0))) }
        ensures unprinted { IfErr result.1
            (λ stop. stop ≢ KeepStop.NoMemory → string_bytes text.new ≡ string_bytes text.old) }
        ensures counted { P.faults (keeper_of self) ≤ P.faults (keeper_of result.0) }
        ensures failed { result.1 ≡ Err KeepStop.Failed
            → P.faults (keeper_of self) < P.faults (keeper_of result.0) }
    {
        let keeping = match self {
            Stage::Opened(keeping) => keeping,
            Stage::Closed(keeper) => return (Stage::Closed(keeper), Err(KeepStop::Bad)),
        };
        match keeping.reopen(alloc) {
            Ok(keeping) => {
                let kept = keeping.kept();
                let stage = Stage::Opened(keeping);
                match add_kept(text, kept) {
                    Ok(()) => (stage, Ok(())),
                    Err(_) => (stage, Err(KeepStop::NoMemory)),
                }
            }
            Err(fault) => (Stage::Closed(fault.keeper), Err(stop_of_cause(fault.cause))),
        }
    }

    /// Decides the request over what the plugin sees now, prints the decision, and audits it.
    #[tactic(auto, using(crate::proofs::Staging::deciding_now))]
    fn decide<H: RequestHooks>(
        self,
        alloc: Global,
        mut request: AccessRequest,
        text: &mut String,
        hooks: &mut H,
    ) -> (Stage<P>, Result<(), KeepStop>)
        ensures same { result.0 ≡ self }
        ensures worked { OnOk result.1 (GoesOn (P.kept (keeper_of self))
            (λ records. judge_work (opened_of self) records (H.enrichers hooks.old) request)
            (P.kept (keeper_of self)) (opened_of self)
            (hooks_of (H.sinks hooks.old) (H.enrichers hooks.old)) (hooks_of (H.sinks hooks.new) (H.enrichers hooks.new)) (string_bytes text.old) (string_bytes text.new)) }
        ensures stopped { IfErr result.1 (λ stop. StopsAt stop (P.kept (keeper_of self))
            (λ records. judge_work (opened_of self) records (H.enrichers hooks.old) request)
            (opened_of self) (H.enrichers hooks.old) (P.kept (keeper_of self))) }
        ensures left { IfErr result.1
            (λ stop. IsLeft stop (hooks_of (H.sinks hooks.old) (H.enrichers hooks.old))
            (hooks_of (H.sinks hooks.new) (H.enrichers hooks.new))) }
        ensures unprinted { IfErr result.1
            (λ stop. stop ≢ KeepStop.NoMemory → string_bytes text.new ≡ string_bytes text.old) }
        ensures unfailed { IfErr result.1 (λ stop. stop ≢ KeepStop.Failed) }
    {
        let mut keeping = match self {
            Stage::Opened(keeping) => keeping,
            Stage::Closed(keeper) => return (Stage::Closed(keeper), Err(KeepStop::Bad)),
        };
        match judge(alloc, &mut keeping, &mut request, text, hooks) {
            Ok(()) => (Stage::Opened(keeping), Ok(())),
            Err(_) => (Stage::Opened(keeping), Err(KeepStop::NoMemory)),
        }
    }

    /// Works a line, and puts what it prints behind the text. An audited decision is given to the sinks once its line is behind
    /// the text. Where it stops nothing is printed, unless memory was refused.
    pub(crate) fn work<H: RequestHooks>(
        self,
        alloc: Global,
        line: &[u8],
        now: Moment,
        text: &mut String,
        hooks: &mut H,
    ) -> (Stage<P>, Result<(), KeepStop>)
        ensures worked { OnOk result.1 (GoesOn (P.kept (keeper_of self))
            (line_step (opened_of self) (H.enrichers hooks.old) line.now now)
            (P.kept (keeper_of result.0)) (opened_of result.0)
            (hooks_of (H.sinks hooks.old) (H.enrichers hooks.old)) (hooks_of (H.sinks hooks.new) (H.enrichers hooks.new)) (string_bytes text.old) (string_bytes text.new)) }
        ensures stopped { IfErr result.1 (λ stop. StopsAt stop (P.kept (keeper_of self))
            (line_step (opened_of self) (H.enrichers hooks.old) line.now now)
            (opened_of self) (H.enrichers hooks.old) (P.kept (keeper_of result.0))) }
        ensures left { IfErr result.1
            (λ stop. IsLeft stop (hooks_of (H.sinks hooks.old) (H.enrichers hooks.old))
            (hooks_of (H.sinks hooks.new) (H.enrichers hooks.new))) }
        ensures unprinted { IfErr result.1
            (λ stop. stop ≢ KeepStop.NoMemory → string_bytes text.new ≡ string_bytes text.old) }
        ensures counted { P.faults (keeper_of self) ≤ P.faults (keeper_of result.0) }
        ensures failed { result.1 ≡ Err KeepStop.Failed
            → P.faults (keeper_of self) < P.faults (keeper_of result.0) }
    {
        match read_keep_line(alloc, line, now) {
            Ok(KeepLine::Blank) => (self, Ok(())),
            Ok(KeepLine::Config(config)) => self.start(alloc, config),
            Ok(KeepLine::Ask(ask)) => self.ask(alloc, ask, text),
            Ok(KeepLine::Reopen) => self.reopen(alloc, text),
            Ok(KeepLine::Decide(request)) => self.decide(alloc, request, text, hooks),
            Err(LineFault::Bad) => (self, Err(KeepStop::Bad)),
            Err(LineFault::NoMemory) => (self, Err(KeepStop::NoMemory)),
        }
    }
}
