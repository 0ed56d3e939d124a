// A kept administration, and what its plugin decides.
ghost use Rattle.std.specs.Prelude.{◌≡◌, ◌≤◌, ◌<◌, None, IfOk, IfErr};
ghost use Rattle.rg_ask_wire.specs.Asks.{ask_text};
ghost use Rattle.rg_ask_wire.specs.KeyOrder.{IsInKeyOrder};
ghost use Rattle.rg_keep.specs.Starting.{start_fault};
ghost use Rattle.rg_keep.specs.Crashes.{MayTell};
ghost use Rattle.rg_keep.specs.Keeping.{Adds, HasLength, IsAnswer, IsCause, IsReplayed, Reopens, adds, is_full, is_past};
ghost use Rattle.rg_run_keep.specs.Opened.{IsLaterCause};

use rg_base::{NoMemory, TryCopy};
use rg_cmd::{Ask, Config};
use rg_facts::Decision;
use rg_keep::{KeptAdmin, KeptReply, ReopenCause, ReopenFault, Stopped};
use rg_policy::AccessRequest;
use rg_record_store::{Keeper, KeeperFault};
use rg_run_script::{Decider, decide_now};
use std::alloc::Global;
use std::marker::Model;

/// A kept administration with the configuration that it was opened with, which breaks no rule. Where the keeper tells its list,
/// all records in it are good, and what they make agrees with the administration.
pub struct Keeping<P: Keeper + Drop> {
    config: Config,
    desk: KeptAdmin<P>,
}

impl<P: Keeper + Drop> Drop for Keeping<P> {
    fn drop(self) {
        let Self { config: _, desk: _ } = self;
    }
}

impl<P: Keeper + Drop> Model for Keeping<P> {
    ghost use Rattle.std.specs.Prelude.{◌≡◌, None};
    ghost use Rattle.rg_keep.specs.Starting.{start_fault};
    ghost use Rattle.rg_keep.specs.Keeping.{IsKept};
    ghost use Rattle.rg_run_keep.specs.Opened as the;

    ghost Value = { the.Keeping P };

    ghost view = { λ k. record { config = k.config; desk = k.desk } };

    ghost invariant = { λ k. (start_fault k.config ≡ None)
        × IsKept (P.kept k.desk.keeper) k.config k.desk.admin };
}

impl<P: Keeper + Drop> Keeping<P> {
    /// Starts from the configuration and takes the keeper's records in order. The keeper comes back where that is refused. The
    /// list stays.
    #[tactic(auto, using(crate::proofs::Opening::opening))]
    pub fn open(alloc: Global, config: Config, keeper: P) -> Result<Keeping<P>, ReopenFault<P>>
        ensures config { IfOk result (λ k. k.config ≡ config) }
        ensures replayed { IfOk result (λ k. IsReplayed (P.kept keeper) config k.desk.admin) }
        ensures reopens { IfOk result (λ k. Reopens (P.kept keeper) config) }
        ensures lawful { IfOk result (λ k. start_fault config ≡ None) }
        ensures same { IfOk result (λ k. P.kept k.desk.keeper ≡ P.kept keeper) }
        ensures same_err { IfErr result (λ fault. P.kept fault.keeper ≡ P.kept keeper) }
        ensures cause { IfErr result (λ fault. IsCause fault.cause
            (P.kept keeper) config (P.faults keeper) (P.faults fault.keeper)) }
        ensures counted { IfOk result (λ k. P.faults keeper ≤ P.faults k.desk.keeper) }
        ensures counted_err { IfErr result (λ fault. P.faults keeper ≤ P.faults fault.keeper) }
    {
        let copy = match config.try_copy(alloc) {
            Ok(copy) => copy,
            Err(_) => {
                drop(config);
                let cause = ReopenCause::NoMemory;
                return Err(ReopenFault { keeper, cause });
            }
        };
        match KeptAdmin::reopen(alloc, copy, keeper) {
            Ok(desk) => Ok(Keeping { config, desk }),
            Err(fault) => {
                drop(config);
                Err(fault)
            }
        }
    }

    /// Gives the keeper back, and opens again under the same configuration.
    #[tactic(auto, using(crate::proofs::Opening::later))]
    pub fn reopen(self, alloc: Global) -> Result<Keeping<P>, ReopenFault<P>>
        ensures config { IfOk result (λ k. k.config ≡ self.config) }
        ensures replayed { IfOk result
            (λ k. IsReplayed (P.kept self.desk.keeper) self.config k.desk.admin) }
        ensures same { IfOk result (λ k. P.kept k.desk.keeper ≡ P.kept self.desk.keeper) }
        ensures same_err { IfErr result (λ fault. P.kept fault.keeper ≡ P.kept self.desk.keeper) }
        ensures cause { IfErr result (λ fault. IsLaterCause fault.cause
            (P.kept self.desk.keeper) (P.faults self.desk.keeper) (P.faults fault.keeper)) }
        ensures counted { IfOk result (λ k. P.faults self.desk.keeper ≤ P.faults k.desk.keeper) }
        ensures counted_err { IfErr result
            (λ fault. P.faults self.desk.keeper ≤ P.faults fault.keeper) }
    {
        let Keeping { config, desk } = self;
        Keeping::open(alloc, config, desk.into_keeper())
    }

    /// Answers an ask in key order. The record of an accepted command that changes the state is with the keeper before the reply
    /// is there.
    pub fn ask(self, alloc: Global, ask: Ask) -> Result<(Keeping<P>, KeptReply), Stopped<P>>
        requires { IsInKeyOrder ask }
        ensures config { IfOk result (λ r. r.0.config ≡ self.config) }
        ensures answer { IfOk result (λ r. IsAnswer self.desk.admin ask r.0.desk.admin r.1) }
        ensures full { IfOk result (λ r. is_full r.1 ≡ is_past self.desk.kept ask) }
        ensures added { IfOk result (λ r. Adds (P.kept self.desk.keeper)
            (adds self.desk.kept self.desk.admin ask) (ask_text ask) (P.kept r.0.desk.keeper)) }
        ensures stopped { IfErr result (λ s. MayTell
            (P.kept self.desk.keeper) self.desk.admin ask self.desk.kept (P.kept s.keeper)) }
        ensures counted { IfOk result (λ r. P.faults self.desk.keeper ≤ P.faults r.0.desk.keeper) }
        ensures counted_err { IfErr result (λ s. P.faults self.desk.keeper ≤ P.faults s.keeper) }
        ensures failed { IfErr result (λ s. s.cause ≡ KeeperFault.Failed
            → P.faults self.desk.keeper < P.faults s.keeper) }
    {
        let Keeping { config, desk } = self;
        match desk.step(alloc, ask) {
            Ok((desk, reply)) => Ok((Keeping { config, desk }, reply)),
            Err(stopped) => {
                drop(config);
                Err(stopped)
            }
        }
    }

    /// How many commands are kept.
    pub fn kept(&self) -> u64
        ensures number { result ≡ self.now.desk.kept }
        ensures length { HasLength (P.kept self.now.desk.keeper) result }
    {
        self.desk.kept()
    }

    /// The keeper, with the administration gone.
    pub fn into_keeper(self) -> P
        ensures { result ≡ self.desk.keeper }
    {
        let Keeping { config, desk } = self;
        drop(config);
        desk.into_keeper()
    }
}

impl<P: Keeper + Drop> Decider for Keeping<P> {
    ghost use Rattle.rg_run_script.specs.Current.{decision_now};

    ghost served = { λ k. k.desk.admin.state.plugin };

    ghost decides = { λ k q. decision_now k.desk.admin q };

    fn service(&self) -> &str {
        self.desk.admin().state().plugin.as_str()
    }

    /// Decides the request over what the plugin sees now. Nothing is published, so the serial is 0. Want of memory is also
    /// answered once `2^62` entries are counted.
    fn decide(&mut self, alloc: Global, request: &AccessRequest) -> Result<Decision, NoMemory> {
        decide_now(alloc, self.desk.admin(), request)
    }
}
