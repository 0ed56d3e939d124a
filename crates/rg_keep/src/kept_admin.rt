// An administration whose commands are kept.
ghost use Rattle.std.specs.Prelude.{◌≡◌, ◌≤◌, ◌<◌, ℕ, List, Some, None, Ok, Err, true, false, IfOk, IfErr, IsErrOf, OnErr, OnOk};
ghost use Rattle.rg_cmd.specs.declared.config.Config.{Config};
ghost use Rattle.rg_record_store.specs.Keeping.{Gets, MayGet, Nothing, Passes, WithOrWithout};
ghost use Rattle.rg_ask_wire.specs.Asks.{ask_text};
ghost use Rattle.rg_ask_wire.specs.Keeping.{is_keeping};
ghost use Rattle.rg_ask_wire.specs.KeyOrder.{IsInKeyOrder};
ghost use Rattle.rg_ask_wire.specs.Reading.{ask_reading};
ghost use Rattle.rg_admin.specs.Starting.{start_fault};
ghost use Rattle.rg_keep.specs.Crashes.{Gains, IsFit, MayGain, MayLeave, MayTell, Survives};
ghost use Rattle.rg_keep.specs.Keeping.{Adds, Desk, HasLength, IsAnswer, IsCause, IsKept, IsReplayed, Reopens, adds, count_one, is_full, is_past};
ghost use Rattle.rg_keep.specs.Replay.{is_kept, most_kept, stepped};

use crate::reopen::{MOST_KEPT, ReopenFault, answer, is_refused, replay};
use rg_admin::Admin;
use rg_ask_wire::{is_keeping, print_ask};
use rg_cmd::{AdminReply, Ask, Config};
use rg_record_store::{Keeper, KeeperFault};
use std::alloc::Global;
use std::marker::Model;

/// An administration with its keeper.
#[derive(Drop)]
pub struct KeptAdmin<P: Keeper + Drop> {
    admin: Admin,
    keeper: P,
    kept: u64,
}

impl<P: Keeper + Drop> Model for KeptAdmin<P> {
    ghost use Rattle.rg_keep.specs.Keeping.{Counts, Desk};

    ghost Value = { Desk P };

    ghost view = { λ k. record { admin = k.admin; keeper = k.keeper; kept = k.kept } };

    ghost invariant = { λ k. Counts (P.kept k.keeper) k.kept };
}

/// What an ask is answered.
#[derive(Drop)]
pub enum KeptReply {
    Reply(AdminReply),
    /// As many commands are kept as may be. Nothing was changed.
    Full,
}

/// The administration is gone, and is had again by `reopen` over this keeper.
#[derive(Drop)]
pub struct Stopped<P: Drop> {
    pub keeper: P,
    pub cause: KeeperFault,
}

/// A reply, and whether the command was kept.
#[derive(Drop)]
struct Answered {
    reply: AdminReply,
    is_kept: bool,
}

/// The number of kept commands, with one more where another was kept.
fn count_one(kept: u64, is_kept: bool) -> u64
    requires { kept < most_kept }
    ensures { result ≡ count_one kept is_kept }
{
    if is_kept { kept + 1 } else { kept }
}

/// The reply of a command that isn't kept.
fn unkept(reply: AdminReply) -> Answered
    ensures { result ≡ record { reply = reply; is_kept = false } }
{
    Answered {
        reply,
        is_kept: false,
    }
}

/// A reply that isn't given.
fn unanswered(_reply: AdminReply, fault: KeeperFault) -> Result<Answered, KeeperFault>
    ensures { result ≡ Err fault }
{
    Err(fault)
}

/// Hands the record to the keeper, and gives the reply once it is there.
fn keep_record<P: Keeper>(
    alloc: Global,
    keeper: &mut P,
    entry: &[u8],
    reply: AdminReply,
) -> Result<Answered, KeeperFault>
    ensures answered { IfOk result (λ r. (r.reply ≡ reply) × (r.is_kept ≡ true)) }
    ensures stored { OnOk result (Gets (P.kept keeper.old) entry.now (P.kept keeper.new)) }
    ensures refused { OnErr result (MayGet (P.kept keeper.old) entry.now (P.kept keeper.new)) }
    ensures moments { Passes (P.moment keeper.old) (P.moment keeper.new) (P.left_since keeper.old)
        (P.left_since keeper.new) (WithOrWithout (P.kept keeper.old) entry.now) }
    ensures counted { P.faults keeper.old ≤ P.faults keeper.new }
    ensures failed { IsErrOf result KeeperFault.Failed → P.faults keeper.old < P.faults keeper.new }
{
    match keeper.append(alloc, entry) {
        Ok(()) => Ok(Answered {
            reply,
            is_kept: true,
        }),
        Err(fault) => unanswered(reply, fault),
    }
}

/// Answers an ask of a command that is kept where it is accepted. Its record is with the keeper before the reply is there.
#[tactic(auto, using(crate::proofs::Adding::replies, crate::proofs::Adding::lists, crate::proofs::Passing::passing))]
fn answer_keeping<P: Keeper>(
    alloc: Global,
    admin: &mut Admin,
    keeper: &mut P,
    ask: Ask,
    entry: &[u8],
) -> Result<Answered, KeeperFault>
    requires keeps { is_keeping ask.command ≡ true }
    ensures reply { IfOk result (λ r. (admin.new, r.reply) ≡ stepped admin.old ask) }
    ensures is_kept { IfOk result (λ r. r.is_kept ≡ is_kept admin.old ask) }
    ensures added { IfOk result
        (λ r. Adds (P.kept keeper.old) r.is_kept entry.now (P.kept keeper.new)) }
    ensures stopped { OnErr result
        (Gains (P.kept keeper.old) (is_kept admin.old ask) entry.now (P.kept keeper.new)) }
    ensures moments { Passes (P.moment keeper.old) (P.moment keeper.new) (P.left_since keeper.old)
        (P.left_since keeper.new) (MayGain (P.kept keeper.old) (is_kept admin.old ask) entry.now) }
    ensures counted { P.faults keeper.old ≤ P.faults keeper.new }
    ensures failed { IfErr result (λ fault. fault ≡ KeeperFault.Failed
        → P.faults keeper.old < P.faults keeper.new) }
{
    let reply = answer(alloc, admin, ask)?;
    if is_refused(&reply) {
        return Ok(unkept(reply));
    }
    keep_record(alloc, keeper, entry, reply)
}

impl<P: Keeper + Drop> KeptAdmin<P> {
    /// Starts from the configuration and takes the keeper's records in order. The keeper comes back where that is refused. The
    /// list and what a crash leaves stay.
    pub fn reopen(alloc: Global, config: Config, keeper: P) -> Result<KeptAdmin<P>, ReopenFault<P>>
        ensures replayed { IfOk result (λ desk. IsReplayed (P.kept desk.keeper) config desk.admin) }
        ensures kept { IfOk result (λ desk. IsKept (P.kept desk.keeper) config desk.admin) }
        ensures lawful { IfOk result (λ desk. start_fault config ≡ None) }
        ensures same { IfOk result (λ desk. P.kept desk.keeper ≡ P.kept keeper) }
        ensures same_err { IfErr result (λ fault. P.kept fault.keeper ≡ P.kept keeper) }
        ensures cause { IfErr result (λ fault. IsCause fault.cause
            (P.kept keeper) config (P.faults keeper) (P.faults fault.keeper)) }
        ensures moments { IfOk result (λ desk. Passes (P.moment keeper)
            (P.moment desk.keeper) (P.left_since keeper) (P.left_since desk.keeper) Nothing) }
        ensures moments_err { IfErr result (λ fault. Passes (P.moment keeper)
            (P.moment fault.keeper) (P.left_since keeper) (P.left_since fault.keeper) Nothing) }
        ensures counted { IfOk result (λ desk. P.faults keeper ≤ P.faults desk.keeper) }
        ensures counted_err { IfErr result (λ fault. P.faults keeper ≤ P.faults fault.keeper) }
    {
        let mut keeper = keeper;
        match replay(alloc, config, &mut keeper) {
            Ok((admin, kept)) => Ok(KeptAdmin {
                admin,
                keeper,
                kept,
            }),
            Err(cause) => Err(ReopenFault { keeper, cause }),
        }
    }

    /// The keeper, with the administration gone.
    pub fn into_keeper(self) -> P
        ensures { result ≡ self.keeper }
    {
        let KeptAdmin {
            admin,
            keeper,
            kept: _,
        } = self;
        drop(admin);
        keeper
    }

    /// The administration.
    pub fn admin(&self) -> &Admin
        ensures { result.now ≡ self.now.admin }
    {
        &self.admin
    }

    /// How many commands are kept.
    pub fn kept(&self) -> u64
        ensures number { result ≡ self.now.kept }
        ensures length { HasLength (P.kept self.now.keeper) result }
        ensures within { result ≤ most_kept }
    {
        self.kept
    }

    fn stop(self, cause: KeeperFault) -> Stopped<P>
        ensures { result ≡ record { keeper = self.keeper; cause = cause } }
    {
        Stopped {
            keeper: self.into_keeper(),
            cause,
        }
    }

    /// Answers an ask of a command that only looks.
    #[tactic(auto, using(crate::proofs::Stepping::looking, crate::proofs::Passing::passing))]
    fn look(self, alloc: Global, ask: Ask) -> Result<(KeptAdmin<P>, KeptReply), Stopped<P>>
        requires { is_keeping ask.command ≡ false }
        ensures answer { IfOk result (λ r. IsAnswer self.admin ask r.0.admin r.1) }
        ensures full { IfOk result (λ r. is_full r.1 ≡ is_past self.kept ask) }
        ensures added { IfOk result (λ r. Adds (P.kept self.keeper)
            (adds self.kept self.admin ask) (ask_text ask) (P.kept r.0.keeper)) }
        ensures fit { IfOk result (λ r. adds self.kept self.admin ask ≡ true
            → IsFit self.admin ask self.kept) }
        ensures stopped { IfErr result
            (λ s. MayTell (P.kept self.keeper) self.admin ask self.kept (P.kept s.keeper)) }
        ensures moments { IfOk result (λ r. Passes (P.moment self.keeper)
            (P.moment r.0.keeper) (P.left_since self.keeper) (P.left_since r.0.keeper)
            (MayLeave (P.kept self.keeper) self.admin ask self.kept)) }
        ensures moments_err { IfErr result
            (λ s. Passes (P.moment self.keeper) (P.moment s.keeper) (P.left_since self.keeper)
            (P.left_since s.keeper) (MayLeave (P.kept self.keeper) self.admin ask self.kept)) }
        ensures counted { IfOk result (λ r. P.faults self.keeper ≤ P.faults r.0.keeper) }
        ensures counted_err { IfErr result (λ s. P.faults self.keeper ≤ P.faults s.keeper) }
        ensures failed { IfErr result (λ s. s.cause ≡ KeeperFault.Failed
            → P.faults self.keeper < P.faults s.keeper) }
    {
        let mut desk = self;
        match answer(alloc, &mut desk.admin, ask) {
            Ok(reply) => Ok((desk, KeptReply::Reply(reply))),
            Err(_) => Err(desk.stop(KeeperFault::NoMemory)),
        }
    }

    /// Answers an ask of a command that is kept where it is accepted. The entry is its record.
    #[tactic(auto, using(crate::proofs::Stepping::keeping))]
    fn keep(
        self,
        alloc: Global,
        ask: Ask,
        entry: &[u8],
    ) -> Result<(KeptAdmin<P>, KeptReply), Stopped<P>>
        requires keeps { is_keeping ask.command ≡ true }
        requires room { self.kept < most_kept }
        requires printed { entry.now ≡ ask_text ask }
        requires again { ask_reading (ask_text ask) ≡ Ok ask }
        ensures answer { IfOk result (λ r. IsAnswer self.admin ask r.0.admin r.1) }
        ensures full { IfOk result (λ r. is_full r.1 ≡ is_past self.kept ask) }
        ensures added { IfOk result (λ r. Adds (P.kept self.keeper)
            (adds self.kept self.admin ask) (ask_text ask) (P.kept r.0.keeper)) }
        ensures fit { IfOk result (λ r. adds self.kept self.admin ask ≡ true
            → IsFit self.admin ask self.kept) }
        ensures stopped { IfErr result
            (λ s. MayTell (P.kept self.keeper) self.admin ask self.kept (P.kept s.keeper)) }
        ensures moments { IfOk result (λ r. Passes (P.moment self.keeper)
            (P.moment r.0.keeper) (P.left_since self.keeper) (P.left_since r.0.keeper)
            (MayLeave (P.kept self.keeper) self.admin ask self.kept)) }
        ensures moments_err { IfErr result
            (λ s. Passes (P.moment self.keeper) (P.moment s.keeper) (P.left_since self.keeper)
            (P.left_since s.keeper) (MayLeave (P.kept self.keeper) self.admin ask self.kept)) }
        ensures counted { IfOk result (λ r. P.faults self.keeper ≤ P.faults r.0.keeper) }
        ensures counted_err { IfErr result (λ s. P.faults self.keeper ≤ P.faults s.keeper) }
        ensures failed { IfErr result (λ s. s.cause ≡ KeeperFault.Failed
            → P.faults self.keeper < P.faults s.keeper) }
    {
        let KeptAdmin {
            admin,
            keeper,
            kept,
        } = self;
        let (mut admin, mut keeper) = (admin, keeper);
        match answer_keeping(alloc, &mut admin, &mut keeper, ask, entry) {
            Ok(answered) => {
                let desk = KeptAdmin {
                    admin,
                    keeper,
                    kept: count_one(kept, answered.is_kept),
                };
                Ok((desk, KeptReply::Reply(answered.reply)))
            }
            Err(cause) => {
                drop(admin);
                Err(Stopped { keeper, cause })
            }
        }
    }

    /// Answers an ask, and says what becomes of the keeper's list.
    #[tactic(auto, using(crate::proofs::Stepping::stepping, crate::proofs::Passing::passing))]
    fn step_list(self, alloc: Global, ask: Ask) -> Result<(KeptAdmin<P>, KeptReply), Stopped<P>>
        requires { IsInKeyOrder ask }
        ensures length { HasLength (P.kept self.keeper) self.kept }
        ensures answer { IfOk result (λ r. IsAnswer self.admin ask r.0.admin r.1) }
        ensures full { IfOk result (λ r. is_full r.1 ≡ is_past self.kept ask) }
        ensures added { IfOk result (λ r. Adds (P.kept self.keeper)
            (adds self.kept self.admin ask) (ask_text ask) (P.kept r.0.keeper)) }
        ensures fit { IfOk result (λ r. adds self.kept self.admin ask ≡ true
            → IsFit self.admin ask self.kept) }
        ensures stopped { IfErr result
            (λ s. MayTell (P.kept self.keeper) self.admin ask self.kept (P.kept s.keeper)) }
        ensures moments { IfOk result (λ r. Passes (P.moment self.keeper)
            (P.moment r.0.keeper) (P.left_since self.keeper) (P.left_since r.0.keeper)
            (MayLeave (P.kept self.keeper) self.admin ask self.kept)) }
        ensures moments_err { IfErr result
            (λ s. Passes (P.moment self.keeper) (P.moment s.keeper) (P.left_since self.keeper)
            (P.left_since s.keeper) (MayLeave (P.kept self.keeper) self.admin ask self.kept)) }
        ensures counted { IfOk result (λ r. P.faults self.keeper ≤ P.faults r.0.keeper) }
        ensures counted_err { IfErr result (λ s. P.faults self.keeper ≤ P.faults s.keeper) }
        ensures failed { IfErr result (λ s. s.cause ≡ KeeperFault.Failed
            → P.faults self.keeper < P.faults s.keeper) }
    {
        if !is_keeping(&ask.command) {
            return self.look(alloc, ask);
        }
        if self.kept >= MOST_KEPT {
            drop(ask);
            return Ok((self, KeptReply::Full));
        }
        match print_ask(alloc, &ask) {
            Ok(entry) => self.keep(alloc, ask, entry.as_str().as_bytes()),
            Err(_) => {
                drop(ask);
                Err(self.stop(KeeperFault::NoMemory))
            }
        }
    }

    /// Answers an ask in key order. The record of an accepted command that changes the state is with the keeper before the reply
    /// is there. The reply, and the administration after it, are those of `Admin::step`, or it is `Full`, and nothing was
    /// changed. A crash at any moment leaves a list that is reopened as the administration before the ask or as the one after
    /// it. Where it stops, the administration is had again by `reopen`.
    pub fn step(self, alloc: Global, ask: Ask) -> Result<(KeptAdmin<P>, KeptReply), Stopped<P>>
        requires { IsInKeyOrder ask }
        ensures answer { IfOk result (λ r. IsAnswer self.admin ask r.0.admin r.1) }
        ensures full { IfOk result (λ r. is_full r.1 ≡ is_past self.kept ask) }
        ensures added { IfOk result (λ r. Adds (P.kept self.keeper)
            (adds self.kept self.admin ask) (ask_text ask) (P.kept r.0.keeper)) }
        ensures kept { (config : Config) → IsKept (P.kept self.keeper) config self.admin
            → IfOk result (λ r. IsKept (P.kept r.0.keeper) config r.0.admin) }
        ensures reopens { (config : Config) → IsKept (P.kept self.keeper) config self.admin
            → IfErr result (λ s. Reopens (P.kept s.keeper) config) }
        ensures stopped { IfErr result
            (λ s. MayTell (P.kept self.keeper) self.admin ask self.kept (P.kept s.keeper)) }
        ensures any_moment { (config : Config) → IsKept (P.kept self.keeper) config self.admin
            → IfOk result (λ r. Passes (P.moment self.keeper) (P.moment r.0.keeper) (P.left_since self.keeper) (P.left_since r.0.keeper) (Survives (P.kept self.keeper) config self.admin ask)) }
        ensures any_moment_err { (config : Config) → IsKept (P.kept self.keeper) config self.admin
            → IfErr result (λ s. Passes (P.moment self.keeper) (P.moment s.keeper) (P.left_since self.keeper) (P.left_since s.keeper) (Survives (P.kept self.keeper) config self.admin ask)) }
        ensures moments { IfOk result (λ r. Passes (P.moment self.keeper)
            (P.moment r.0.keeper) (P.left_since self.keeper) (P.left_since r.0.keeper)
            (MayLeave (P.kept self.keeper) self.admin ask self.kept)) }
        ensures moments_err { IfErr result
            (λ s. Passes (P.moment self.keeper) (P.moment s.keeper) (P.left_since self.keeper)
            (P.left_since s.keeper) (MayLeave (P.kept self.keeper) self.admin ask self.kept)) }
        ensures acknowledged { IfOk result
            (λ r. (entries left : List (List ℕ)) → P.kept r.0.keeper ≡ Some entries
            → P.left_since r.0.keeper (P.moment r.0.keeper) left → left ≡ entries) }
        ensures counted { IfOk result (λ r. P.faults self.keeper ≤ P.faults r.0.keeper) }
        ensures counted_err { IfErr result (λ s. P.faults self.keeper ≤ P.faults s.keeper) }
        ensures failed { IfErr result (λ s. s.cause ≡ KeeperFault.Failed
            → P.faults self.keeper < P.faults s.keeper) }
    {
        self.step_list(alloc, ask)
    }
}
