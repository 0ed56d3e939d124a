// The administration that a keeper's list makes.
ghost use Rattle.std.specs.Prelude.{◌≡◌, ◌≤◌, ◌<◌, not, true, None, IfOk, IfErr, OnErr};
ghost use Rattle.rg_admin_laws.specs.Laws.{is_refused};
ghost use Rattle.rg_admin_laws.specs.Starts.{IsStart};
ghost use Rattle.rg_admin.specs.Starting.{start_fault, started};
ghost use Rattle.rg_record_store.specs.Keeping.{Nothing, Passes};
ghost use Rattle.rg_keep.specs.Keeping.{Counts, IsCause, IsKept, IsReplayed};
ghost use Rattle.rg_keep.specs.Replay.{after_entry, is_bad, is_kept, most_kept, stepped};
ghost use Rattle.rg_keep.specs.Replaying.{IsNoStart, IsReplaying, IsStopped, IsStoppedIn, Takes};

use rg_admin::{Admin, StartFault};
use rg_ask_wire::{is_keeping, read_ask};
use rg_base::NoMemory;
use rg_cmd::{AdminReply, Ask, Config, Rule};
use rg_json::WireFault;
use rg_record_store::{Keeper, KeeperFault};
use std::alloc::Global;

/// The most commands that are kept.
pub(crate) const MOST_KEPT: u64 = 1_000_000;

/// Why an administration isn't reopened.
#[derive(Clone, Copy, Debug, PartialEq, Eq)]
pub enum ReopenCause {
    /// The first rule that the configuration breaks.
    Rule(Rule),
    /// The least place, counted from 0, whose record doesn't read, is of a command that isn't kept, or is refused, or which is
    /// past those that may be kept.
    BadRecord(u64),
    /// The keeper failed.
    Failed,
    NoMemory,
}

impl From<NoMemory> for ReopenCause {
    ghost use Rattle.rg_keep.specs.declared.reopen.ReopenCause.TheVariants.{NoMemory};

    ghost from_gives = { λ refused cause. cause ≡ NoMemory };

    fn from(_refused: NoMemory) -> ReopenCause {
        ReopenCause::NoMemory
    }
}

/// The keeper comes back.
#[derive(Drop)]
pub struct ReopenFault<P: Drop> {
    pub keeper: P,
    pub cause: ReopenCause,
}

/// Whether the reply refuses the ask.
pub(crate) fn is_refused(reply: &AdminReply) -> bool
    ensures { result ≡ is_refused reply.now }
{
    matches!(reply, AdminReply::Refused(_))
}

/// Whether the reply accepts the ask. It is let go.
fn accepts(reply: AdminReply) -> bool
    ensures { result ≡ not (is_refused reply) }
{
    !is_refused(&reply)
}

/// Answers the ask.
#[tactic(auto, unfolding(crate::specs::Replay::stepped))]
pub(crate) fn answer(alloc: Global, admin: &mut Admin, ask: Ask) -> Result<AdminReply, NoMemory>
    ensures ok { IfOk result (λ r. (admin.new, r) ≡ stepped admin.old ask) }
    ensures err { OnErr result (admin.new ≡ admin.old) }
{
    admin.step(alloc, ask)
}

/// Answers the ask of an entry, and says whether it is a good one.
#[tactic(auto, using(crate::proofs::Adding::replies))]
fn take_ask(alloc: Global, admin: &mut Admin, ask: Ask) -> Result<bool, NoMemory>
    ensures good { IfOk result (λ good. good ≡ is_kept admin.old ask) }
    ensures after { IfOk result (λ good. good ≡ true → admin.new ≡ (stepped admin.old ask).0) }
{
    if !is_keeping(&ask.command) {
        drop(ask);
        return Ok(false);
    }
    let reply = answer(alloc, admin, ask)?;
    Ok(accepts(reply))
}

/// Takes an entry, and says whether it is a good one.
#[tactic(auto, using(crate::proofs::Adding::entries))]
fn take_entry(alloc: Global, admin: &mut Admin, entry: &[u8]) -> Result<bool, NoMemory>
    ensures good { IfOk result (λ good. good ≡ not (is_bad admin.old entry.now)) }
    ensures after { IfOk result (λ good. good ≡ true
        → admin.new ≡ after_entry admin.old entry.now) }
{
    match read_ask(alloc, entry) {
        Ok(ask) => take_ask(alloc, admin, ask),
        Err(WireFault::Bad { path, kind: _ }) => {
            drop(path);
            Ok(false)
        }
        Err(WireFault::NoMemory) => Err(NoMemory),
    }
}

/// Takes the entry at the place, and says whether there was one.
#[tactic(auto, using(crate::proofs::Adding::takes, crate::proofs::Passing::passing))]
fn take_at<P: Keeper>(
    alloc: Global,
    admin: &mut Admin,
    keeper: &mut P,
    place: u64,
) -> Result<bool, ReopenCause>
    requires { place ≤ most_kept }
    ensures took { IfOk result (λ more. Takes (P.kept keeper.old) place admin.old more admin.new) }
    ensures within { IfOk result (λ more. more ≡ true → place < most_kept) }
    ensures stopped { IfErr result (λ cause. IsStopped
        (P.kept keeper.old) place admin.old (P.faults keeper.old) (P.faults keeper.new) cause) }
    ensures same { P.kept keeper.new ≡ P.kept keeper.old }
    ensures moments { Passes (P.moment keeper.old)
        (P.moment keeper.new) (P.left_since keeper.old) (P.left_since keeper.new) Nothing }
    ensures counted { P.faults keeper.old ≤ P.faults keeper.new }
{
    match keeper.fetch(alloc, place) {
        Err(KeeperFault::Failed) => Err(ReopenCause::Failed),
        Err(KeeperFault::NoMemory) => Err(ReopenCause::NoMemory),
        Ok(None) => Ok(false),
        Ok(Some(entry)) => {
            if place == MOST_KEPT {
                return Err(ReopenCause::BadRecord(place));
            }
            if take_entry(alloc, admin, entry.as_slice())? {
                Ok(true)
            } else {
                Err(ReopenCause::BadRecord(place))
            }
        }
    }
}

/// Takes the entries in order, and says how many there are.
#[tactic(auto, using(crate::proofs::Lists::parts))]
fn take_all<P: Keeper>(alloc: Global, admin: &mut Admin, keeper: &mut P) -> Result<u64, ReopenCause>
    ensures all { IfOk result (λ n. IsReplaying (P.kept keeper.old) admin.old n admin.new) }
    ensures within { IfOk result (λ n. n ≤ most_kept) }
    ensures stopped { IfErr result (λ cause. IsStoppedIn
        (P.kept keeper.old) admin.old (P.faults keeper.old) (P.faults keeper.new) cause) }
    ensures same { P.kept keeper.new ≡ P.kept keeper.old }
    ensures moments { Passes (P.moment keeper.old)
        (P.moment keeper.new) (P.left_since keeper.old) (P.left_since keeper.new) Nothing }
    ensures counted { P.faults keeper.old ≤ P.faults keeper.new }
{
    let mut place = 0;
    'entries: loop {
        let more = take_at(alloc, admin, keeper, place)?;
        if !more {
            return Ok(place);
        }
        place += 1;
    }
}

/// Starts from the configuration.
#[tactic(auto, using(crate::proofs::Kept::starts))]
fn start(alloc: Global, config: Config) -> Result<Admin, ReopenCause>
    ensures ok { IfOk result (λ admin. (start_fault config ≡ None)
        × (admin ≡ started config) × IsStart (started config)) }
    ensures err { IfErr result (λ cause. IsNoStart config cause) }
{
    match Admin::start(alloc, config) {
        Ok(admin) => Ok(admin),
        Err(StartFault::Rule(rule)) => Err(ReopenCause::Rule(rule)),
        Err(StartFault::NoMemory) => Err(ReopenCause::NoMemory),
    }
}

/// The administration that the entries make, and how many they are.
#[tactic(auto, using(crate::proofs::Kept::replays, crate::proofs::Passing::passing))]
pub(crate) fn replay<P: Keeper>(
    alloc: Global,
    config: Config,
    keeper: &mut P,
) -> Result<(Admin, u64), ReopenCause>
    ensures kept { IfOk result (λ r. IsKept (P.kept keeper.new) config r.0) }
    ensures replayed { IfOk result (λ r. IsReplayed (P.kept keeper.new) config r.0) }
    ensures counts { IfOk result (λ r. Counts (P.kept keeper.new) r.1) }
    ensures lawful { IfOk result (λ r. start_fault config ≡ None) }
    ensures cause { IfErr result (λ cause.
        IsCause cause (P.kept keeper.old) config (P.faults keeper.old) (P.faults keeper.new)) }
    ensures same { P.kept keeper.new ≡ P.kept keeper.old }
    ensures moments { Passes (P.moment keeper.old)
        (P.moment keeper.new) (P.left_since keeper.old) (P.left_since keeper.new) Nothing }
    ensures counted { P.faults keeper.old ≤ P.faults keeper.new }
{
    let mut admin = start(alloc, config)?;
    let kept = take_all(alloc, &mut admin, keeper)?;
    Ok((admin, kept))
}
