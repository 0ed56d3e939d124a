// The service over what was kept.
ghost use Rattle.std.specs.Prelude.{◌≡◌, ◌≤◌, ◌<◌, None, IfErr, IfOk, OnOk};
ghost use Rattle.rg_cmd.specs.declared.config.Config.{Config};
ghost use Rattle.rg_admin_laws.specs.Starts.{IsStart};
ghost use Rattle.rg_admin.specs.Starting.{start_fault, started};
ghost use Rattle.rg_keep.specs.Keeping.{IsCause, Reopens};
ghost use Rattle.rg_run_kept.specs.Opening.{Begins};

use crate::watch::Watch;
use rg_admin::{Admin, StartFault};
use rg_ask_wire::read_ask;
use rg_base::{NoMemory, TryCopy};
use rg_cmd::{AdminReply, Ask, Config};
use rg_json::WireFault;
use rg_keep::{KeptAdmin, ReopenCause};
use rg_record_store::{Keeper, KeeperFault};
use rg_recorder::{Coming, Configured, ListRecorder, Unopened};
use rg_serve::Opened;
use rg_threads::Halt;
use std::alloc::{AllocError, Global};
use std::sync::{Arc, Wait};

/// A keeper, what is set where it takes no more changes, and what the service hands to those who watch it.
#[derive(Drop)]
pub struct Keeping<P: Drop> {
    pub keeper: P,
    pub halt: Arc<Halt>,
    pub watch: Arc<Watch>,
}

/// A service that is kept, before it serves links.
pub(crate) type Kept<J, P, Q> = Opened<Q, ListRecorder<J, P, Q>>;

/// Looks through the records, which stay as they are. The keeper comes back.
#[tactic(auto, using(crate::proofs::Served::reopens))]
pub(crate) fn check_records<P: Keeper + Drop>(
    alloc: Global,
    config: &Config,
    keeper: P,
) -> (P, Result<(), ReopenCause>)
    ensures same { P.kept result.0 ≡ P.kept keeper }
    ensures good { OnOk result.1 (Reopens (P.kept keeper) config.now) }
    ensures cause { IfErr result.1
        (λ cause. IsCause cause (P.kept keeper) config.now (P.faults keeper) (P.faults result.0)) }
{
    let Ok(copy) = config.try_copy(alloc) else {
        return (keeper, Err(ReopenCause::NoMemory));
    };
    match KeptAdmin::reopen(alloc, copy, keeper) {
        Ok(desk) => (desk.into_keeper(), Ok(())),
        Err(fault) => (fault.keeper, Err(fault.cause)),
    }
}

/// What the recorder tells those beside it.
#[derive(Drop)]
pub(crate) struct Signals {
    pub halt: Arc<Halt>,
    pub coming: Arc<Coming>,
}

impl Signals {
    fn new(alloc: Global, halt: Arc<Halt>) -> Result<Signals, AllocError> {
        Ok(Signals {
            halt,
            coming: Arc::new(alloc, Coming::new())?,
        })
    }

    fn again(&self) -> Result<Signals, AllocError> {
        Ok(Signals {
            halt: Arc::try_clone(&self.halt)?,
            coming: Arc::try_clone(&self.coming)?,
        })
    }

    /// Why the record at the place isn't taken again, where it isn't refused.
    fn cause(&self, place: u64) -> ReopenCause {
        if self.coming.has_strayed() {
            return ReopenCause::BadRecord(place);
        }
        if self.halt.cause().is_some() {
            return ReopenCause::Failed;
        }
        ReopenCause::NoMemory
    }
}

/// Those of a service that begins.
fn both_signals(alloc: Global, halt: Arc<Halt>) -> Result<(Signals, Signals), NoMemory> {
    let mine = Signals::new(alloc, halt)?;
    let other = mine.again()?;
    Ok((mine, other))
}

/// What stops the changes, once more.
fn halt_of(signals: &Signals) -> Result<Arc<Halt>, NoMemory> {
    let halt = Arc::try_clone(&signals.halt)?;
    Ok(halt)
}

/// The ask of the record at the place.
fn ask_of(alloc: Global, record: &[u8], place: u64) -> Result<Ask, ReopenCause> {
    match read_ask(alloc, record) {
        Ok(ask) => Ok(ask),
        Err(WireFault::Bad { path, kind: _ }) => {
            drop(path);
            Err(ReopenCause::BadRecord(place))
        }
        Err(WireFault::NoMemory) => Err(ReopenCause::NoMemory),
    }
}

/// Asks the records again, one after another, as the recorder hands them out.
fn ask_again<J: Configured, P: Keeper + Drop, Q: Wait + Drop, R: Wait>(
    rt: &R,
    alloc: Global,
    opened: &mut Kept<J, P, Q>,
    signals: &Signals,
) -> Result<(), ReopenCause>
    ensures start { OnOk result (opened.new.start ≡ opened.old.start) }
    ensures workers { OnOk result (opened.new.workers ≡ opened.old.workers) }
{
    let mut place: u64 = 0;
    for _ in rt.forever() {
        let Some(record) = signals.coming.take(rt) else {
            break;
        };
        let ask = ask_of(alloc, record.as_slice(), place)?;
        match opened.ask(rt, alloc, ask) {
            Ok(AdminReply::Refused(_)) => return Err(ReopenCause::BadRecord(place)),
            Ok(reply) => drop(reply),
            Err(NoMemory) => return Err(signals.cause(place)),
        }
        place = place.saturating_add(1);
    }
    Ok(())
}

/// The administration of the configuration.
fn begin(alloc: Global, config: Config) -> Result<Admin, ReopenCause>
    ensures started { IfOk result (λ a. (a ≡ started config)
        × IsStart a × (start_fault config ≡ None)) }
{
    match Admin::start(alloc, config) {
        Ok(admin) => Ok(admin),
        Err(StartFault::Rule(rule)) => Err(ReopenCause::Rule(rule)),
        Err(StartFault::NoMemory) => Err(ReopenCause::NoMemory),
    }
}

/// Why the first record can't be had.
fn cause_of<P: Keeper + Drop>(unopened: Unopened<P>) -> ReopenCause {
    let Unopened { keeper, cause } = unopened;
    drop(keeper);
    match cause {
        KeeperFault::Failed => ReopenCause::Failed,
        KeeperFault::NoMemory => ReopenCause::NoMemory,
    }
}

/// The recorder of the keeper's records, and the administration over it.
fn record<J: Configured, P: Keeper + Drop, Q: Wait + Drop>(
    own: Q,
    alloc: Global,
    config: Config,
    keeper: P,
    signals: Signals,
) -> Result<Admin<ListRecorder<J, P, Q>>, ReopenCause>
    requires { J.config ≡ config }
    ensures { IfOk result (λ a. (a ≡ started config) × IsStart a) }
{
    let admin = begin(alloc, config)?;
    let Signals { halt, coming } = signals;
    match ListRecorder::new(own, alloc, keeper, halt, coming) {
        Ok(recorder) => Ok(admin.recorded_by(recorder)),
        Err(unopened) => Err(cause_of(unopened)),
    }
}

/// The service, of which those who watch it have a pass from now on.
fn watched<J: Configured, P: Keeper + Drop, Q: Wait + Drop, R: Wait>(
    rt: &R,
    opened: Kept<J, P, Q>,
    watch: &Watch,
) -> Kept<J, P, Q>
    ensures { result ≡ opened }
{
    let (opened, pass) = opened.watch();
    watch.begin(rt, pass);
    opened
}

/// The service of the configuration over the records, which are asked again, and what it tells of its recorder. Its recorder and its
/// refresher wait by a handle each.
pub(crate) fn open_kept<J: Configured, P: Keeper + Drop, Q: Wait + Drop, R: Wait>(
    rt: &R,
    handles: (Q, Q),
    alloc: Global,
    config: Config,
    keeping: Keeping<P>,
    workers: u32,
) -> Result<(Kept<J, P, Q>, Signals), ReopenCause>
    requires config { J.config ≡ config }
    requires workers { (1 ≤ workers) × (workers ≤ 64) }
    ensures { IfOk result (λ t. Begins config workers t.0) }
{
    let (recording, refreshing) = handles;
    let Keeping {
        keeper,
        halt,
        watch,
    } = keeping;
    let (mine, other) = both_signals(alloc, halt)?;
    let seen = halt_of(&mine)?;
    let admin = record::<J, P, Q>(recording, alloc, config, keeper, other)?;
    let mut opened = Opened::over(refreshing, alloc, admin, workers)?.halted_by(seen);
    ask_again::<J, P, Q, R>(rt, alloc, &mut opened, &mine)?;
    let (opened, _) = opened.refresh(rt, alloc)?;
    let opened = watched::<J, P, Q, R>(rt, opened, &watch);
    Ok((opened, mine))
}
