// Administrations that tell a recorder of each change, without threads.
ghost use Rattle.std.specs.Prelude.{◌≡◌, None, IfOk};
ghost use Rattle.rg_admin_laws.specs.Starts.{IsStart};
ghost use Rattle.rg_admin.specs.Starting.{start_fault, started};

use rg_admin::{Admin, Recorder, StartFault};
use rg_ask_wire::read_ask;
use rg_base::{NoMemory, Seq};
use rg_cmd::{AdminReply, Config, State};
use rg_record_store::Keeper;
use rg_recorder::{Coming, Configured, ListRecorder, Unopened, recorder_of};
use rg_threads::Halt;
use std::alloc::{AllocError, Global};
use std::marker::Brand;
use std::sync::{Arc, Wait};

/// What an ask is answered.
#[derive(Clone, Copy, Debug, PartialEq, Eq)]
enum Answer {
    Accepted,
    Refused,
    Failed,
    /// The text is no ask.
    Unread,
}

impl Answer {
    fn word(self) -> &'static str {
        match self {
            Answer::Accepted => "accepted",
            Answer::Refused => "refused",
            Answer::Failed => "failed",
            Answer::Unread => "unread",
        }
    }

    /// Of the ask of this text.
    fn of<P: Recorder>(alloc: Global, admin: &mut Admin<P>, text: &[u8]) -> Answer {
        let Ok(ask) = read_ask(alloc, text) else {
            return Answer::Unread;
        };
        match admin.step(alloc, ask) {
            Ok(AdminReply::Refused(_)) => Answer::Refused,
            Ok(reply) => {
                drop(reply);
                Answer::Accepted
            }
            Err(NoMemory) => Answer::Failed,
        }
    }
}

/// Asks the records of the list again, as the recorder hands them out: how many are accepted, up to the first that isn't.
fn follow<P: Recorder, R: Wait>(
    rt: &R,
    alloc: Global,
    admin: &mut Admin<P>,
    coming: &Coming,
) -> u64 {
    let mut count: u64 = 0;
    for _ in rt.forever() {
        let Some(record) = coming.take(rt) else {
            break;
        };
        if Answer::of(alloc, admin, record.as_slice()) != Answer::Accepted {
            break;
        }
        count = count.saturating_add(1);
    }
    count
}

/// Asks in turn, and tells what each is answered.
fn ask_all<P: Recorder>(
    told: &mut String,
    alloc: Global,
    admin: &mut Admin<P>,
    asks: &[Seq<u8>],
) -> Result<(), AllocError> {
    for ask in asks {
        told.push_str(Answer::of(alloc, admin, ask.as_slice()).word())?;
        told.push_str(", ")?;
    }
    Ok(())
}

fn tell_state(told: &mut String, state: &State) -> Result<(), AllocError> {
    let services = state.services.len();
    let policies = state.policies.len();
    let roles = state.roles.len();
    let tag_rows = state.tag_rows.len();
    let next_id = state.next_id;
    write!(
        told,
        "{services} services, {policies} policies, {roles} roles, {tag_rows} tag rows, next id {next_id}"
    )
}

/// Tells how many records it has passed by or kept, and whether it takes more. Its keeper comes back.
fn close<J: Configured, K: Keeper + Drop, Q: Wait + Drop>(
    told: &mut String,
    recorder: ListRecorder<J, K, Q>,
) -> Result<K, AllocError> {
    let kept = recorder.kept();
    let word = if recorder.has_stopped() {
        "stopped"
    } else {
        "going on"
    };
    write!(told, ", {kept} kept, {word}")?;
    Ok(recorder.into_keeper())
}

/// Follows the list, asks what comes next, and tells where all stands then.
fn work<J: Configured, K: Keeper + Drop, Q: Wait + Drop, R: Wait>(
    told: &mut String,
    rt: &R,
    alloc: Global,
    admin: Admin<ListRecorder<J, K, Q>>,
    coming: &Coming,
    asks: &[Seq<u8>],
) -> Result<K, NoMemory> {
    let mut admin = admin;
    let followed = follow(rt, alloc, &mut admin, coming);
    write!(told, "{followed} followed, ")?;
    ask_all(told, alloc, &mut admin, asks)?;
    tell_state(told, admin.state())?;
    let keeper = close(told, recorder_of(admin))?;
    Ok(keeper)
}

/// The administration of the configuration.
fn begin(alloc: Global, config: Config) -> Result<Admin, StartFault>
    ensures started { IfOk result (λ a. (a ≡ started config)
        × IsStart a × (start_fault config ≡ None)) }
{
    match Admin::start(alloc, config) {
        Ok(admin) => Ok(admin),
        Err(fault) => Err(fault),
    }
}

/// A recorder that is opened.
type Opened<J, K, Q> = Result<Admin<ListRecorder<J, K, Q>>, Unopened<K>>;

/// The administration of the configuration, which tells a recorder over the keeper's records, or else the keeper.
fn start_recorded<J: Configured, K: Keeper + Drop, Q: Wait + Drop>(
    own: Q,
    alloc: Global,
    config: Config,
    keeper: K,
    halt: Arc<Halt>,
    coming: Arc<Coming>,
) -> Result<Opened<J, K, Q>, StartFault>
    requires { J.config ≡ config }
{
    let admin = begin(alloc, config)?;
    match ListRecorder::new(own, alloc, keeper, halt, coming) {
        Ok(recorder) => Ok(Ok(admin.recorded_by(recorder))),
        Err(unopened) => Ok(Err(unopened)),
    }
}

/// What a recorder tells those beside it, and the slot of its records once more.
fn signals(alloc: Global) -> Result<(Arc<Halt>, Arc<Coming>, Arc<Coming>), NoMemory> {
    let halt = Arc::new(alloc, Halt::new())?;
    let coming = Arc::new(alloc, Coming::new())?;
    let again = Arc::try_clone(&coming)?;
    Ok((halt, coming, again))
}

fn tell_unopened<K: Drop>(told: &mut String, unopened: Unopened<K>) -> Result<K, NoMemory> {
    told.push_str("not opened")?;
    Ok(unopened.keeper)
}

/// As `recorded`, under a name for the configuration.
fn recorded_as<J: Configured, K: Keeper + Drop, R: Wait>(
    told: &mut String,
    rt: &R,
    alloc: Global,
    config: Config,
    keeper: K,
    asks: &[Seq<u8>],
) -> Result<K, StartFault>
    requires { J.config ≡ config }
{
    let (halt, coming, slot) = signals(alloc)?;
    match start_recorded::<J, K, &R>(rt, alloc, config, keeper, halt, coming)? {
        Ok(admin) => Ok(work(told, rt, alloc, admin, &slot, asks)?),
        Err(unopened) => Ok(tell_unopened(told, unopened)?),
    }
}

/// Opens a recorder over the keeper's records under the configuration, follows them, asks what comes next, and tells what each ask
/// is answered and where all stands then. The keeper comes back.
pub(crate) fn recorded<K: Keeper + Drop, R: Wait>(
    told: &mut String,
    rt: &R,
    alloc: Global,
    config: Config,
    keeper: K,
    asks: &[Seq<u8>],
) -> Result<K, StartFault> {
    recorded_as::<Brand, K, R>(told, rt, alloc, config, keeper, asks)
}
