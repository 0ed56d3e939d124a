// A service that keeps, from its configuration to its end.
ghost use Rattle.std.specs.Prelude.{◌≡◌, ◌≢◌, ◌⊎◌, ◌≤◌, ◌^◌, ◌<◌, ◌++◌, Some, None, is_none, true, length, option_map, string_bytes, IfOk, IfErr, IsSome, OnOk, ℕ};
ghost use Rattle.rg_admin.specs.Starting.{start_fault};
ghost use Rattle.rg_recorder.specs.Recorded.{IsKeptOr};
ghost use Rattle.rg_serve.specs.Served.{Counts};
ghost use Rattle.rg_run_kept.specs.Kept.{HasServed, IsHindrance, IsKeptIn, IsServed, IsTold, totals_line};

use crate::configuration::Configuration;
use crate::opening::{Keeping, Signals, check_records, open_kept};
use rg_base::{NoMemory, Text};
use rg_cmd::Config;
use rg_hook::RequestHooks;
use rg_keep::ReopenCause;
use rg_metrics::Epoch;
use rg_ports::{Clock, Gate, Listener, Sink, Source};
use rg_record_store::{Keeper, KeeperFault};
use rg_recorder::{Configured, ListRecorder, recorder_of};
use rg_run_script::{Status, follow, name_bad_line, read_script, write_all};
use rg_serve::{Outside, ServeFault, Served, serve};
use rg_session::Totals;
use rg_threads::HaltCause;
use std::alloc::Global;
use std::marker::Brand;
use std::sync::Wait;
use std::thread::Threads;

/// How a service ended that keeps. The keeper is there again, but for one that was given up on the way.
#[derive(Drop)]
pub struct Ended<P: Drop> {
    pub keeper: Option<P>,
    pub status: Status,
}

/// What a service did, and how many commands are kept.
#[derive(Clone, Copy)]
struct Numbers {
    links: u64,
    entries: u64,
    publications: u64,
    decisions: u64,
    kept: u64,
}

/// It isn't served.
fn give_back<P: Drop>(keeper: P, status: Status) -> Ended<P>
    ensures { (result.status ≡ status) × (result.keeper ≡ Some keeper) }
{
    Ended {
        keeper: Some(keeper),
        status,
    }
}

/// It was given up.
fn give_up<P: Drop>(status: Status) -> Ended<P>
    ensures { (result.status ≡ status) × (result.keeper ≡ None) }
{
    Ended {
        keeper: None,
        status,
    }
}

/// Writes a line that names what is bad. The status is that, unless it can't be written.
fn name<K: Sink>(sink: &mut K, text: &str, status: Status) -> Status
    ensures status { (result ≡ status) ⊎ (result ≡ Status.WriteFault) }
    ensures unwritten { result ≡ Status.WriteFault → status ≢ Status.WriteFault
        → K.faults sink.old < K.faults sink.new }
{
    match write_all(sink, text.as_bytes()) {
        Ok(()) => status,
        Err(_) => Status::WriteFault,
    }
}

/// Names the record at the place.
fn name_record<K: Sink>(alloc: Global, sink: &mut K, place: u64) -> Status
    ensures statuses { (result ≡ Status.BadRecord)
        ⊎ ((result ≡ Status.WriteFault) ⊎ (result ≡ Status.NoMemory)) }
    ensures unwritten { result ≡ Status.WriteFault → K.faults sink.old < K.faults sink.new }
{
    let mut text = String::new(alloc);
    match writeln!(&mut text, "bad record {place}") {
        Ok(()) => match name(sink, text.as_str(), Status::BadRecord) {
            Status::BadRecord => Status::BadRecord,
            _ => Status::WriteFault,
        },
        Err(_) => Status::NoMemory,
    }
}

/// What a service ends with whose records aren't taken again.
fn status_of<K: Sink>(alloc: Global, sink: &mut K, cause: ReopenCause) -> Status
    ensures statuses { IsHindrance result }
    ensures unwritten { result ≡ Status.WriteFault → K.faults sink.old < K.faults sink.new }
{
    match cause {
        ReopenCause::BadRecord(place) => name_record(alloc, sink, place),
        ReopenCause::Failed => Status::KeepFault,
        ReopenCause::Rule(_) => Status::NoMemory,
        ReopenCause::NoMemory => Status::NoMemory,
    }
}

/// The configuration that the script of these bytes tells, and the epoch under it before any record; or else what the run ends with.
fn configuration<K: Sink, C: Clock>(
    alloc: Global,
    bytes: &[u8],
    sink: &mut K,
    clock: &mut C,
) -> Result<(Config, Epoch), Status>
    requires { length bytes.now < 2 ^ 32 }
    ensures told { IfOk result (λ t. IsTold bytes.now (C.given clock.old) (C.given clock.new) t.0
        × (start_fault t.0 ≡ None)) }
    ensures stopped { IfErr result (λ status. (status ≡ Status.BadLine)
        ⊎ ((status ≡ Status.WriteFault) ⊎ (status ≡ Status.NoMemory))) }
    ensures unwritten { IfErr result
        (λ status. status ≡ Status.WriteFault → K.faults sink.old < K.faults sink.new) }
    ensures silent { OnOk result (sink.new ≡ sink.old) }
{
    let mut told = Configuration::new();
    let Ok(worked) = follow(alloc, &mut told, bytes, clock) else {
        return Err(Status::NoMemory);
    };
    let Configuration {
        config,
        epoch,
        lines,
    } = told;
    let worked = match (worked.status, config) {
        (Status::Done, Some(config)) => return Ok((config, epoch)),
        (Status::Done, None) => match name_bad_line(worked.text, lines.saturating_add(1)) {
            Ok(worked) => worked,
            Err(_) => return Err(Status::NoMemory),
        },
        (_, _) => worked,
    };
    Err(name(sink, worked.text.as_str(), Status::BadLine))
}

/// The epoch with the first of the keeper's records, where it has one. The records stay as they are.
fn epoch_over<P: Keeper>(alloc: Global, keeper: &mut P, epoch: Epoch) -> Result<Epoch, Status>
    ensures same { P.kept keeper.new ≡ P.kept keeper.old }
    ensures fault { IfErr result (λ status. (status ≡ Status.KeepFault)
        ⊎ (status ≡ Status.NoMemory)) }
{
    match keeper.fetch(alloc, 0) {
        Ok(Some(first)) => Ok(epoch.with_record(first.as_slice())),
        Ok(None) => Ok(epoch),
        Err(KeeperFault::Failed) => Err(Status::KeepFault),
        Err(KeeperFault::NoMemory) => Err(Status::NoMemory),
    }
}

/// The last line of a service that has served its links.
#[tactic(auto, unfolding(crate::specs::Kept::totals_line))]
fn add_totals(text: &mut String, totals: &Numbers) -> Result<(), NoMemory>
    ensures { OnOk result (string_bytes text.new
        ≡ string_bytes text.old ++ totals_line totals.now) }
{
    let Numbers {
        links,
        entries,
        publications,
        decisions,
        kept,
    } = *totals;
    match writeln!(
        text,
        "links={links} entries={entries} publications={publications} decisions={decisions} kept={kept}"
    ) {
        Ok(()) => Ok(()),
        Err(_) => Err(NoMemory),
    }
}

/// The recorder of a service that has served its links, and the last line.
fn close<J: Configured, P: Keeper + Drop, R: Wait + Drop>(
    alloc: Global,
    served: Served<ListRecorder<J, P, R>>,
) -> Result<(ListRecorder<J, P, R>, String), NoMemory>
    ensures { IfOk result (λ t. is_none t.0.next ≡ true
        → IsKeptOr t.0.stopped (P.kept t.0.keeper) J.config served.totals.admin) }
{
    let Served { links, totals } = served;
    let Totals {
        admin,
        past,
        published: _,
        publications,
        decisions,
        ahead: _,
    } = totals;
    let recorder = recorder_of(admin);
    let mut text = String::new(alloc);
    let totals = Numbers {
        links,
        entries: past.entries(),
        publications,
        decisions,
        kept: recorder.kept(),
    };
    add_totals(&mut text, &totals)?;
    Ok((recorder, text))
}

/// What a service ends with whose links could not all be served.
fn broken(signals: &Signals, fault: ServeFault) -> Status
    ensures statuses { (result ≡ Status.NetFault)
        ⊎ ((result ≡ Status.KeepFault) ⊎ (result ≡ Status.NoMemory)) }
    ensures unserved { (before after : ℕ) → result ≡ Status.NetFault
        → Counts fault before after → before < after }
{
    match fault {
        ServeFault::Failed => Status::NetFault,
        ServeFault::NoMemory => match signals.halt.cause() {
            Some(HaltCause::Failed) => Status::KeepFault,
            _ => Status::NoMemory,
        },
    }
}

/// Ends a service that has served its links, and writes its last line. The keeper is given up where its records weren't all asked
/// again.
fn end<J: Configured, P: Keeper + Drop, R: Wait + Drop, K: Sink>(
    alloc: Global,
    served: Served<ListRecorder<J, P, R>>,
    sink: &mut K,
) -> Ended<P>
    ensures done { result.status ≡ Status.Done
        → IsKeptIn (option_map P.kept result.keeper) J.config served.totals.admin }
    ensures given_up { IsSome result.keeper
        → (result.status ≡ Status.Done) ⊎ (result.status ≡ Status.WriteFault) }
    ensures statuses { (result.status ≡ Status.Done)
        ⊎ ((result.status ≡ Status.WriteFault) ⊎ (result.status ≡ Status.NoMemory)) }
    ensures unwritten { result.status ≡ Status.WriteFault
        → K.faults sink.old < K.faults sink.new }
{
    let Ok((recorder, text)) = close(alloc, served) else {
        return give_up(Status::NoMemory);
    };
    if !recorder.is_level() {
        drop(recorder);
        return give_up(Status::NoMemory);
    }
    let status = name(sink, text.as_str(), Status::Done);
    give_back(recorder.into_keeper(), status)
}

/// The service of this configuration over the records, under a name for the configuration that no type of a parameter has.
fn serve_named<
    J: Configured + Send,
    P: Keeper + Drop + Send,
    K: Sink,
    C: Clock,
    N: Listener,
    G: Gate,
    H: RequestHooks + Send,
    R: Threads + Wait + Sync,
>(
    rt: &R,
    alloc: Global,
    config: Config,
    keeping: Keeping<P>,
    hooks: Vec<H>,
    sink: &mut K,
    net: &mut N,
    address: &Text,
    clock: &mut C,
    gate: &G,
) -> Ended<P>
    requires config { J.config ≡ config }
    requires workers { (1 ≤ length hooks.items) × (length hooks.items ≤ 64) }
    ensures done { result.status ≡ Status.Done → IsServed config (option_map P.kept result.keeper) }
    ensures given_up { IsSome result.keeper
        → (result.status ≡ Status.Done) ⊎ (result.status ≡ Status.WriteFault) }
    ensures statuses { (result.status ≡ Status.Done)
        ⊎ ((result.status ≡ Status.NetFault) ⊎ IsHindrance result.status) }
    ensures unwritten { result.status ≡ Status.WriteFault
        → K.faults sink.old < K.faults sink.new }
    ensures unserved { result.status ≡ Status.NetFault → N.faults net.old < N.faults net.new }
{
    let workers = hooks.len() as u32;
    let (opened, signals) = match open_kept::<J, P, &R, R>(
        rt,
        (rt, rt),
        alloc,
        config,
        keeping,
        workers,
    ) {
        Ok(opened) => opened,
        Err(cause) => return give_up(status_of(alloc, sink, cause)),
    };
    let outside = Outside {
        address,
        gate,
        most: u64::MAX,
    };
    match serve(rt, alloc, opened, hooks, net, clock, outside) {
        Ok(served) => end(alloc, served, sink),
        Err(fault) => give_up(broken(&signals, fault)),
    }
}

/// Reads the configuration from the source, looks through the keeper's records, asks them again, and then serves links until the
/// listener has ended, each accepted change in the keeper before it is answered. There are as many workers as hooks, 1 to 64.
pub fn serve_kept<
    P: Keeper + Drop + Send,
    S: Source,
    K: Sink,
    C: Clock,
    N: Listener,
    G: Gate,
    H: RequestHooks + Send,
    R: Threads + Wait + Sync,
>(
    rt: &R,
    alloc: Global,
    keeping: Keeping<P>,
    hooks: Vec<H>,
    source: &mut S,
    sink: &mut K,
    net: &mut N,
    address: &Text,
    clock: &mut C,
    gate: &G,
) -> Ended<P>
    requires { (1 ≤ length hooks.items) × (length hooks.items ≤ 64) }
    // With Done the keeper's list is opened again, under the configuration that the source told, as the administration after the whole
    // history; or, after a fault of the keeper, as that with one accepted command more, which nobody was told of.
    ensures done { result.status ≡ Status.Done
        → HasServed (S.left source.old) (C.given clock.old) (option_map P.kept result.keeper) }
    ensures usage { result.status ≢ Status.Usage }
    // A bad line, and a bad record that was found before any was asked again, leave the list as it was.
    ensures unchanged { (result.status ≡ Status.BadLine)
        ⊎ ((result.status ≡ Status.ReadFault) ⊎ (result.status ≡ Status.TooLong)) →
        option_map P.kept result.keeper ≡ Some (P.kept keeping.keeper) }
    ensures found { result.status ≡ Status.BadRecord
        → IsSome result.keeper → option_map P.kept result.keeper ≡ Some (P.kept keeping.keeper) }
    // A fault of the source, the sink or the listener is named only where its count rose.
    ensures unread { result.status ≡ Status.ReadFault → S.faults source.old < S.faults source.new }
    ensures unwritten { result.status ≡ Status.WriteFault
        → K.faults sink.old < K.faults sink.new }
    ensures unserved { result.status ≡ Status.NetFault → N.faults net.old < N.faults net.new }
{
    let Keeping {
        mut keeper,
        halt,
        watch,
    } = keeping;
    let bytes = match read_script(alloc, source, sink) {
        Ok(bytes) => bytes,
        Err(status) => return give_back(keeper, status),
    };
    let (config, epoch) = match configuration(alloc, bytes.as_slice(), sink, clock) {
        Ok(told) => told,
        Err(status) => return give_back(keeper, status),
    };
    drop(bytes);
    match epoch_over(alloc, &mut keeper, epoch) {
        Ok(epoch) => watch.know(rt, epoch),
        Err(status) => return give_back(keeper, status),
    }
    let (keeper, checked) = check_records(alloc, &config, keeper);
    match checked {
        Ok(()) => serve_named::<Brand, P, K, C, N, G, H, R>(
            rt,
            alloc,
            config,
            Keeping {
                keeper,
                halt,
                watch,
            },
            hooks,
            sink,
            net,
            address,
            clock,
            gate,
        ),
        Err(cause) => give_back(keeper, status_of(alloc, sink, cause)),
    }
}
