// The command `serve`.
ghost use Rattle.std.specs.Prelude.{◌≡◌, ◌⊎◌, ◌≤◌, ◌++◌, ℕ, length, IfOk, IfErr, OnOk, MatchResult, string_bytes};
ghost use Rattle.rg_run_script.specs.Ports.{ports};
ghost use Rattle.rg_run_script.specs.Runs.{IsRun};
ghost use Rattle.rg_run_serve.specs.Serves.{ServesLinks};
ghost use Rattle.rg_run_serve.specs.Links.{IsStopped, TellsTotals};
ghost use Rattle.rg_run_serve.specs.Serve.{door, totals_line};

use crate::preparing::{Prepared, prepare};
use rg_base::{NoMemory, Text};
use rg_hook::RequestHooks;
use rg_ports::{Clock, Gate, Listener, Sink, Source};
use rg_run_script::{Status, read_script, write_all};
use rg_serve::{Opened, Outside, ServeFault, Served, serve};
use std::alloc::Global;
use std::sync::Wait;
use std::thread::Threads;

/// What a service is asked, and what it runs by.
#[derive(Drop)]
pub struct Service<'r, 'a, 'g, R, G> {
    /// What starts its threads, by which they wait.
    pub rt: &'r R,
    /// Where the listener listens.
    pub address: &'a Text,
    /// How many links are served at most.
    pub links: u32,
    /// To which the workers come before and after each decision.
    pub gate: &'g G,
}

/// The last line.
#[tactic(auto, unfolding(crate::specs::Serve::totals_line))]
fn add_totals(
    text: &mut String,
    links: u64,
    entries: u64,
    publications: u64,
    decisions: u64,
) -> Result<(), NoMemory>
    ensures { OnOk result (string_bytes text.new
        ≡ string_bytes text.old ++ totals_line (record {
          links = links;
          entries = entries;
          publications = publications;
          decisions = decisions;
        })) }
{
    match writeln!(
        text,
        "links={links} entries={entries} publications={publications} decisions={decisions}"
    ) {
        Ok(()) => Ok(()),
        Err(_) => Err(NoMemory),
    }
}

/// The last line of a service that has served its links.
fn totals_of(alloc: Global, served: Served) -> Result<String, NoMemory>
    ensures { IfOk result (λ text. string_bytes text ≡ totals_line
        (record {
          links = served.links;
          entries = length served.totals.past.history;
          publications = served.totals.publications;
          decisions = served.totals.decisions;
        })) }
{
    let entries = served.totals.past.entries();
    let mut text = String::new(alloc);
    add_totals(
        &mut text,
        served.links,
        entries,
        served.totals.publications,
        served.totals.decisions,
    )?;
    Ok(text)
}

/// Takes links, serves them all, and gives the last line, or the status that the run ends with.
fn take_links<
    N: Listener,
    C: Clock,
    G: Gate,
    H: RequestHooks + Send,
    Q: Wait + Drop + Send,
    R: Threads + Wait + Sync,
>(
    alloc: Global,
    service: &Service<R, G>,
    opened: Opened<Q>,
    hooks: Vec<H>,
    net: &mut N,
    clock: &mut C,
) -> Result<String, Status>
    requires { length hooks.items ≡ opened.workers }
    ensures served { IfOk result (λ text. TellsTotals service.now.links opened
        (door (N.given net.old) (N.ended net.old) (N.faults net.old))
        (door (N.given net.new) (N.ended net.new) (N.faults net.new)) (string_bytes text)) }
    ensures stopped { IfErr result (IsStopped (N.faults net.old) (N.faults net.new)) }
{
    let outside = Outside {
        address: service.address,
        gate: service.gate,
        most: service.links as u64,
    };
    match serve(service.rt, alloc, opened, hooks, net, clock, outside) {
        Ok(served) => match totals_of(alloc, served) {
            Ok(text) => Ok(text),
            Err(_) => Err(Status::NoMemory),
        },
        Err(ServeFault::Failed) => Err(Status::NetFault),
        Err(ServeFault::NoMemory) => Err(Status::NoMemory),
    }
}

/// Reads a script to its end, works it, prints the replies, and then serves links and prints the totals.
pub fn serve_script<
    S: Source,
    K: Sink,
    C: Clock,
    N: Listener,
    G: Gate,
    H: RequestHooks + Send,
    R: Threads + Wait + Sync,
>(
    alloc: Global,
    service: &Service<R, G>,
    source: &mut S,
    sink: &mut K,
    clock: &mut C,
    net: &mut N,
    hooks: Vec<H>,
) -> Status
    requires { (1 ≤ length hooks.items) × (length hooks.items ≤ 64) }
    ensures run { IsRun (ServesLinks service.now.links (length hooks.items)
        (door (N.given net.old) (N.ended net.old) (N.faults net.old))
        (door (N.given net.new) (N.ended net.new) (N.faults net.new)))
        (ports (S.left source.old) (S.ended source.old) (S.faults source.old) (C.given clock.old) (K.held sink.old) (K.faults sink.old))
        (ports (S.left source.new) (S.ended source.new) (S.faults source.new) (C.given clock.new) (K.held sink.new) (K.faults sink.new)) result }
    ensures clock_stays { (result ≡ Status.ReadFault)
        ⊎ (result ≡ Status.TooLong) → clock.new ≡ clock.old }
{
    let bytes = match read_script(alloc, source, sink) {
        Ok(bytes) => bytes,
        Err(status) => return status,
    };
    let workers = hooks.len() as u32;
    let Prepared { text, opened } = match prepare(
        service.rt,
        alloc,
        bytes.as_slice(),
        clock,
        workers,
    ) {
        Ok(prepared) => prepared,
        Err(_) => return Status::NoMemory,
    };
    drop(bytes);
    match write_all(sink, text.as_bytes()) {
        Ok(()) => {}
        Err(_) => {
            drop(opened);
            return Status::WriteFault;
        }
    }
    let opened = match opened {
        Some(opened) => opened,
        None => return Status::BadLine,
    };
    let totals = match take_links(alloc, service, opened, hooks, net, clock) {
        Ok(totals) => totals,
        Err(status) => return status,
    };
    match write_all(sink, totals.as_bytes()) {
        Ok(()) => Status::Done,
        Err(_) => Status::WriteFault,
    }
}
