// Links served by threads.
ghost use Rattle.std.specs.Prelude.{◌≡◌, ◌⊎◌, ◌≤◌, ◌<◌, ◌+◌, true, Some, length, IfOk, OnOk, OnErr, MatchResult};
ghost use mathlib.Core.List.{IsPrefix};
ghost use Rattle.rg_admin_laws.specs.Steps.{step};
ghost use Rattle.rg_turn.specs.History.{IsLegal, state_after};
ghost use Rattle.rg_serve.specs.Held.{IsHeld, begun};
ghost use Rattle.rg_session.specs.Right.{AreDownloadedFor, AreRightFor};
ghost use Rattle.rg_serve.specs.Served.{Counts, HasServed, IsCurrent};
ghost use Rattle.rg_serve.specs.Trails.{AreServed};

use crate::crew::{Crew, finish_queue, with_watcher};
use crate::ending::{Served, end};
use crate::following::{Follower, Following};
use crate::given::{Counted, Given};
use crate::naming::Naming;
use crate::opened::{Begun, Opened};
use crate::places::{Workers, workers_of};
use crate::sessions::{Common, Sessions};
use rg_admin::Recorder;
use rg_base::{Failed, NoMemory, Text, TryCopy};
use rg_hook::RequestHooks;
use rg_ports::{Clock, Gate, Listener};
use rg_session::{Bell, Totals};
use rg_threads::Queue;
use std::alloc::Global;
use std::marker::{Brand, PhantomData};
use std::sync::ledger::Blank;
use std::sync::{Mutex, Wait};
use std::thread::Threads;

/// Why links are served no longer.
#[derive(Clone, Copy, Debug, PartialEq, Eq)]
pub enum ServeFault {
    /// The listener failed.
    Failed,
    NoMemory,
}

impl From<NoMemory> for ServeFault {
    ghost use Rattle.std.specs.Prelude.{◌≡◌};
    ghost use Rattle.rg_serve.specs.declared.serving.ServeFault.TheVariants as fault;

    ghost from_gives = { λ _ f. f ≡ fault.NoMemory };

    fn from(_: NoMemory) -> ServeFault {
        ServeFault::NoMemory
    }
}

impl From<Failed> for ServeFault {
    ghost use Rattle.std.specs.Prelude.{◌≡◌};
    ghost use Rattle.rg_serve.specs.declared.serving.ServeFault.TheVariants as fault;

    ghost from_gives = { λ _ f. f ≡ fault.Failed };

    fn from(_: Failed) -> ServeFault {
        ServeFault::Failed
    }
}

/// What lies outside of a service, beside its listener and its clock.
#[derive(Drop)]
pub struct Outside<'a, 'g, G> {
    /// Where the listener listens.
    pub address: &'a Text,
    /// To which the workers come before and after each decision.
    pub gate: &'g G,
    /// How many links are served at most.
    pub most: u64,
}

/// The same with the clock, which the workers share.
#[derive(Drop)]
struct Around<'a, 'k, 'c, 'g, C, G> {
    address: &'a Text,
    clock: &'k Mutex<&'c mut C>,
    gate: &'g G,
    most: u64,
}

/// The threads: the workers, and what refreshes beside them. Then what is left in the queue is served. Gives how many links were given.
fn attend<
    J: Naming + Send + Sync,
    P: Recorder + Send,
    N: Listener,
    C: Clock,
    G: Gate,
    H: RequestHooks + Send,
    Q: Wait + Drop + Send,
    R: Threads + Wait + Sync,
>(
    rt: &R,
    sessions: &Sessions<J, P, C, G>,
    following: &Mutex<Following<J, P, Q>>,
    workers: &Workers<J, P, H>,
    queue: Queue<J, N::Link>,
    net: &mut N,
    given: Given<J>,
) -> (Result<u64, Failed>, Counted<J>)
    requires none { given.book.total ≡ 0 }
    ensures counted { IfOk result.0 (λ n. result.1.book.total ≡ n) }
    ensures given { IfOk result.0 (λ n. N.given net.new ≡ N.given net.old + n) }
    ensures all { IfOk result.0 (λ n. (n ≤ given.most)
        × ((n ≡ given.most) ⊎ (N.ended net.new ≡ true))) }
    ensures kept { OnOk result.0 (N.faults net.new ≡ N.faults net.old) }
    ensures failed { OnErr result.0 (N.faults net.old < N.faults net.new) }
{
    let crew = Crew {
        sessions,
        queue: &queue,
        workers,
    };
    let follower = Follower {
        common: sessions.common,
        following,
    };
    let (accepted, given) = with_watcher(rt, &crew, &follower, net, given);
    let mut left = queue.into_rest();
    finish_queue(rt, sessions, &mut left, workers);
    (accepted, given.settle(left))
}

/// The same from start to end, under names for the turn and the publisher that no type of a parameter has.
fn run_named<
    J: Naming + Send + Sync,
    P: Recorder + Send,
    N: Listener,
    C: Clock,
    G: Gate,
    H: RequestHooks + Send,
    Q: Wait + Drop + Send,
    R: Threads + Wait + Sync,
>(
    rt: &R,
    alloc: Global,
    blank: Blank,
    service: Begun<Q, P>,
    hooks: Vec<H>,
    net: &mut N,
    around: Around<C, G>,
) -> Result<Served<P>, ServeFault>
    requires ledger { (blank.name ≡ J.name)
        × (blank.parts ≡ J.parts) × (J.parts ≡ length service.seats.items + 2) }
    requires names { (service.turn.turn ≡ J.turn)
        × (J.opening ≡ begun service.refresher.publisher) × (service.refresher.service ≡ J.plugin) }
    requires before { (service.seat ≡ J.before) × (service.refresher.publisher.list ≡ J.published) }
    requires held { IsHeld service.turn service.seat service.refresher.service
        service.refresher.publisher service.seats.items service.passes.items }
    requires workers { length hooks.items ≡ length service.seats.items }
    ensures given { IfOk result (λ s. N.given net.new ≡ N.given net.old + s.links) }
    ensures all { IfOk result (λ s. (s.links ≤ around.entry.most)
        × ((s.links ≡ around.entry.most) ⊎ (N.ended net.new ≡ true))) }
    ensures legal { IfOk result (λ s. (s.totals.past.start ≡ Some service.turn.start)
        × IsLegal step service.turn.start s.totals.past.history) }
    ensures admin { IfOk result
        (λ s. s.totals.admin ≡ state_after step service.turn.start s.totals.past.history) }
    ensures entries { IfOk result
        (λ s. length J.before.history + 1 ≤ length s.totals.past.history) }
    ensures begins { IfOk result (λ s. IsPrefix J.before.history s.totals.past.history) }
    ensures published { IfOk result (λ s.
        IsPrefix J.published s.totals.published.list
        × (s.totals.publications ≡ length s.totals.published.list)) }
    ensures right { IfOk result (λ s.
        AreRightFor service.turn.start s.totals.past.history s.totals.published.list) }
    ensures made { IfOk result (λ s.
        AreDownloadedFor service.turn.start s.totals.past.history s.totals.published.list) }
    ensures current { IfOk result (λ s.
        IsCurrent service.turn.start s.totals.past.history s.totals.published.list) }
    ensures served { IfOk result (λ s.
        AreServed J.turn J.opening service.turn.start.state.plugin J.before (length service.seats.items) s.links
        s.totals.past.history s.totals.published.list s.totals.decisions) }
    ensures faults { MatchResult result (λ _. N.faults net.new ≡ N.faults net.old)
        (λ f. Counts f (N.faults net.old) (N.faults net.new)) }
{
    let Begun {
        turn,
        seat,
        refresher,
        seats,
        passes,
        halt,
    } = service;
    let (book, mut mine) = blank.open::<J>();
    let waiting = mine.split_off(1, 0);
    let queue = Queue::new(alloc, waiting)?;
    let plugin = refresher.service.try_copy(alloc)?;
    let workers = workers_of::<J, P, H>(alloc, seats, passes, hooks, &mut mine)?;
    net.listen(around.address.as_str())?;
    let following = Mutex::new(Following::new(refresher, seat));
    let common: Common<J, P> = Common {
        alloc,
        turn,
        bell: Bell::new(),
        halt,
        plugin,
        of: PhantomData,
    };
    let sessions = Sessions {
        common: &common,
        clock: around.clock,
        gate: around.gate,
    };
    let given = Given {
        most: around.most,
        book,
        mine,
    };
    let (accepted, counted) = attend(rt, &sessions, &following, &workers, queue, net, given);
    let links = accepted?;
    let Workers { places, hooks: _ } = workers;
    let totals = end(rt, common, following, places, counted, links)?;
    Ok(Served { links, totals })
}

/// Listens at the address, and serves up to so many links, with a thread for each of the hooks, which are those of a worker.
/// Beside them another thread keeps the publications up with the history. When the last link is served it refreshes once more,
/// and closes the service. The memory of the queue and the locks is taken before it listens.
///
/// A fault of a link ends that link alone. Where `accept` fails the links taken before are served too. Want of memory that a
/// worker or a refresh meets is answered when all are served. The work of a worker whose thread can't be started is done by the
/// others, or by the calling thread. Want of memory is answered too where a pass has seen more than was published, or an entry came
/// after the last download: neither should ever come, but no clause excludes it.
pub fn serve<
    P: Recorder + Send,
    N: Listener,
    C: Clock,
    G: Gate,
    H: RequestHooks + Send,
    Q: Wait + Drop + Send,
    R: Threads + Wait + Sync,
>(
    rt: &R,
    alloc: Global,
    opened: Opened<Q, P>,
    hooks: Vec<H>,
    net: &mut N,
    clock: &mut C,
    outside: Outside<G>,
) -> Result<Served<P>, ServeFault>
    requires { length hooks.items ≡ opened.workers }
    // The links are those that the listener gave, and they are as many as were asked for, or the listener has ended.
    ensures given { IfOk result (λ s. N.given net.new ≡ N.given net.old + s.links) }
    ensures all { IfOk result (λ s. (s.links ≤ outside.entry.most)
        × ((s.links ≡ outside.entry.most) ⊎ (N.ended net.new ≡ true))) }
    // The past is one legal history from the start, which goes on from what was known with one entry at least.
    ensures legal { IfOk result (λ s. (s.totals.past.start ≡ Some opened.start)
        × IsLegal step opened.start s.totals.past.history) }
    ensures admin { IfOk result
        (λ s. s.totals.admin ≡ state_after step opened.start s.totals.past.history) }
    ensures entries { IfOk result (λ s. length opened.history + 1 ≤ length s.totals.past.history) }
    ensures begins { IfOk result (λ s. IsPrefix opened.history s.totals.past.history) }
    // One list of publications goes on from those before. It is right for the past, each but the first was made of a download from the
    // one before, and the newest is current.
    ensures published { IfOk result (λ s. IsPrefix opened.published s.totals.published.list) }
    ensures number { IfOk result (λ s. s.totals.publications ≡ length s.totals.published.list) }
    ensures few { IfOk result (λ s. s.totals.publications ≤ length s.totals.past.history + 1) }
    ensures right { IfOk result (λ s.
        AreRightFor opened.start s.totals.past.history s.totals.published.list) }
    ensures made { IfOk result (λ s.
        AreDownloadedFor opened.start s.totals.past.history s.totals.published.list) }
    ensures current { IfOk result (λ s.
        IsCurrent opened.start s.totals.past.history s.totals.published.list) }
    // Each link had one session, each entry is one call, and each decision is by a publication of the list.
    ensures served { IfOk result (λ s.
        HasServed opened s.links s.totals.past.history s.totals.published.list s.totals.decisions) }
    ensures faults { MatchResult result (λ _. N.faults net.new ≡ N.faults net.old)
        (λ f. Counts f (N.faults net.old) (N.faults net.new)) }
{
    let Opened {
        begun: service,
        watching: _,
    } = opened;
    let parts = service.seats.len() as u64 + 2;
    let clock = Mutex::new(clock);
    let around = Around {
        address: outside.address,
        clock: &clock,
        gate: outside.gate,
        most: outside.most,
    };
    match run_named::<Brand, P, N, C, G, H, Q, R>(
        rt,
        alloc,
        Blank::new(parts),
        service,
        hooks,
        net,
        around,
    ) {
        Ok(served) => return Ok(served),
        Err(fault) => return Err(fault),
    }
}
