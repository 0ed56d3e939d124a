// A service before it serves links.
ghost use Rattle.std.specs.Prelude.{◌≡◌, ◌≤◌, ◌+◌, Some, IfOk, IfSome};
ghost use Rattle.rg_admin.specs.Starting.{start_fault};
ghost use Rattle.rg_admin_laws.specs.Starts.{IsStart};
ghost use Rattle.rg_serve.specs.Opened.{IsAsked, IsRefreshed, opened, opened_unless};

use rg_admin::{Admin, Recorder, StartFault, Unkept};
use rg_base::{NoMemory, Steps};
use rg_cmd::{AdminReply, Ask, Config};
use rg_publish::Pass;
use rg_session::{
    Refresh, Refresher, Service, downloaded_lists_stay, open, right_lists_stay_right,
};
use rg_threads::Halt;
use rg_turn::laws::one_more_entry;
use rg_turn::{Seat, Turn};
use std::alloc::Global;
use std::marker::Model;
use std::sync::{Arc, Wait};

/// The parts of a service that serves no links yet.
#[derive(Drop)]
pub(crate) struct Begun<R: Wait + Drop, P: Recorder> {
    pub turn: Turn<Admin<P>>,
    /// The refresher's.
    pub seat: Seat<Admin<P>>,
    pub refresher: Refresher<R>,
    /// Those of the workers, as many as passes.
    pub seats: Vec<Seat<Admin<P>>>,
    pub passes: Vec<Pass>,
    /// Why links break off, where changes aren't taken any more.
    pub halt: Arc<Halt>,
}

/// An administration with its plugin, and workers that serve no links yet. It is asked through a seat of its own, the refresher's.
/// Contracts see the history and the publications, and how many of the entries are known to be its own calls.
#[derive(Drop)]
pub struct Opened<R: Wait + Drop, P: Recorder = Unkept> {
    pub(crate) begun: Begun<R, P>,
    /// Of one who only watches, until it is asked for.
    pub(crate) watching: Option<Pass>,
}

impl<R: Wait + Drop, P: Recorder> Model for Opened<R, P> {
    ghost use Rattle.rg_serve.specs.Held.{IsHeld, held};
    ghost use Rattle.rg_serve.specs.Opened as the;

    ghost Value = { the.Opened };

    ghost view = { λ o.
        held o.begun.turn o.begun.seat o.begun.refresher.publisher.list o.begun.seats.items };

    ghost invariant = { λ o. let b = o.begun in IsHeld
        b.turn b.seat b.refresher.service b.refresher.publisher b.seats.items b.passes.items };
}

impl<R: Wait + Drop> Opened<R> {
    /// What the configuration starts, with its plugin's view as publication 1, for 1 to 64 workers. None where the configuration
    /// breaks a rule. Where memory is refused all is let go.
    pub fn start(
        rt: R,
        alloc: Global,
        config: Config,
        workers: u32,
    ) -> Result<Option<Opened<R>>, NoMemory>
        requires { (1 ≤ workers) × (workers ≤ 64) }
        ensures opened { IfOk result (λ o. o ≡ opened_unless workers (start_fault config) config) }
        ensures workers { IfOk result (λ o. IfSome o (λ o. o.workers ≡ workers)) }
    {
        match Admin::start(alloc, config) {
            Ok(admin) => Ok(Some(Opened::over(rt, alloc, admin, workers)?)),
            Err(StartFault::Rule(_)) => Ok(None),
            Err(StartFault::NoMemory) => Err(NoMemory),
        }
    }
}

impl<R: Wait + Drop, P: Recorder> Opened<R, P> {
    /// The administration, with its plugin's view as publication 1, for 1 to 64 workers. Where memory is refused all is let go.
    pub fn over(
        rt: R,
        alloc: Global,
        admin: Admin<P>,
        workers: u32,
    ) -> Result<Opened<R, P>, NoMemory>
        requires start { IsStart admin }
        requires workers { (1 ≤ workers) × (workers ≤ 64) }
        ensures opened { IfOk result (λ o. opened workers admin ≡ Some o) }
        ensures workers { IfOk result (λ o. o.workers ≡ workers) }
    {
        downloaded_lists_stay();
        // A seat more for the refresher, and a pass more for one who watches.
        let more = workers + 1;
        let Service {
            turn,
            mut seats,
            refresher,
            mut passes,
        } = open(rt, alloc, admin, more, more, &mut Steps::silent())?;
        let Some(seat) = seats.pop() else {
            return Err(NoMemory);
        };
        let Some(watching) = passes.pop() else {
            return Err(NoMemory);
        };
        let halt = Arc::new(alloc, Halt::new())?;
        let begun = Begun {
            turn,
            seat,
            refresher,
            seats,
            passes,
            halt,
        };
        Ok(Opened {
            begun,
            watching: Some(watching),
        })
    }

    /// Once this is set, a link that breaks off for want of memory is told that no more changes are taken.
    pub fn halted_by(self, halt: Arc<Halt>) -> Opened<R, P>
        ensures { result ≡ self }
    {
        let Opened {
            mut begun,
            watching,
        } = self;
        begun.halt = halt;
        Opened { begun, watching }
    }

    /// A pass for one who only watches what is published, the first time that it is asked for; none later.
    pub fn watch(self) -> (Opened<R, P>, Option<Pass>)
        ensures { result.0 ≡ self }
    {
        let Opened { begun, watching } = self;
        let opened = Opened {
            begun,
            watching: None,
        };
        (opened, watching)
    }

    /// Asks the administration. It waits for its turn.
    pub fn ask<W: Wait>(&mut self, rt: &W, alloc: Global, ask: Ask) -> Result<AdminReply, NoMemory>
        ensures { IfOk result (λ reply. IsAsked self.old ask reply self.new) }
    {
        right_lists_stay_right();
        downloaded_lists_stay();
        one_more_entry::<Admin>();
        let Begun { turn, seat, .. } = &mut self.begun;
        match turn.call(rt, alloc, seat, ask) {
            Ok(reply) => return Ok(reply),
            Err(refused) => return Err(refused),
        }
    }

    /// Downloads what the plugin lacks, and publishes what it sees then, unless its versions are current. Want of memory is also
    /// answered where an entry of another caller came before the download, which no clause of a seat excludes, though nobody else
    /// has one. Where memory is refused all is let go.
    pub fn refresh<W: Wait>(
        self,
        rt: &W,
        alloc: Global,
    ) -> Result<(Opened<R, P>, Refresh), NoMemory>
        ensures { IfOk result (λ t. IsRefreshed self t.1 t.0) }
    {
        let Opened { begun, watching } = self;
        let Begun {
            turn,
            mut seat,
            mut refresher,
            seats,
            passes,
            halt,
        } = begun;
        let calls = seat.calls();
        let mut steps = Steps::silent();
        match refresher.refresh(rt, alloc, &turn, &mut seat, &mut steps) {
            Ok(refresh) => {
                if refresher.seq != calls {
                    return Err(NoMemory);
                }
                let begun = Begun {
                    turn,
                    seat,
                    refresher,
                    seats,
                    passes,
                    halt,
                };
                return Ok((Opened { begun, watching }, refresh));
            }
            Err(refused) => return Err(refused),
        }
    }
}
