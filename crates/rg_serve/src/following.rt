// What refreshes the publications beside the workers.
ghost use Rattle.std.specs.Prelude.{◌≡◌, ◌≤◌, ◌+◌, false, length, IfOk};
ghost use mathlib.Core.List.{IsPrefix};
ghost use Rattle.rg_admin_laws.specs.Starts.{IsStart};
ghost use Rattle.rg_session.specs.Right.{AreDownloadedFor, AreRightFor};
ghost use Rattle.rg_serve.specs.Held.{HasLast, IsFollowing};
ghost use Rattle.rg_serve.specs.Trails.{Downloads};

use crate::naming::Naming;
use crate::sessions::Common;
use rg_admin::{Admin, Recorder};
use rg_base::{NoMemory, Steps};
use rg_publish::Publisher;
use rg_session::Refresher;
use rg_threads::Watcher;
use rg_turn::{Seat, Turn};
use std::alloc::Global;
use std::marker::{Model, PhantomData};
use std::sync::{Mutex, Wait};

/// The refresher, with its seat. Contracts see nothing of it but the names of its type.
#[derive(Drop)]
pub(crate) struct Following<J: Naming, P: Recorder, R: Wait + Drop> {
    refresher: Refresher<R>,
    seat: Seat<Admin<P>>,
    /// Whether a refresh met want of memory.
    is_short: bool,
    of: PhantomData<J>,
}

impl<J: Naming, P: Recorder, R: Wait + Drop> Model for Following<J, P, R> {
    ghost use Rattle.rg_serve.specs.Held.{IsFollowing};

    ghost Value = { Unit {0} };

    ghost view = { λ f. tt };

    ghost invariant = { λ f. IsFollowing J.turn J.opening.book
        J.before J.published f.seat f.refresher.service f.refresher.publisher f.is_short };
}

impl<J: Naming, P: Recorder, R: Wait + Drop> Following<J, P, R> {
    pub fn new(refresher: Refresher<R>, seat: Seat<Admin<P>>) -> Following<J, P, R>
        requires { IsFollowing J.turn J.opening.book
            J.before J.published seat refresher.service refresher.publisher false }
    {
        Following {
            refresher,
            seat,
            is_short: false,
            of: PhantomData,
        }
    }

    /// Refreshes. Want of memory is noted.
    fn refresh<W: Wait>(&mut self, rt: &W, alloc: Global, turn: &Turn<Admin<P>>)
        requires { (turn.now.turn ≡ J.turn) × IsStart turn.now.start }
    {
        turn.knows(&self.seat);
        let mut steps = Steps::silent();
        match self
            .refresher
            .refresh(rt, alloc, turn, &mut self.seat, &mut steps)
        {
            Ok(_) => {}
            Err(_) => self.is_short = true,
        }
    }

    /// Refreshes once more, and gives the publisher and the seat, and how many entries came before the last download. Refused too
    /// where an earlier refresh met want of memory.
    pub fn finish<W: Wait>(
        self,
        rt: &W,
        alloc: Global,
        turn: &Turn<Admin<P>>,
    ) -> Result<(Publisher<R>, Seat<Admin<P>>, u64), NoMemory>
        requires { (turn.now.turn ≡ J.turn) × IsStart turn.now.start }
        ensures same { IfOk result (λ t. (t.1.turn ≡ J.turn) × (t.0.book ≡ J.opening.book)) }
        ensures right { IfOk result (λ t. AreRightFor turn.now.start t.1.history t.0.list) }
        ensures made { IfOk result (λ t. AreDownloadedFor turn.now.start t.1.history t.0.list) }
        ensures begins { IfOk result (λ t. IsPrefix J.before.history t.1.history) }
        ensures longer { IfOk result (λ t. length J.before.history + 1 ≤ length t.1.history) }
        ensures more { IfOk result (λ t. IsPrefix J.published t.0.list) }
        ensures downloads { IfOk result
            (λ t. Downloads t.1.history turn.now.start.state.plugin J.before t.1) }
        ensures last { IfOk result (λ t. HasLast turn.now.start t.1.history t.0.list t.2) }
    {
        let Following {
            mut refresher,
            mut seat,
            is_short,
            of: _,
        } = self;
        turn.knows(&seat);
        let mut steps = Steps::silent();
        match refresher.refresh(rt, alloc, turn, &mut seat, &mut steps) {
            Ok(_) => {}
            Err(refused) => return Err(refused),
        }
        if is_short {
            return Err(NoMemory);
        }
        let Refresher {
            publisher,
            service: _,
            seq,
        } = refresher;
        Ok((publisher, seat, seq))
    }
}

/// Refreshes after each ring of the bell, until the bell is shut.
#[derive(Drop)]
pub(crate) struct Follower<'a, 'f, J: Naming, P: Recorder, R: Wait + Drop> {
    pub common: &'a Common<J, P>,
    pub following: &'f Mutex<Following<J, P, R>>,
}

impl<'a, 'f, J: Naming, P: Recorder, R: Wait + Drop> Watcher for Follower<'a, 'f, J, P, R> {
    ghost can_watch = { λ f. Unit {0} };

    fn watch<W: Wait + Sync>(&self, rt: &W) {
        let common = self.common;
        let mut following = self.following.lock(rt);
        for _ in rt.forever() {
            if !common.bell.wait(rt) {
                break;
            }
            following.refresh(rt, common.alloc, &common.turn);
        }
    }

    fn stop<W: Wait + Sync>(&self, rt: &W) {
        let common = self.common;
        common.bell.shut(rt);
    }
}
