// A service of the configuration, with one caller.
ghost use Rattle.std.specs.Prelude.{◌≡◌, [], ◌∷◌, IfSome};

use crate::commands::{ask_of, put_policy, started};
use crate::texts::{Draft, SERVICE};
use rg_admin::Admin;
use rg_base::{Moment, Seq, Steps};
use rg_engine::Engine;
use rg_hook::{AuditFan, Enrichers, WorkerHooks};
use rg_link::serve_link;
use rg_ports::{FreeGate, ListClock, MemLink};
use rg_publish::Pass;
use rg_session::{Bell, Refresh, Refresher, Service, open, right_lists_stay_right};
use rg_turn::{Seat, Turn};
use std::alloc::{AllocError, Global};
use std::marker::Model;
use std::sync::Wait;

/// A service that is open. Contracts see the administration that it began with.
#[derive(Drop)]
pub(crate) struct OpenService<R: Wait + Drop> {
    turn: Turn<Admin>,
    seat: Seat<Admin>,
    refresher: Refresher<R>,
}

impl<R: Wait + Drop> Model for OpenService<R> {
    ghost use Rattle.std.specs.Prelude.{◌≡◌};
    ghost use Rattle.rg_admin_laws.specs.Logs.{Administration};
    ghost use Rattle.rg_admin_laws.specs.Starts.{IsStart};
    ghost use Rattle.rg_session.specs.Right.{AreRightFor};

    ghost Value = { Administration };

    ghost view = { λ s. s.turn.start };

    ghost invariant = { λ s. (s.seat.turn ≡ s.turn.turn) × IsStart s.turn.start
        × (s.refresher.service ≡ s.turn.start.state.plugin)
        × AreRightFor s.turn.start s.seat.history s.refresher.publisher.list };
}

/// The item of a list of one.
fn only<T: Drop>(items: Vec<T>) -> Option<T>
    ensures { IfSome result (λ item. items.items ≡ item ∷ []) }
{
    let mut items = items;
    let Some(item) = items.pop() else {
        return None;
    };
    if !items.is_empty() {
        return None;
    }
    Some(item)
}

/// A service, and so many passes of it, one at least and 64 at most.
pub(crate) fn opened<R: Wait + Drop>(
    rt: R,
    alloc: Global,
    passes: u32,
) -> Option<(OpenService<R>, Vec<Pass>)> {
    let admin = started(alloc)?;
    let passes = passes.clamp(1, 64);
    let Ok(
        Service {
            turn,
            seats,
            refresher,
            passes,
        },
    ) = open(rt, alloc, admin, 1, passes, &mut Steps::silent())
    else {
        return None;
    };
    let Some(seat) = only(seats) else {
        return None;
    };
    let service = OpenService {
        turn,
        seat,
        refresher,
    };
    Some((service, passes))
}

impl<R: Wait + Drop> OpenService<R> {
    /// The administrator puts a policy. False where memory is refused.
    pub(crate) fn put<W: Wait>(&mut self, rt: &W, alloc: Global, draft: Draft) -> bool {
        right_lists_stay_right();
        let Some(command) = put_policy(alloc, draft) else {
            return false;
        };
        let Some(ask) = ask_of(alloc, command) else {
            return false;
        };
        match self.turn.call(rt, alloc, &mut self.seat, ask) {
            Ok(reply) => {
                drop(reply);
                true
            }
            Err(_) => false,
        }
    }

    /// Publishes what was changed since the last publication. False where nothing was, or memory is refused.
    pub(crate) fn refresh<W: Wait>(&mut self, rt: &W, alloc: Global) -> bool {
        match self.refresher.refresh(rt, alloc, &self.turn, &mut self.seat, &mut Steps::silent()) {
            Ok(Refresh::Published(_)) => true,
            Ok(Refresh::Unchanged) => false,
            Err(_) => false,
        }
    }

    /// Serves a link, and says how many messages it answered.
    pub(crate) fn serve<W: Wait>(
        &mut self,
        rt: &W,
        alloc: Global,
        pass: &mut Pass,
        mut link: MemLink,
    ) -> Result<u32, AllocError> {
        right_lists_stay_right();
        let moments = Vec::from_slice(alloc, &[Moment(0)])?;
        let mut clock = ListClock::new(Seq::from_vec(moments));
        let mut hooks = WorkerHooks {
            sinks: AuditFan::new(Vec::new(alloc)),
            enrichers: Enrichers::new(Vec::new(alloc)),
        };
        let bell = Bell::new();
        match serve_link(
            rt,
            alloc,
            &mut link,
            &self.turn,
            &mut self.seat,
            pass,
            &mut clock,
            &mut hooks,
            &FreeGate,
            &bell,
            SERVICE,
            0,
        ) {
            Ok(report) => Ok(report.messages),
            Err(_) => Err(AllocError),
        }
    }

    /// How often the administration was called.
    pub(crate) fn calls(&self) -> u64 {
        self.seat.calls()
    }

    /// The engine that was published last.
    pub(crate) fn newest(&self) -> &Engine {
        self.refresher.publisher.newest()
    }
}
