// A service that is open, with two seats and two passes.
ghost use Rattle.std.specs.Prelude.{◌≡◌, All, length, IfOk, IfSome};
ghost use Rattle.rg_session.specs.Closing.{IsOwn};

use crate::administration::{ask_of, kept_id, started};
use crate::lists::{both, pair};
use rg_admin::Admin;
use rg_base::{NoMemory, Serial, Steps};
use rg_publish::{Pass, Told};
use rg_session::{Refresh, Refresher, Service, Totals, close, open, right_lists_stay_right};
use rg_turn::{Seat, Turn};
use std::alloc::Global;
use std::marker::Model;
use std::sync::Wait;

/// A service, but for its passes. Contracts see what it has published.
#[derive(Drop)]
pub(crate) struct OpenService<R: Wait + Drop> {
    pub(crate) alloc: Global,
    pub(crate) turn: Turn<Admin>,
    pub(crate) seat: Seat<Admin>,
    other_seat: Seat<Admin>,
    refresher: Refresher<R>,
}

impl<R: Wait + Drop> Model for OpenService<R> {
    ghost use Rattle.rg_publish.specs.Publications.{Published};
    ghost use Rattle.test_threads.specs.Open.{IsOpen};

    ghost Value = { Published };

    ghost view = { λ s. s.refresher.publisher };

    ghost invariant = { λ s.
        IsOpen s.turn s.seat s.other_seat s.refresher.service s.refresher.publisher };
}

impl<R: Wait + Drop> OpenService<R> {
    /// The service of the configuration, and its passes. None where the configuration starts none, or memory is refused.
    pub(crate) fn open(rt: R, alloc: Global, config: &str) -> Option<(OpenService<R>, Pass, Pass)>
        ensures { IfSome result (λ t. (t.1.book ≡ t.0.book) × (t.2.book ≡ t.0.book)) }
    {
        let admin = started(alloc, config)?;
        let Ok(
            Service {
                turn,
                seats,
                refresher,
                passes,
            },
        ) = open(rt, alloc, admin, 2, 2, &mut Steps::silent())
        else {
            return None;
        };
        let Some((seat, other_seat)) = both(seats) else {
            return None;
        };
        let Some((pass, other_pass)) = both(passes) else {
            return None;
        };
        let service = OpenService {
            alloc,
            turn,
            seat,
            other_seat,
            refresher,
        };
        Some((service, pass, other_pass))
    }

    /// The administrator commands what the text says. False where no policy is kept.
    fn ask<W: Wait>(&mut self, rt: &W, command: &str) -> bool
        ensures { self.new ≡ self.old }
    {
        right_lists_stay_right();
        let Some(ask) = ask_of(self.alloc, command) else {
            return false;
        };
        match self.turn.call(rt, self.alloc, &mut self.seat, ask) {
            Ok(reply) => return kept_id(reply).is_some(),
            Err(_) => return false,
        }
    }

    /// Publishes what was changed since the last publication. False where nothing was, or memory is refused.
    pub(crate) fn refresh<W: Wait>(&mut self, rt: &W) -> bool
        ensures { self.new.book ≡ self.old.book }
    {
        match self.refresher.refresh(
            rt,
            self.alloc,
            &self.turn,
            &mut self.seat,
            &mut Steps::silent(),
        ) {
            Ok(Refresh::Published(_)) => return true,
            Ok(Refresh::Unchanged) => return false,
            Err(_) => return false,
        }
    }

    /// The administrator commands what the text says, and it is published. False where no policy is kept, or memory is refused.
    pub(crate) fn change<W: Wait>(&mut self, rt: &W, command: &str) -> bool
        ensures { self.new.book ≡ self.old.book }
    {
        let is_kept = self.ask(rt, command);
        let is_published = self.refresh(rt);
        is_kept && is_published
    }

    /// The number of the newest publication.
    pub(crate) fn serial(&self) -> Serial
        ensures { result.0 ≡ length self.now.list }
    {
        self.refresher.publisher.serial()
    }

    /// The newest publication, for a pass to learn.
    pub(crate) fn tell(&self) -> Result<Told, NoMemory>
        ensures { IfOk result (λ t. t ≡ self.now) }
    {
        self.refresher.publisher.tell()
    }

    /// Ends the service with these passes. None where memory is refused.
    pub(crate) fn end(self, passes: Vec<Pass>) -> Option<Totals>
        requires { All (IsOwn self) passes.items }
    {
        let OpenService {
            alloc,
            turn,
            seat,
            other_seat,
            refresher,
        } = self;
        let Some(seats) = pair(alloc, seat, other_seat) else {
            return None;
        };
        let Refresher {
            publisher,
            service: _,
            seq: _,
        } = refresher;
        match close(alloc, publisher, passes, turn, seats) {
            Ok(totals) => Some(totals),
            Err(_) => None,
        }
    }
}
