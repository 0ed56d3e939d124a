// A clock that threads share.
use rg_base::Moment;
use rg_ports::Clock;
use std::sync::{Mutex, Wait};

/// A clock under a lock, as one of the threads sees it. It tells nothing of the moments that it gives, since other threads
/// take moments between.
#[derive(Drop)]
pub struct SharedClock<'a, 'c, C, R> {
    clock: &'a Mutex<&'c mut C>,
    rt: &'a R,
}

impl<'a, 'c, C: Clock, R: Wait + Sync> SharedClock<'a, 'c, C, R> {
    pub fn new(rt: &'a R, clock: &'a Mutex<&'c mut C>) -> SharedClock<'a, 'c, C, R> {
        SharedClock { clock, rt }
    }
}

impl<'a, 'c, C: Clock, R: Wait + Sync> Clock for SharedClock<'a, 'c, C, R> {
    ghost use Rattle.std.specs.Prelude.{None};

    ghost given = { λ c. None };

    fn now(&mut self) -> Moment {
        let mut clock = self.clock.lock(self.rt);
        clock.now()
    }
}
