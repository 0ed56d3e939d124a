// A bell that some threads ring and another waits for.
use std::sync::{Condvar, Mutex, Wait};

#[derive(Drop)]
struct State {
    is_rung: bool,
    is_shut: bool,
}

/// A bell. Rings that were not taken yet are kept, and count as one.
#[derive(Drop)]
pub struct Bell {
    state: Mutex<State>,
    changed: Condvar,
}

impl Bell {
    /// A bell that nobody rang.
    pub fn new() -> Bell {
        Bell {
            state: Mutex::new(State {
                is_rung: false,
                is_shut: false,
            }),
            changed: Condvar::new(),
        }
    }

    /// Rings. Whoever waits wakes.
    pub fn ring<R: Wait>(&self, rt: &R) {
        let mut state = self.state.lock(rt);
        state.is_rung = true;
        self.changed.notify_all();
    }

    /// Waits for a ring: true where it takes one, and else false where the bell is shut.
    pub fn wait<R: Wait>(&self, rt: &R) -> bool {
        let mut state = self
            .changed
            .wait_while(rt, self.state.lock(rt), |s| { !s.is_rung && !s.is_shut });
        let is_rung = state.is_rung;
        state.is_rung = false;
        is_rung
    }

    /// Shuts the bell: whoever waits wakes, and no one waits any more.
    pub fn shut<R: Wait>(&self, rt: &R) {
        let mut state = self.state.lock(rt);
        state.is_shut = true;
        self.changed.notify_all();
    }
}
