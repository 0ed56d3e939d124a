// A machine that hands out ids.
ghost use Rattle.std.specs.Prelude.{◌+◌, ◌%◌, ◌^◌, if◌then◌else◌, Some, None};

use crate::callers::Asks;
use rg_base::NoMemory;
use rg_turn::Machine;
use std::alloc::Global;

/// Hands out the ids from 1 on to those who want one, and refuses the others. Memory is refused at one of its steps.
#[derive(Drop)]
pub(crate) struct Ids {
    pub(crate) last: u64,
    steps: u64,
    no_memory_at: u64,
}

impl Ids {
    /// No id is handed out yet. Of its steps, counted from 1, this one is refused memory; none where it is 0.
    pub(crate) fn fresh(no_memory_at: u64) -> Ids {
        Ids {
            last: 0,
            steps: 0,
            no_memory_at,
        }
    }
}

impl Machine for Ids {
    /// Whether an id is wanted.
    type Ask = bool;

    /// The id, or none where it is refused.
    type Reply = Option<u64>;

    /// The last id.
    type State = u64;

    ghost state = { λ m. m.last };

    ghost transition = { λ s wanted. if wanted then ((s + 1) % 2 ^ 64, Some ((s + 1) % 2 ^ 64)) else (s, None) };

    fn step(&mut self, _alloc: Global, wanted: bool) -> Result<Option<u64>, NoMemory> {
        self.steps = self.steps.wrapping_add(1);
        if self.steps == self.no_memory_at {
            return Err(NoMemory);
        }
        if !wanted {
            return Ok(None);
        }
        self.last = self.last.wrapping_add(1);
        Ok(Some(self.last))
    }
}

/// So many asks for an id.
#[derive(Clone, Copy)]
pub(crate) struct Wanted(pub(crate) u32);

impl Asks<Ids> for Wanted {
    fn count(&self) -> u32 {
        self.0
    }

    fn ask(&self, _alloc: Global, _number: u32) -> Option<bool> {
        Some(true)
    }

    fn id_of(&self, reply: Option<u64>) -> Option<u64> {
        reply
    }
}
