// A cache in memory.
ghost use Rattle.std.specs.Prelude.{◌≡◌, option_map};

use crate::cache::Cache;
use crate::fault::LoadFault;
use rg_base::{Failed, Seq, Tally};
use std::alloc::Global;
use std::marker::Model;

/// A cache in memory. It fails where memory is refused.
#[derive(Drop)]
pub struct MemCache {
    alloc: Global,
    bytes: Option<Seq<u8>>,
    faults: Tally,
}

impl Model for MemCache {
    ghost use Rattle.std.specs.Prelude.{option_map};
    ghost use Rattle.rg_cache.specs.Places.{Memory};

    ghost Value = { Memory };

    ghost view = { λ c. record {
      held = option_map (λ b. b.items) c.bytes;
      faults = c.faults.count;
    } };
}

impl MemCache {
    /// It holds these bytes, or nothing.
    pub fn new(alloc: Global, bytes: Option<Seq<u8>>) -> MemCache
        ensures { result ≡ record { held = option_map (λ b. b.items) bytes; faults = 0 } }
    {
        MemCache {
            alloc,
            bytes,
            faults: Tally::zero(),
        }
    }
}

impl Cache for MemCache {
    ghost use Rattle.std.specs.Prelude.{Some};

    ghost held = { λ c. Some c.held };

    ghost faults = { λ c. c.faults };

    fn load(&mut self, alloc: Global) -> Result<Option<Seq<u8>>, LoadFault> {
        match &self.bytes {
            None => Ok(None),
            Some(bytes) => match Vec::from_slice(alloc, bytes.as_slice()) {
                Ok(copy) => Ok(Some(Seq::from_vec(copy))),
                Err(_) => Err(LoadFault::NoMemory),
            },
        }
    }

    fn store(&mut self, bytes: &[u8]) -> Result<(), Failed> {
        match Vec::from_slice(self.alloc, bytes) {
            Ok(copy) => {
                self.bytes = Some(Seq::from_vec(copy));
                Ok(())
            }
            Err(_) => {
                self.faults.add();
                Err(Failed)
            }
        }
    }
}
