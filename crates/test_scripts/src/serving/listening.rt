// Links in memory whose written bytes others can read, and a listener that gives them.
ghost use Rattle.std.specs.Prelude.{◌≡◌, ◌<◌, OnErr, OnOk};

use rg_base::{Failed, Seq, Tally};
use rg_ports::{Link, Listener, MemLink};
use std::alloc::{AllocError, Global};
use std::sync::{Arc, Mutex};

/// The bytes that a link took, for several owners.
pub(crate) type Taken = Arc<Mutex<Vec<u8>>, Global>;

/// A link that keeps its written bytes for others. A write fails where another thread has their lock, or memory is refused.
#[derive(Drop)]
pub(crate) struct SharedLink {
    link: MemLink,
    taken: Taken,
    met_end: bool,
    faults: Tally,
}

impl SharedLink {
    /// With these bytes to come. `fails` lists the calls that are to fail.
    pub(crate) fn new(
        alloc: Global,
        bytes: &[u8],
        fails: &[u64],
        taken: Taken,
    ) -> Result<SharedLink, AllocError> {
        let bytes = Seq::from_vec(Vec::from_slice(alloc, bytes)?);
        let fails = Seq::from_vec(Vec::from_slice(alloc, fails)?);
        Ok(SharedLink {
            link: MemLink::new(bytes, Seq::new(alloc), Seq::new(alloc), fails),
            taken,
            met_end: false,
            faults: Tally::zero(),
        })
    }

    fn keep(&self, bytes: &[u8]) -> bool {
        match self.taken.try_lock() {
            Some(mut taken) => taken.extend_from_slice(bytes).is_ok(),
            None => false,
        }
    }
}

impl Link for SharedLink {
    ghost use Rattle.std.specs.Prelude.{None};

    ghost left = { λ l. None };

    ghost held = { λ l. None };

    ghost ended = { λ l. l.met_end };

    ghost faults = { λ l. l.faults.count };

    fn read(&mut self, room: &mut [u8]) -> Result<usize, Failed> {
        let can_end = !room.is_empty();
        match self.link.read(room) {
            Ok(n) => {
                if n == 0 && can_end {
                    self.met_end = true;
                }
                Ok(n)
            }
            Err(failed) => {
                self.faults.add();
                Err(failed)
            }
        }
    }

    fn write(&mut self, piece: &[u8]) -> Result<usize, Failed> {
        match self.link.write(piece) {
            Ok(n) if self.keep(&piece[..n]) => Ok(n),
            _ => {
                self.faults.add();
                Err(Failed)
            }
        }
    }
}

/// Gives the links of a list in order.
#[derive(Drop)]
pub(crate) struct Links {
    links: Vec<SharedLink>,
    /// Which call fails, all calls being counted from 1.
    failing: u64,
    calls: u64,
    met_end: bool,
    given: Tally,
    faults: Tally,
}

impl Links {
    pub(crate) fn new(links: Vec<SharedLink>, failing: u64) -> Links {
        Links {
            links,
            failing,
            calls: 0,
            met_end: false,
            given: Tally::zero(),
            faults: Tally::zero(),
        }
    }

    /// Counts a call, which may be the one that fails.
    fn call(&mut self) -> Result<(), Failed>
        ensures kept { OnOk result (self.new.faults.count ≡ self.old.faults.count) }
        ensures failed { OnErr result (self.old.faults.count < self.new.faults.count) }
        ensures same { (self.new.given ≡ self.old.given) × (self.new.met_end ≡ self.old.met_end) }
    {
        self.calls = self.calls.saturating_add(1);
        if self.calls == self.failing {
            self.faults.add();
            return Err(Failed);
        }
        Ok(())
    }
}

impl Listener for Links {
    type Link = SharedLink;

    ghost given = { λ l. l.given.count };

    ghost ended = { λ l. l.met_end };

    ghost faults = { λ l. l.faults.count };

    fn listen(&mut self, _address: &str) -> Result<(), Failed> {
        self.call()
    }

    fn accept(&mut self) -> Result<Option<SharedLink>, Failed> {
        match self.call() {
            Ok(()) => {}
            Err(failed) => return Err(failed),
        }
        if self.links.is_empty() {
            self.met_end = true;
            return Ok(None);
        }
        self.given.add();
        Ok(Some(self.links.remove(0)))
    }
}
