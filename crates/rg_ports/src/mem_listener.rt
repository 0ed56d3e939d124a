// A listener in memory.
ghost use Rattle.std.specs.Prelude.{◌≡◌, ◌<◌, ◌+◌, ◌↔◌, false, length, [], IfOk, IsErr, OnErr, OnOk};
ghost use Rattle.rg_base.specs.Listed.{Listed};
ghost use Rattle.rg_ports.specs.Calls.{IsToFail, failed, succeeded, untouched};
ghost use Rattle.rg_ports.specs.Memory.{ListenerState, Gives};

use crate::calls::Calls;
use crate::counter::Counter;
use crate::mem_link::MemLink;
use crate::ports::Listener;
use rg_base::{Failed, Seq};
use std::marker::Model;

/// Gives the links of a list in order.
#[derive(Drop)]
pub struct MemListener {
    links: Vec<MemLink>,
    given: Counter,
    met_end: bool,
    calls: Calls,
}

impl Model for MemListener {
    ghost use Rattle.rg_ports.specs.Memory.{ListenerState};

    ghost Value = { ListenerState };

    ghost view = { λ l. record {
      links = l.links.items;
      given = l.given;
      ended = l.met_end;
      calls = l.calls;
    } };
}

impl MemListener {
    /// Gives these links. `fails` lists the calls that are to fail, all calls being counted from 1.
    pub fn new(links: Vec<MemLink>, fails: Seq<u64>) -> MemListener
        ensures { result ≡ record {
          links = links.items;
          given = 0;
          ended = false;
          calls = untouched [] fails.items;
        } }
    {
        let fails = fails.into_vec();
        let no_sizes = Seq::new(*fails.allocator());
        MemListener {
            links,
            given: Counter::zero(),
            met_end: false,
            calls: Calls::new(no_sizes, Seq::from_vec(fails)),
        }
    }
}

impl Listener for MemListener {
    type Link = MemLink;

    ghost given = { λ l. l.given };

    ghost ended = { λ l. l.ended };

    ghost faults = { λ l. l.calls.faults };

    /// Fails exactly where the call is listed. It is for any address.
    fn listen(&mut self, _address: &str) -> Result<(), Failed>
        ensures fails { IsErr result ↔ IsToFail self.old.calls }
        ensures failed { OnErr result (self.new
            ≡ record self.old { calls = failed self.old.calls }) }
        ensures after { OnOk result (self.new
            ≡ record self.old { calls = succeeded self.old.calls }) }
    {
        if self.calls.is_to_fail() {
            self.calls.fail();
            return Err(Failed);
        }
        self.calls.succeed();
        Ok(())
    }

    /// Fails exactly where the call is listed, and then no link is lost. Else it gives the next link, and None exactly where the
    /// links are used up.
    fn accept(&mut self) -> Result<Option<MemLink>, Failed>
        ensures fails { IsErr result ↔ IsToFail self.old.calls }
        ensures failed { OnErr result (self.new
            ≡ record self.old { calls = failed self.old.calls }) }
        ensures after { IfOk result (λ link. Gives self.old link self.new) }
    {
        if self.calls.is_to_fail() {
            self.calls.fail();
            return Err(Failed);
        }
        self.calls.succeed();
        if self.links.is_empty() {
            self.met_end = true;
            return Ok(None);
        }
        self.given.add();
        Ok(Some(self.links.remove(0)))
    }
}
