// A link in memory.
ghost use Rattle.std.specs.Prelude.{◌≡◌, ◌<◌, ◌≤◌, ◌↔◌, ◌++◌, false, All, drop, length, min, take, [], IfOk, IsErr, OnErr};
ghost use Rattle.rg_base.specs.Listed.{Listed};
ghost use Rattle.rg_ports.specs.Calls.{IsToFail, failed, moves, untouched};
ghost use Rattle.rg_ports.specs.Memory.{LinkState, link_read, link_write};

use crate::calls::Calls;
use crate::ports::Link;
use crate::taking::take_bytes;
use crate::unread::Unread;
use rg_base::{Failed, Seq};
use std::marker::Model;

/// Bytes to come and bytes that are kept, both in memory.
#[derive(Drop)]
pub struct MemLink {
    bytes: Unread,
    held: Seq<u8>,
    calls: Calls,
}

impl Model for MemLink {
    ghost use Rattle.rg_ports.specs.Memory.{LinkState};

    ghost Value = { LinkState };

    ghost view = { λ l. record {
      left = l.bytes.left;
      ended = l.bytes.ended;
      held = l.held.items;
      calls = l.calls;
    } };
}

impl MemLink {
    /// Gives these bytes, and keeps others behind those of `held`, which is handed in empty, with memory from the allocator of
    /// that list. `pieces` lists the most bytes that each call moves, reads and writes in turn, a call that fails included; the
    /// last size repeats, and an empty list sets no bound. No size is 0. `fails` lists the calls that are to fail, all calls
    /// being counted from 1.
    pub fn new(bytes: Seq<u8>, held: Seq<u8>, pieces: Seq<u32>, fails: Seq<u64>) -> MemLink
        requires { All (λ size. 0 < size) pieces.items }
        ensures { result ≡ record {
          left = bytes.items;
          ended = false;
          held = held.items;
          calls = untouched pieces.items fails.items;
        } }
    {
        MemLink {
            bytes: Unread::new(bytes),
            held,
            calls: Calls::new(pieces, fails),
        }
    }

    /// The bytes taken.
    pub fn held(&self) -> &[u8]
        ensures { result.now ≡ self.now.held }
    {
        self.held.as_slice()
    }
}

impl Link for MemLink {
    ghost use Rattle.std.specs.Prelude.{Some};

    ghost left = { λ l. Some l.left };

    ghost held = { λ l. Some l.held };

    ghost ended = { λ l. l.ended };

    ghost faults = { λ l. l.calls.faults };

    /// Fails exactly where the call is listed, and else moves as many bytes as the call's size, the room and the bytes to come
    /// allow. The rest of the room stays as it was, and all of it after `Failed`.
    fn read(&mut self, room: &mut [u8]) -> Result<usize, Failed>
        ensures fails { IsErr result ↔ IsToFail self.old.calls }
        ensures failed { OnErr result (self.new
            ≡ record self.old { calls = failed self.old.calls }) }
        ensures room { OnErr result (room.new ≡ room.old) }
        ensures moved { IfOk result
            (λ n. n ≡ moves self.old.calls (min (length room.old) (length self.old.left))) }
        ensures gave { IfOk result (λ n. room.new ≡ take n self.old.left ++ drop n room.old) }
        ensures used_up { IfOk result (λ n. n ≡ 0
            → 0 < length room.old → length self.old.left ≡ 0) }
        ensures steady { self.old.calls.fails ≡ [] → self.new.calls.faults ≡ self.old.calls.faults }
        ensures after { IfOk result (λ n. self.new ≡ link_read (length room.old) n self.old) }
    {
        self.bytes.read(&mut self.calls, room)
    }

    /// Fails where the call is listed, or where there is no memory for even one byte of a piece that isn't empty. Else it takes
    /// as many bytes as the call's size allows, or fewer where there is no memory for all of them. No contract can say
    /// how much memory there is, so none says that it takes all that the size allows.
    fn write(&mut self, piece: &[u8]) -> Result<usize, Failed>
        ensures fails { IsToFail self.old.calls → IsErr result }
        ensures empty { length piece.now ≡ 0 → IsErr result → IsToFail self.old.calls }
        ensures failed { OnErr result (self.new
            ≡ record self.old { calls = failed self.old.calls }) }
        ensures within { IfOk result (λ n. n ≤ moves self.old.calls (length piece.now)) }
        ensures some { IfOk result (λ n. 0 < length piece.now → 0 < n) }
        ensures after { IfOk result (λ n. self.new ≡ link_write piece.now n self.old) }
    {
        take_bytes(&mut self.held, &mut self.calls, piece)
    }
}
