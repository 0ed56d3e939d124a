// A source in memory.
ghost use Rattle.std.specs.Prelude.{◌≡◌, ◌<◌, ◌≤◌, ◌↔◌, ◌++◌, false, All, drop, length, min, take, [], IfOk, IsErr, OnErr};
ghost use Rattle.rg_base.specs.Listed.{Listed};
ghost use Rattle.rg_ports.specs.Calls.{IsToFail, failed, moves, untouched};
ghost use Rattle.rg_ports.specs.Memory.{SourceState, after_read};

use crate::calls::Calls;
use crate::ports::Source;
use crate::unread::Unread;
use rg_base::{Failed, Seq};
use std::marker::Model;

/// Bytes in memory.
#[derive(Drop)]
pub struct MemSource {
    bytes: Unread,
    calls: Calls,
}

impl Model for MemSource {
    ghost use Rattle.rg_ports.specs.Memory.{SourceState};

    ghost Value = { SourceState };

    ghost view = { λ s. record { left = s.bytes.left; ended = s.bytes.ended; calls = s.calls } };
}

impl MemSource {
    /// Gives these bytes. `pieces` lists the most bytes that each call moves, in turn, a call that fails included; the last
    /// size repeats, and an empty list sets no bound. No size is 0. `fails` lists the calls that are to fail, all calls being
    /// counted from 1.
    pub fn new(bytes: Seq<u8>, pieces: Seq<u32>, fails: Seq<u64>) -> MemSource
        requires { All (λ size. 0 < size) pieces.items }
        ensures { result ≡ record {
          left = bytes.items;
          ended = false;
          calls = untouched pieces.items fails.items;
        } }
    {
        MemSource {
            bytes: Unread::new(bytes),
            calls: Calls::new(pieces, fails),
        }
    }
}

impl Source for MemSource {
    ghost use Rattle.std.specs.Prelude.{Some};

    ghost left = { λ s. Some s.left };

    ghost ended = { λ s. s.ended };

    ghost faults = { λ s. s.calls.faults };

    /// Fails exactly where the call is listed, and else moves as many bytes as the call's size, the room and the bytes to come
    /// allow. The rest of the room stays as it was, and all of it after `Failed`.
    fn read(&mut self, room: &mut [u8]) -> Result<usize, Failed>
        ensures fails { IsErr result ↔ IsToFail self.old.calls }
        ensures failed { OnErr result (self.new
            ≡ record self.old { calls = failed self.old.calls }) }
        ensures room { OnErr result (room.new ≡ room.old) }
        ensures moved { IfOk result
            (λ n. n ≡ moves self.old.calls (min (length room.old) (length self.old.left))) }
        ensures gave { IfOk result (λ n. room.new ≡ take n self.old.left ++ drop n room.old) }
        ensures used_up { IfOk result (λ n. n ≡ 0
            → 0 < length room.old → length self.old.left ≡ 0) }
        ensures steady { self.old.calls.fails ≡ [] → self.new.calls.faults ≡ self.old.calls.faults }
        ensures after { IfOk result (λ n. self.new ≡ after_read (length room.old) n self.old) }
    {
        self.bytes.read(&mut self.calls, room)
    }
}
