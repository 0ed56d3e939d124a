// A sink in memory.
ghost use Rattle.std.specs.Prelude.{◌≡◌, ◌<◌, ◌≤◌, ◌++◌, take, length, All, IfOk, IsErr, OnErr};
ghost use Rattle.rg_base.specs.Listed.{Listed};
ghost use Rattle.rg_ports.specs.Calls.{IsToFail, failed, moves, untouched};
ghost use Rattle.rg_ports.specs.Memory.{SinkState, after_write};

use crate::calls::Calls;
use crate::ports::Sink;
use crate::taking::take_bytes;
use rg_base::{Failed, Seq};
use std::marker::Model;

/// Bytes that are kept in memory.
#[derive(Drop)]
pub struct MemSink {
    bytes: Seq<u8>,
    calls: Calls,
}

impl Model for MemSink {
    ghost use Rattle.rg_ports.specs.Memory.{SinkState};

    ghost Value = { SinkState };

    ghost view = { λ s. record { held = s.bytes.items; calls = s.calls } };
}

impl MemSink {
    /// Keeps bytes behind those of `held`, which is handed in empty, and takes memory from the allocator of that list.
    /// `pieces` lists the most bytes that each call moves, in turn, a call that fails included; the last size repeats, and an
    /// empty list sets no bound. No size is 0. `fails` lists the calls that are to fail, all calls being counted from 1.
    pub fn new(held: Seq<u8>, pieces: Seq<u32>, fails: Seq<u64>) -> MemSink
        requires { All (λ size. 0 < size) pieces.items }
        ensures { result
            ≡ record { held = held.items; calls = untouched pieces.items fails.items } }
    {
        MemSink {
            bytes: held,
            calls: Calls::new(pieces, fails),
        }
    }

    /// The bytes taken.
    pub fn held(&self) -> &[u8]
        ensures { result.now ≡ self.now.held }
    {
        self.bytes.as_slice()
    }
}

impl Sink for MemSink {
    ghost use Rattle.std.specs.Prelude.{Some};

    ghost held = { λ s. Some s.held };

    ghost faults = { λ s. s.calls.faults };

    /// Fails where the call is listed, or where there is no memory for even one byte of a piece that isn't empty. Else it takes
    /// as many bytes as the call's size allows, or fewer where there is no memory for all of them. No contract can say
    /// how much memory there is, so none says that it takes all that the size allows.
    fn write(&mut self, piece: &[u8]) -> Result<usize, Failed>
        ensures fails { IsToFail self.old.calls → IsErr result }
        ensures empty { length piece.now ≡ 0 → IsErr result → IsToFail self.old.calls }
        ensures failed { OnErr result (self.new
            ≡ record self.old { calls = failed self.old.calls }) }
        ensures within { IfOk result (λ n. n ≤ moves self.old.calls (length piece.now)) }
        ensures some { IfOk result (λ n. 0 < length piece.now → 0 < n) }
        ensures after { IfOk result (λ n. self.new ≡ after_write piece.now n self.old) }
    {
        take_bytes(&mut self.bytes, &mut self.calls, piece)
    }
}
