// Bytes in memory that are read in order, by a source or a link.
ghost use Rattle.std.specs.Prelude.{◌≡◌, ◌<◌, ◌≤◌, ◌↔◌, ◌++◌, false, drop, length, min, take, IfOk, IsErr, OnErr};
ghost use Rattle.rg_base.specs.Listed.{Listed};
ghost use Rattle.rg_ports.specs.Calls.{IsToFail, failed, moves, succeeded};
ghost use Rattle.rg_ports.specs.Memory.{UnreadState, after_reading};

use crate::calls::Calls;
use rg_base::{Failed, Seq};
use std::cmp;
use std::marker::Model;

/// Bytes to come, and whether a read has met their end.
#[derive(Drop)]
pub struct Unread {
    bytes: Seq<u8>,
    at: usize,
    met_end: bool,
}

impl Model for Unread {
    ghost use Rattle.std.specs.Prelude.{◌≤◌, length, drop};
    ghost use Rattle.rg_ports.specs.Memory.{UnreadState};

    ghost Value = { UnreadState };

    ghost view = { λ u. record { left = drop u.at u.bytes.items; ended = u.met_end } };

    ghost invariant = { λ u. u.at ≤ length u.bytes.items };
}

// Puts the bytes into the front of the room.
fn put_front(room: &mut [u8], bytes: &[u8])
    requires { length bytes.now ≤ length room.old }
    ensures { room.new ≡ bytes.now ++ drop (length bytes.now) room.old }
{
    room[..bytes.len()].copy_from_slice(bytes);
}

impl Unread {
    /// All of these bytes are to come.
    pub fn new(bytes: Seq<u8>) -> Unread
        ensures { result ≡ record { left = bytes.items; ended = false } }
    {
        Unread {
            bytes,
            at: 0,
            met_end: false,
        }
    }

    /// One read, as the calls have it: it fails exactly where the call is listed, and else moves as many bytes as the call's
    /// size, the room and the bytes to come allow.
    pub fn read(&mut self, calls: &mut Calls, room: &mut [u8]) -> Result<usize, Failed>
        ensures fails { IsErr result ↔ IsToFail calls.old }
        ensures failed { OnErr result ((self.new ≡ self.old) × (calls.new ≡ failed calls.old)) }
        ensures room { OnErr result (room.new ≡ room.old) }
        ensures moved { IfOk result
            (λ n. n ≡ moves calls.old (min (length room.old) (length self.old.left))) }
        ensures gave { IfOk result (λ n. room.new ≡ take n self.old.left ++ drop n room.old) }
        ensures used_up { IfOk result (λ n. n ≡ 0
            → 0 < length room.old → length self.old.left ≡ 0) }
        ensures after { IfOk result (λ n. self.new ≡ after_reading (length room.old) n self.old) }
        ensures succeeded { IfOk result (λ n. calls.new ≡ succeeded calls.old) }
    {
        if calls.is_to_fail() {
            calls.fail();
            return Err(Failed);
        }
        let rest = self.bytes.as_slice().split_at(self.at).1;
        let n = calls.moves(cmp::min(room.len(), rest.len()));
        put_front(room, rest.split_at(n).0);
        if n == 0 && !room.is_empty() {
            self.met_end = true;
        }
        self.at += n;
        calls.succeed();
        Ok(n)
    }
}
