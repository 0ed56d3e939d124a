// The bytes that are read of a link, piece by piece.
ghost use Rattle.std.specs.Prelude.{◌≡◌, ◌≤◌, ◌<◌, ◌+◌, [], length, drop, max, true, false, IfOk, OnErr, MatchResult, Ok};
ghost use Rattle.rg_ports.specs.Bytes.{IsUsedUp};
ghost use Rattle.rg_http.specs.Answers.{Counts, piece_limit};
ghost use Rattle.rg_http.specs.Places.{Fills, Took};

use crate::message::FrameFault;
use rg_base::NoMemory;
use rg_ports::Link;
use std::alloc::Global;
use std::marker::Model;

/// The most bytes that one read brings. A body takes memory as its pieces come, and none by the length that is announced.
const PIECE_LIMIT: usize = 4096;

/// The bytes that were read and not taken out yet, and room for one piece, which is used again and again. Contracts see the bytes.
#[derive(Drop)]
pub struct Inbox {
    held: Vec<u8>,
    piece: Vec<u8>,
}

impl Model for Inbox {
    ghost use Rattle.std.specs.Prelude.{◌≡◌, ℕ, List, length};
    ghost use Rattle.rg_http.specs.Answers.{piece_limit};

    ghost Value = { List ℕ };

    ghost view = { λ i. i.held.items };

    ghost invariant = { λ i. length i.piece.items ≡ piece_limit };
}

impl Inbox {
    /// No byte was read.
    pub fn new(alloc: Global) -> Result<Inbox, NoMemory>
        ensures { IfOk result (λ i. i ≡ []) }
    {
        Ok(Inbox {
            held: Vec::new(alloc),
            piece: vec![in alloc; 0u8; PIECE_LIMIT]?,
        })
    }

    /// The bytes.
    pub fn bytes(&self) -> &[u8]
        ensures { result.now ≡ self.now }
    {
        self.held.as_slice()
    }

    /// Takes the first bytes out.
    pub fn remove_front(&mut self, n: usize)
        requires { n ≤ length self.old }
        ensures { self.new ≡ drop n self.old }
    {
        self.held.drain(..n);
    }

    /// Reads the link's next piece behind the bytes, for which memory is taken first. It answers false where the link has ended.
    pub fn take_piece<T: Link>(&mut self, link: &mut T) -> Result<bool, FrameFault>
        ensures took { Took (T.left link.old) (T.left link.new) self.old self.new }
        ensures more { result ≡ Ok true → length self.old < length self.new }
        ensures end { result ≡ Ok false → (T.ended link.new ≡ true)
            × (self.new ≡ self.old) × IsUsedUp (T.left link.new) }
        ensures none { OnErr result (self.new ≡ self.old) }
        ensures faults { MatchResult result (λ _. T.faults link.new ≡ T.faults link.old)
            (λ fault. Counts fault (T.faults link.old) (T.faults link.new)) }
        ensures unwritten { T.held link.new ≡ T.held link.old }
    {
        self.held.try_reserve(PIECE_LIMIT)?;
        let n = link.read(self.piece.as_mut_slice())?;
        match self.held.extend_from_slice(&self.piece[..n]) {
            Ok(()) => Ok(n > 0),
            Err(_) => unreachable!(),
        }
    }

    /// Reads until there are so many bytes. It answers false where the link has ended before.
    pub fn fill_to<T: Link>(&mut self, need: usize, link: &mut T) -> Result<bool, FrameFault>
        ensures fills { Fills need (T.left link.old) (T.left link.new) self.old self.new }
        ensures bounded { length self.new ≤ max (length self.old) (need + piece_limit) }
        ensures came { result ≡ Ok true → need ≤ length self.new }
        ensures end { result ≡ Ok false → (T.ended link.new ≡ true)
            × (length self.new < need) × IsUsedUp (T.left link.new) }
        ensures short { OnErr result (length self.new < need) }
        ensures faults { MatchResult result (λ _. T.faults link.new ≡ T.faults link.old)
            (λ fault. Counts fault (T.faults link.old) (T.faults link.new)) }
        ensures unwritten { T.held link.new ≡ T.held link.old }
    {
        while self.held.len() < need {
            if !self.take_piece(link)? {
                return Ok(false);
            }
        }
        Ok(true)
    }
}
