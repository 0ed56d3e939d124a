// The outside, as the program sees it: where bytes come from, where they go, where links come from, and the time.
ghost use Rattle.std.specs.Prelude.{◌≡◌, ◌≤◌, ◌<◌, ◌+◌, ◌==◌, ◌||◌, ◌&&◌, ℕ, List, length, Bool, true, nat_lt, Option, MatchOption, option_to_list, IfOk, OnOk, OnErr};
ghost use Rattle.rg_base.specs.declared.numbers.Moment.{Moment};
ghost use Rattle.rg_ports.specs.Bytes.{Gave, IsUsedUp, Took};
ghost use Rattle.rg_ports.specs.Moments.{Told};

use rg_base::{Failed, Moment};

/// Bytes that come from outside, in order. The count of its faults rises where a call fails, and stands still where it succeeds.
pub trait Source {
    /// The bytes to come, where the object tells them.
    ghost left: { Self → Option (List ℕ) };

    /// Whether a read has met the end.
    ghost ended: { Self → Bool };

    /// How many calls failed.
    ghost faults: { Self → ℕ };

    /// Puts the next bytes into the front of the room and says how many they are. It gives 0 for a room that isn't empty
    /// at the end alone. After `Failed` no byte is lost, and what stands in the room is left open.
    fn read(&mut self, room: &mut [u8]) -> Result<usize, Failed>
        ensures within { IfOk result (λ n. n ≤ length room.old) }
        ensures gave { IfOk result (λ n. Gave (left self.old) (left self.new) n room.new) }
        ensures ended { IfOk result
            (λ n. ended self.new ≡ (ended self.old || (n == 0 && nat_lt 0 (length room.old)))) }
        ensures used_up { IfOk result (λ n. n ≡ 0
            → 0 < length room.old → IsUsedUp (left self.old)) }
        ensures kept { OnOk result (faults self.new ≡ faults self.old) }
        ensures failed { OnErr result (faults self.old < faults self.new) }
        ensures unread { OnErr result ((left self.new ≡ left self.old)
            × (ended self.new ≡ ended self.old)) };
}

/// Where bytes go, in order. The count of its faults rises where a call fails, and stands still where it succeeds.
pub trait Sink {
    /// The bytes taken, where the object tells them.
    ghost held: { Self → Option (List ℕ) };

    /// How many calls failed.
    ghost faults: { Self → ℕ };

    /// Takes bytes from the front of the piece, at least one of a piece that isn't empty, and says how many it took.
    /// After `Failed` it has taken none of them.
    fn write(&mut self, piece: &[u8]) -> Result<usize, Failed>
        ensures within { IfOk result (λ n. n ≤ length piece.now) }
        ensures some { IfOk result (λ n. 0 < length piece.now → 0 < n) }
        ensures took { IfOk result (λ n. Took (held self.old) (held self.new) n piece.now) }
        ensures kept { OnOk result (faults self.new ≡ faults self.old) }
        ensures failed { OnErr result (faults self.old < faults self.new) }
        ensures unwritten { OnErr result (held self.new ≡ held self.old) };
}

/// A way to a client, by which bytes come and go, each kind in its order. One count is kept of the failures of both kinds of
/// call: it rises where a call fails, and stands still where it succeeds.
pub trait Link: Send {
    /// The bytes to come, where the object tells them.
    ghost left: { Self → Option (List ℕ) };

    /// The bytes taken, where the object tells them.
    ghost held: { Self → Option (List ℕ) };

    /// Whether a read has met the end.
    ghost ended: { Self → Bool };

    /// How many calls failed.
    ghost faults: { Self → ℕ };

    /// Puts the next bytes into the front of the room and says how many they are. It gives 0 for a room that isn't empty
    /// at the end alone. After `Failed` no byte is lost, and what stands in the room is left open.
    fn read(&mut self, room: &mut [u8]) -> Result<usize, Failed>
        ensures within { IfOk result (λ n. n ≤ length room.old) }
        ensures gave { IfOk result (λ n. Gave (left self.old) (left self.new) n room.new) }
        ensures ended { IfOk result
            (λ n. ended self.new ≡ (ended self.old || (n == 0 && nat_lt 0 (length room.old)))) }
        ensures used_up { IfOk result (λ n. n ≡ 0
            → 0 < length room.old → IsUsedUp (left self.old)) }
        ensures kept { OnOk result (faults self.new ≡ faults self.old) }
        ensures failed { OnErr result (faults self.old < faults self.new) }
        ensures unread { OnErr result ((left self.new ≡ left self.old)
            × (ended self.new ≡ ended self.old)) }
        ensures unwritten { held self.new ≡ held self.old };

    /// Takes bytes from the front of the piece, at least one of a piece that isn't empty, and says how many it took.
    /// After `Failed` it has taken none of them.
    fn write(&mut self, piece: &[u8]) -> Result<usize, Failed>
        ensures within { IfOk result (λ n. n ≤ length piece.now) }
        ensures some { IfOk result (λ n. 0 < length piece.now → 0 < n) }
        ensures took { IfOk result (λ n. Took (held self.old) (held self.new) n piece.now) }
        ensures kept { OnOk result (faults self.new ≡ faults self.old) }
        ensures failed { OnErr result (faults self.old < faults self.new) }
        ensures unwritten { OnErr result (held self.new ≡ held self.old) }
        ensures unread { (left self.new ≡ left self.old) × (ended self.new ≡ ended self.old) };
}

/// Where links come from, one after another. The count of its faults rises where a call fails, and stands still where it succeeds.
pub trait Listener {
    /// A link that it gives.
    type Link: Link + Drop;

    /// How many links were given.
    ghost given: { Self → ℕ };

    /// Whether an accept found that no link is to come.
    ghost ended: { Self → Bool };

    /// How many calls failed.
    ghost faults: { Self → ℕ };

    /// Makes ready for links at this address, as `127.0.0.1:6080`.
    fn listen(&mut self, address: &str) -> Result<(), Failed>
        ensures kept { OnOk result (faults self.new ≡ faults self.old) }
        ensures failed { OnErr result (faults self.old < faults self.new) }
        ensures same { (given self.new ≡ given self.old) × (ended self.new ≡ ended self.old) };

    /// The next link; None where no link is to come.
    fn accept(&mut self) -> Result<Option<Self::Link>, Failed>
        ensures given { IfOk result
            (λ link. given self.new ≡ given self.old + length (option_to_list link)) }
        ensures ended { IfOk result (λ link. MatchOption link (ended self.new ≡ true)
            (λ _. ended self.new ≡ ended self.old)) }
        ensures kept { OnOk result (faults self.new ≡ faults self.old) }
        ensures failed { OnErr result (faults self.old < faults self.new) }
        ensures unaccepted { OnErr result
            ((given self.new ≡ given self.old) × (ended self.new ≡ ended self.old)) };
}

/// The time. It can't fail.
pub trait Clock: Send {
    /// The moments given so far, in order, where the object tells them.
    ghost given: { Self → Option (List Moment) };

    /// The moment of this call. Moments may repeat, and may go back.
    fn now(&mut self) -> Moment
        ensures { Told (given self.old) (given self.new) result };
}
