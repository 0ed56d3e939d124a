// A log of changes, which keeps the last 1,024.
ghost use Rattle.std.specs.Prelude.{◌≡◌, ◌<◌, ◌≤◌, ◌+◌, ◌-◌, [], Ok, IfErr, IsOk, OnOk, OnErr, max};
ghost use Rattle.std.specs.VecDeque.{deque_len};
ghost use Rattle.rg_delta.specs.Answers.{known_of};
ghost use Rattle.rg_delta.specs.Logs.{changes_since, last_kept, most_kept, noted, restarted};

use rg_base::{NoMemory, Version};
use std::alloc::Global;
use std::collections::VecDeque;
use std::collections::vec_deque::Iter;
use std::marker::Model;

/// How many changes a log keeps.
const MOST_KEPT: usize = 1024;

/// The version of a service, and the last of the changes that led to it. Contracts see both, and beside them how many
/// notes are known to succeed.
#[derive(Drop)]
pub struct DeltaLog<C> {
    version: u64,
    // The oldest first.
    kept: VecDeque<C>,
    // Whether a place was reserved and not used since.
    ready: bool,
}

impl<C> Model for DeltaLog<C> {
    ghost use Rattle.std.specs.Prelude.{◌≡◌, true, ◌<◌, ◌≤◌, if◌then◌else◌};
    ghost use Rattle.std.specs.VecDeque.{deque_len, deque_capacity};
    ghost use Rattle.rg_delta.specs.Logs.{Logged, most_kept};

    ghost Value = { Logged C };

    ghost view = { λ l. record {
      book = record { version = l.version; changes = l.kept.items };
      spare = (if l.ready then 1 else 0);
    } };

    ghost invariant = { λ l. (l.ready ≡ true → deque_len l.kept < deque_capacity l.kept)
        × (deque_len l.kept ≤ most_kept) };
}

/// Drops the oldest change of more than 1,024. No other change is moved.
fn trim<C: Drop>(kept: &mut VecDeque<C>)
    requires { deque_len kept.old ≤ most_kept + 1 }
    ensures items { kept.new.items ≡ last_kept kept.old.items }
    ensures few { deque_len kept.new ≤ most_kept }
{
    if kept.len() > MOST_KEPT {
        kept.pop_front();
    }
}

/// What a log knows of the changes after a version.
#[derive(Drop)]
pub enum Since<'a, C> {
    /// There is none: it is the present version.
    Unchanged,
    /// All changes after it, the oldest first.
    Changes(Iter<'a, C>),
    /// The changes aren't kept, or the version is a later one.
    Whole,
}

impl<C: Drop> DeltaLog<C> {
    /// A log at this version, without changes. It takes no memory.
    pub fn new(alloc: Global, version: Version) -> Result<DeltaLog<C>, NoMemory>
        ensures { result
            ≡ Ok (record { book = record { version = version.0; changes = [] }; spare = 0 }) }
    {
        Ok(DeltaLog {
            version: version.0,
            kept: VecDeque::new(alloc),
            ready: false,
        })
    }

    /// The version that the noted changes led to.
    pub fn version(&self) -> Version
        ensures { result ≡ record { 0 = self.now.book.version } }
    {
        Version(self.version)
    }

    /// Sees to it that the next note succeeds.
    pub fn reserve(&mut self) -> Result<(), NoMemory>
        ensures ok { OnOk result (self.new
            ≡ record { book = self.old.book; spare = max self.old.spare 1 }) }
        ensures err { OnErr result (self.new ≡ self.old) }
    {
        match self.kept.try_reserve(1) {
            Ok(()) => {
                self.ready = true;
                Ok(())
            }
            Err(_) => Err(NoMemory),
        }
    }

    /// Notes one more change, which raises the version by one. The oldest of more than 1,024 is dropped. The change comes
    /// back where memory is refused, which never is where a place is spare.
    pub fn note(&mut self, change: C) -> Result<(), C>
        ensures ok { OnOk result (self.new
            ≡ record { book = noted change self.old.book; spare = self.old.spare - 1 }) }
        ensures err { IfErr result (λ back. (back ≡ change) × (self.new ≡ self.old)) }
        ensures spare { 0 < self.old.spare → IsOk result }
    {
        if !self.ready {
            if self.kept.try_reserve(1).is_err() {
                return Err(change);
            }
        }
        self.ready = false;
        match self.kept.push_back(change) {
            Ok(()) => {}
            Err(_) => unreachable!(),
        }
        trim(&mut self.kept);
        self.version = self.version.saturating_add(1);
        Ok(())
    }

    /// Raises the version by one for a change that isn't noted, and drops all changes before it.
    pub fn restart(&mut self)
        ensures { self.new ≡ record { book = restarted self.old.book; spare = self.old.spare } }
    {
        self.kept.clear();
        self.version = self.version.saturating_add(1);
    }

    /// What is known of the changes after a version.
    pub fn since(&self, from: Option<Version>) -> Since<'_, C>
        ensures { known_of result ≡ changes_since self.now.book from }
    {
        let Some(Version(from)) = from else {
            return Since::Whole;
        };
        if from == self.version {
            return Since::Unchanged;
        }
        if from > self.version {
            return Since::Whole;
        }
        let after = self.version - from;
        let kept = self.kept.len();
        if after > kept as u64 {
            return Since::Whole;
        }
        Since::Changes(self.kept.range(kept - after as usize..))
    }
}
