// A list that grows at its end, where there is memory.
ghost use Rattle.std.specs.Prelude.{◌≡◌, [], ◌≤◌, ◌<◌, ◌==◌, IfErr, IfOk, OnOk, OnErr, IsOk, length, max, if◌then◌else◌};
ghost use Rattle.rg_base.specs.Listed.{Listed, listed, added};

use crate::copies::TryCopy;
use crate::numbers::NoMemory;
use std::alloc::Global;
use std::marker::Model;

/// Items in order. Contracts see the items, and beside them how many pushes are known to succeed.
#[derive(Drop)]
pub struct Seq<T> {
    held: Vec<T>,
    // Whether a place was reserved and not used since.
    ready: bool,
}

impl<T> Model for Seq<T> {
    ghost use Rattle.std.specs.Prelude.{◌≡◌, true, ◌<◌, vec_len, vec_capacity, if◌then◌else◌};
    ghost use Rattle.rg_base.specs.Listed.{Listed};

    ghost Value = { Listed T };

    ghost view = { λ s. record { items = s.held.items; spare = (if s.ready then 1 else 0) } };

    ghost invariant = { λ s. s.ready ≡ true → vec_len s.held < vec_capacity s.held };
}

impl<T> Seq<T> {
    /// No items. It takes no memory, and keeps the allocator for later pushes.
    pub fn new(alloc: Global) -> Seq<T>
        ensures { result ≡ listed [] }
    {
        Seq::from_vec(Vec::new(alloc))
    }

    /// These items. It takes no memory.
    pub fn from_vec(items: Vec<T>) -> Seq<T>
        ensures { result ≡ listed items.items }
    {
        Seq {
            held: items,
            ready: false,
        }
    }

    /// The items. It takes no memory.
    pub fn into_vec(self) -> Vec<T>
        ensures { result.items ≡ self.items }
    {
        let Seq { held, ready: _ } = self;
        held
    }

    /// Adds an item at the end. The item comes back where memory is refused, which never is where a place is spare.
    pub fn push(&mut self, item: T) -> Result<(), T>
        ensures ok { OnOk result (self.new ≡ added self.old item) }
        ensures err { IfErr result (λ back. (back ≡ item) × (self.new ≡ self.old)) }
        ensures spare { 0 < self.old.spare → IsOk result }
    {
        if !self.ready {
            if self.held.try_reserve(1).is_err() {
                return Err(item);
            }
        }
        self.ready = false;
        match self.held.push(item) {
            Ok(()) => Ok(()),
            Err(_) => unreachable!(),
        }
    }

    /// Adds an item at the end. The item is dropped where memory is refused, and the list stays as it is.
    pub fn add(&mut self, item: T) -> Result<(), NoMemory>
    where
        T: Drop,
        ensures ok { OnOk result (self.new ≡ added self.old item) }
        ensures err { OnErr result (self.new ≡ self.old) }
        ensures spare { 0 < self.old.spare → IsOk result }
    {
        match self.push(item) {
            Ok(()) => Ok(()),
            Err(_) => Err(NoMemory),
        }
    }

    /// Sees to it that the next push succeeds.
    pub fn reserve(&mut self) -> Result<(), NoMemory>
        ensures items { self.new.items ≡ self.old.items }
        ensures ok { OnOk result (self.new.spare ≡ max self.old.spare 1) }
        ensures err { OnErr result (self.new ≡ self.old) }
    {
        self.held.try_reserve(1)?;
        self.ready = true;
        Ok(())
    }

    /// Whether a place is reserved, so that the next push succeeds. There never is more than one.
    pub fn is_reserved(&self) -> bool
        ensures { self.now.spare ≡ (if result then 1 else 0) }
    {
        self.ready
    }

    /// How many items there are.
    pub fn len(&self) -> usize
        ensures { result ≡ length self.now.items }
    {
        self.held.len()
    }

    /// Whether there is no item.
    pub fn is_empty(&self) -> bool
        ensures { result ≡ (length self.now.items == 0) }
    {
        self.held.is_empty()
    }

    /// The items.
    pub fn as_slice(&self) -> &[T]
        ensures { result.now ≡ self.now.items }
    {
        self.held.as_slice()
    }
}

impl<T: TryCopy + Drop> TryCopy for Seq<T> {
    fn try_copy(&self, alloc: Global) -> Result<Seq<T>, NoMemory> {
        // As much room as the items take: a list that grows by pushes keeps up to twice that.
        let mut copy = Seq::from_vec(Vec::with_capacity(alloc, self.len())?);
        for item in self.as_slice() {
            copy.add(item.try_copy(alloc)?)?;
        }
        if self.ready {
            copy.reserve()?;
        }
        Ok(copy)
    }
}
