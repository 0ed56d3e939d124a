// A keeper in memory.
ghost use Rattle.std.specs.Prelude.{◌≡◌, ◌-◌, ◌^◌, ◌+◌, ◌∷◌, ◌++◌, [], None, IfOk, IsErrOf, OnErr, OnOk, map, min, option_map, slice_get};
ghost use Rattle.rg_base.specs.Listed.{Listed};
ghost use Rattle.rg_record_store.specs.Memory.{MemState, IsFailed, after_call, after_fault, as_listed, failing, with_record};
ghost use Rattle.rg_record_store.specs.declared.mem_keeper.FailingCall.{FailingCall};

use crate::keeper::{Keeper, KeeperFault};
use rg_base::{NoMemory, Seq, Tally};
use std::alloc::Global;
use std::marker::Model;

/// A call that is to fail.
#[derive(Clone, Copy, Debug, PartialEq, Eq)]
pub struct FailingCall {
    /// All calls on the keeper being counted from 1.
    pub number: u64,
    /// Whether an `append` keeps its record all the same.
    pub keeps: bool,
}

/// Records that are kept in memory.
#[derive(Drop)]
pub struct MemKeeper {
    records: Seq<Seq<u8>>,
    fails: Seq<FailingCall>,
    made: u64,
    faults: Tally,
}

impl Model for MemKeeper {
    ghost use Rattle.std.specs.Prelude.{map};
    ghost use Rattle.rg_base.specs.Listed.{Listed};
    ghost use Rattle.rg_record_store.specs.Memory.{MemState};

    ghost Value = { MemState };

    ghost view = { λ k. record {
      kept = map (λ bytes. bytes.items) k.records.items;
      fails = k.fails.items;
      made = k.made;
      faults = k.faults.count;
    } };
}

impl MemKeeper {
    /// Keeps records behind these. `fails` lists the calls that are to fail; of two with one number the first counts.
    pub fn new(records: Seq<Seq<u8>>, fails: Seq<FailingCall>) -> MemKeeper
        ensures { result ≡ record {
          kept = map (λ bytes. bytes.items) records.items;
          fails = fails.items;
          made = 0;
          faults = 0;
        } }
    {
        MemKeeper {
            records,
            fails,
            made: 0,
            faults: Tally::zero(),
        }
    }

    /// The records.
    pub fn records(&self) -> &[Seq<u8>]
        ensures { map (λ bytes. bytes.items) result.now ≡ self.now.kept }
    {
        self.records.as_slice()
    }

    /// Counts a call, and says how it fails, where it is to fail.
    fn begin_call(&mut self) -> Option<FailingCall>
        ensures failing { result ≡ failing self.old }
        ensures counted { self.new ≡ after_call self.old }
    {
        self.made = self.made.saturating_add(1);
        let number = self.made;
        self.fails
            .as_slice()
            .iter()
            .copied()
            .find(|call| call.number == number)
    }

    /// Keeps the record behind the others.
    fn keep(&mut self, alloc: Global, entry: &[u8]) -> Result<(), NoMemory>
        ensures ok { OnOk result (self.new ≡ with_record entry.now self.old) }
        ensures err { OnErr result (self.new ≡ self.old) }
    {
        let bytes = Vec::from_slice(alloc, entry)?;
        self.records.add(Seq::from_vec(bytes))
    }

    /// Keeps the record where that is listed, and counts a fault.
    fn fail_to_keep(&mut self, alloc: Global, entry: &[u8], keeps: bool) -> Result<(), NoMemory>
        ensures ok { OnOk result (self.new
            ≡ record (as_listed keeps entry.now self.old) { faults = self.old.faults + 1 }) }
        ensures err { OnErr result (self.new ≡ self.old) }
    {
        if keeps {
            self.keep(alloc, entry)?;
        }
        self.faults.add();
        Ok(())
    }

    /// A copy of the record at the place.
    fn copy_at(&self, alloc: Global, place: u64) -> Result<Option<Seq<u8>>, NoMemory>
        ensures { IfOk result
            (λ found. option_map (λ bytes. bytes.items) found ≡ slice_get self.now.kept place) }
    {
        let Ok(place) = usize::try_from(place) else {
            return Ok(None);
        };
        match self.records.as_slice().get(place) {
            None => Ok(None),
            Some(bytes) => Ok(Some(Seq::from_vec(Vec::from_slice(alloc, bytes.as_slice())?))),
        }
    }
}

impl Keeper for MemKeeper {
    ghost use Rattle.std.specs.Prelude.{Some, length};
    ghost use Rattle.rg_record_store.specs.Memory.{HadBeen};
    ghost use Rattle.rg_record_store.specs.Prefixes.{had_been_now, only_now};

    ghost kept = { λ k. Some k.kept };

    ghost moment = { λ k. length k.kept };

    ghost left_since = { λ k t left. HadBeen k.kept t left };

    ghost faults = { λ k. k.faults };

    ghost counts_now = { λ k t records le told. had_been_now k.kept t records le told };

    ghost only_now = { λ k records left told had. only_now k.kept records left told had };

    /// Fails exactly where the call is listed, and then keeps the record or doesn't, as it is listed.
    fn append(&mut self, alloc: Global, entry: &[u8]) -> Result<(), KeeperFault>
        ensures fails { OnOk result (failing self.old ≡ None) }
        ensures after { OnOk result (self.new ≡ with_record entry.now (after_call self.old)) }
        ensures failed { IsErrOf result KeeperFault.Failed → IsFailed (failing self.old)
            (λ call. as_listed call.keeps entry.now (after_fault self.old)) self.new }
        ensures no_memory { IsErrOf result KeeperFault.NoMemory → self.new ≡ after_call self.old }
    {
        match self.begin_call() {
            None => Ok(self.keep(alloc, entry)?),
            Some(call) => {
                self.fail_to_keep(alloc, entry, call.keeps)?;
                Err(KeeperFault::Failed)
            }
        }
    }

    /// Fails exactly where the call is listed.
    fn fetch(&mut self, alloc: Global, place: u64) -> Result<Option<Seq<u8>>, KeeperFault>
        ensures fails { OnOk result (failing self.old ≡ None) }
        ensures found { IfOk result
            (λ found. option_map (λ bytes. bytes.items) found ≡ slice_get self.old.kept place) }
        ensures after { OnOk result (self.new ≡ after_call self.old) }
        ensures failed { IsErrOf result KeeperFault.Failed
            → IsFailed (failing self.old) (λ call. after_fault self.old) self.new }
        ensures no_memory { IsErrOf result KeeperFault.NoMemory → self.new ≡ after_call self.old }
    {
        match self.begin_call() {
            None => Ok(self.copy_at(alloc, place)?),
            Some(_) => {
                self.faults.add();
                Err(KeeperFault::Failed)
            }
        }
    }
}
