// The recorder.
ghost use Rattle.std.specs.Prelude.{◌≡◌, ◌⊎◌, ◌<◌, ℕ, List, Option, Some, None, true, false, is_none, IfErr, IfOk, OnErr, OnOk};
ghost use Rattle.rg_base.specs.Listed.{Listed};
ghost use Rattle.rg_cmd.specs.declared.ask.Ask.{Ask};
ghost use Rattle.rg_admin_laws.specs.Logs.{Administration};
ghost use Rattle.rg_admin_laws.specs.Starts.{IsStart};
ghost use Rattle.rg_admin_laws.specs.Steps.{accepted, fault};
ghost use Rattle.rg_admin.specs.Starting.{start_fault, started};
ghost use Rattle.rg_ask_wire.specs.Keeping.{is_keeping};
ghost use Rattle.rg_keep.specs.Replay.{most_kept};
ghost use Rattle.rg_recorder.specs.Recorded.{IsHeld, IsKeptOr, IsUndone, Recorded};
ghost use Rattle.rg_recorder.specs.Recording.{Fails, IsNext, Keeps, Misses, Stays, Takes};

use crate::coming::Coming;
use crate::configured::Configured;
use rg_admin::{Admin, Recorder};
use rg_ask_wire::{is_keeping, print_ask};
use rg_base::{NoMemory, Seq};
use rg_cmd::Ask;
use rg_key_order::is_in_key_order;
use rg_record_store::{Keeper, KeeperFault};
use rg_threads::{Halt, HaltCause};
use std::alloc::Global;
use std::marker::{Model, PhantomData};
use std::sync::{Arc, Wait};

/// The most commands that are kept.
const MOST_KEPT: u64 = 1_000_000;

/// Follows the list of its keeper while the records are asked again, and adds to it once it is level. It stops where the keeper
/// fails, where an ask isn't the next one of the list, where as many are kept as may be, and where an ask that it took can't be done.
/// From then on it takes no ask but those that only look.
#[derive(Drop)]
pub struct ListRecorder<J: Configured, K: Keeper + Drop, W: Wait + Drop> {
    keeper: K,
    place: u64,
    next: Option<Seq<u8>>,
    is_stopped: bool,
    halt: Arc<Halt>,
    coming: Arc<Coming>,
    rt: W,
    of: PhantomData<J>,
}

impl<J: Configured, K: Keeper + Drop, W: Wait + Drop> Model for ListRecorder<J, K, W> {
    ghost use Rattle.std.specs.Prelude.{◌≡◌, false};
    ghost use Rattle.rg_recorder.specs.Recorded.{Recorded, Stands};

    ghost Value = { Recorded K };

    ghost view = { λ r. record {
      keeper = r.keeper;
      config = J.config;
      place = r.place;
      next = r.next;
      stopped = r.is_stopped;
    } };

    ghost invariant = { λ r. r.is_stopped ≡ false → Stands (K.kept r.keeper) r.place r.next };
}

/// The keeper, whose first record couldn't be had.
#[derive(Drop)]
pub struct Unopened<K: Drop> {
    pub keeper: K,
    pub cause: KeeperFault,
}

/// Puts a copy of the record that was found into the slot.
fn announce<W: Wait>(
    rt: &W,
    alloc: Global,
    coming: &Coming,
    found: &Option<Seq<u8>>,
) -> Result<(), NoMemory> {
    if let Some(bytes) = found {
        let copy = Vec::from_slice(alloc, bytes.as_slice())?;
        coming.put(rt, Seq::from_vec(copy));
    }
    Ok(())
}

/// Whether this is the next record.
fn is_next(next: &Option<Seq<u8>>, entry: &[u8]) -> bool
    ensures { result ≡ true → IsNext next.now entry.now }
{
    match next {
        None => false,
        Some(next) => entry == next.as_slice(),
    }
}

impl<J: Configured, K: Keeper + Drop, W: Wait + Drop> ListRecorder<J, K, W> {
    /// Over a list that the configuration began, before its first record, which is put into the slot. The keeper comes back where
    /// that record can't be had.
    pub fn new(
        rt: W,
        alloc: Global,
        keeper: K,
        halt: Arc<Halt>,
        coming: Arc<Coming>,
    ) -> Result<ListRecorder<J, K, W>, Unopened<K>>
        requires starts { IsStart (started J.config) }
        requires lawful { start_fault J.config ≡ None }
        ensures held { IfOk result (λ r. IsHeld K.kept r (started J.config)) }
        ensures same { IfOk result (λ r. K.kept r.keeper ≡ K.kept keeper) }
        ensures going { IfOk result (λ r. (r.place ≡ 0) × (r.stopped ≡ false)) }
        ensures back { IfErr result (λ u. K.kept u.keeper ≡ K.kept keeper) }
        ensures failed { IfErr result (λ u. u.cause ≡ KeeperFault.Failed
            → K.faults keeper < K.faults u.keeper) }
    {
        let mut keeper = keeper;
        let next = match keeper.fetch(alloc, 0) {
            Ok(next) => next,
            Err(cause) => return Err(Unopened { keeper, cause }),
        };
        if announce(&rt, alloc, &coming, &next).is_err() {
            return Err(Unopened {
                keeper,
                cause: KeeperFault::NoMemory,
            });
        }
        Ok(ListRecorder {
            keeper,
            place: 0,
            next,
            is_stopped: false,
            halt,
            coming,
            rt,
            of: PhantomData,
        })
    }

    /// Whether it has passed by all records of the list, so that it adds to it.
    pub fn is_level(&self) -> bool
        ensures { result ≡ is_none self.now.next }
    {
        self.next.is_none()
    }

    /// How many records it has passed by or kept.
    pub fn kept(&self) -> u64
        ensures { result ≡ self.now.place }
    {
        self.place
    }

    /// Whether it takes no more changes.
    pub fn has_stopped(&self) -> bool
        ensures { result ≡ self.now.stopped }
    {
        self.is_stopped
    }

    /// The keeper.
    pub fn into_keeper(self) -> K
        ensures { result ≡ self.keeper }
    {
        let ListRecorder {
            keeper,
            place: _,
            next: _,
            is_stopped: _,
            halt: _,
            coming: _,
            rt: _,
            of: _,
        } = self;
        keeper
    }

    /// Takes no more changes.
    fn halt(&mut self, cause: HaltCause)
        ensures { self.new ≡ record self.old { stopped = true } }
    {
        self.is_stopped = true;
        self.halt.set(cause);
    }

    /// Passes by the next record of the list. The one behind it is had before the place moves.
    fn pass_by(&mut self, alloc: Global) -> Result<(), NoMemory>
        requires going { self.old.stopped ≡ false }
        requires behind { is_none self.old.next ≡ false }
        requires room { self.old.place < most_kept }
        ensures ok { OnOk result ((entry : List ℕ)
            → IsNext self.old.next entry → Takes K.kept self.old entry self.new) }
        ensures err { OnErr result (Stays K.kept self.old self.new) }
    {
        let place = self.place + 1;
        match self.keeper.fetch(alloc, place) {
            Ok(found) => {
                announce(&self.rt, alloc, &self.coming, &found)?;
                self.place = place;
                self.next = found;
                Ok(())
            }
            Err(KeeperFault::NoMemory) => Err(NoMemory),
            Err(KeeperFault::Failed) => {
                self.is_stopped = true;
                self.halt.set(HaltCause::Failed);
                Err(NoMemory)
            }
        }
    }

    /// Adds a record to the list.
    fn add(&mut self, alloc: Global, entry: &[u8]) -> Result<(), NoMemory>
        requires going { self.old.stopped ≡ false }
        requires level { is_none self.old.next ≡ true }
        requires room { self.old.place < most_kept }
        ensures ok { OnOk result (Takes K.kept self.old entry.now self.new) }
        ensures err { OnErr result (Misses K.kept self.old entry.now self.new) }
    {
        match self.keeper.append(alloc, entry) {
            Ok(()) => {
                self.place += 1;
                Ok(())
            }
            Err(_) => {
                self.is_stopped = true;
                self.halt.set(HaltCause::Failed);
                Err(NoMemory)
            }
        }
    }

    /// Passes a record by, or adds it.
    fn take(&mut self, alloc: Global, entry: &[u8]) -> Result<(), NoMemory>
        requires going { self.old.stopped ≡ false }
        requires room { self.old.place < most_kept }
        ensures ok { OnOk result (Takes K.kept self.old entry.now self.new) }
        ensures err { OnErr result (Misses K.kept self.old entry.now self.new) }
    {
        if self.is_level() {
            return self.add(alloc, entry);
        }
        if !is_next(&self.next, entry) {
            self.coming.stray();
            self.halt(HaltCause::Failed);
            return Err(NoMemory);
        }
        self.pass_by(alloc)
    }

    /// Keeps an ask. Where memory is refused before it is handed on, it goes on.
    fn keep(&mut self, alloc: Global, ask: &Ask) -> Result<(), NoMemory>
        requires keeps { is_keeping ask.now.command ≡ true }
        requires going { self.old.stopped ≡ false }
        ensures going { self.old.stopped ≡ false }
        ensures ok { OnOk result (Keeps K.kept self.old ask.now self.new) }
        ensures err { OnErr result (Fails K.kept self.old ask.now self.new) }
    {
        if self.place >= MOST_KEPT {
            self.halt(HaltCause::Full);
            return Err(NoMemory);
        }
        let entry = print_ask(alloc, ask)?;
        if !is_in_key_order(ask) {
            self.coming.stray();
            self.halt(HaltCause::Failed);
            return Err(NoMemory);
        }
        self.take(alloc, entry.as_str().as_bytes())
    }
}

impl<J: Configured, K: Keeper + Drop, W: Wait + Drop> Recorder for ListRecorder<J, K, W> {
    ghost use Rattle.rg_recorder.specs.Recorded.{IsHeld, IsUndone, seen};
    ghost use Rattle.rg_recorder.specs.Refusals.{held_refused};

    ghost holds = { λ r a. IsHeld K.kept r a };

    ghost undoes = { λ r a. IsUndone K.kept r a };

    ghost refusals_count_for_nothing = { λ r a is.
        held_refused r.stopped (seen (K.kept r.keeper) r.place r.next) r.config a is };

    fn record(&mut self, alloc: Global, ask: &Ask) -> Result<(), NoMemory> {
        if !is_keeping(&ask.command) {
            return Ok(());
        }
        if self.is_stopped {
            return Err(NoMemory);
        }
        self.keep(alloc, ask)
    }

    fn stop(&mut self) {
        self.halt(HaltCause::Failed);
    }
}

/// The recorder of an administration that is taken apart. Once it is level, its whole list is reopened as the administration; where it
/// has stopped, the list may have one record more, which was never acknowledged.
pub fn recorder_of<J: Configured, K: Keeper + Drop, W: Wait + Drop>(
    admin: Admin<ListRecorder<J, K, W>>,
) -> ListRecorder<J, K, W>
    ensures held { IsHeld K.kept result admin }
    ensures level { is_none result.next ≡ true
        → IsKeptOr result.stopped (K.kept result.keeper) J.config admin }
{
    admin.into_recorder()
}
