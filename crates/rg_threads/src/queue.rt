// A queue that waits, and can be closed. Each item in it is one of an amount of a ledger.
ghost use Rattle.std.specs.Prelude.{◌≡◌, ◌≤◌, ◌<◌, ◌+◌, IfNone, IfSome, OnErr, OnOk};
ghost use Rattle.std.specs.VecDeque.{deque_capacity, deque_len};

use rg_base::NoMemory;
use std::alloc::Global;
use std::collections::VecDeque;
use std::sync::ledger::{Ledger, Share};
use std::sync::{Condvar, Mutex, Wait};

/// How many items wait at most.
const PLACES: usize = 64;

/// The items that wait, with a share of one part that has as much as there are items. Its room was taken at the start.
#[derive(Drop)]
pub struct Waiting<L: Ledger, T> {
    pub items: VecDeque<T>,
    pub is_closed: bool,
    pub share: Share<L>,
    ghost room: { 64 ≤ deque_capacity items },
    pub ghost counted: { share.amount ≡ deque_len items },
    pub ghost part: { share.parts ≡ 1 },
}

impl<L: Ledger, T: Drop> Waiting<L, T> {
    fn new(alloc: Global, share: Share<L>) -> Result<Waiting<L, T>, NoMemory>
        requires { (share.parts ≡ 1) × (share.amount ≡ 0) }
    {
        match VecDeque::with_capacity(alloc, PLACES) {
            Ok(items) => Ok(Waiting {
                items,
                is_closed: false,
                share,
            }),
            Err(_) => Err(NoMemory),
        }
    }

    /// Puts an item behind the others, with one of the amount. It takes no memory.
    fn push(&mut self, item: T, mine: &mut Share<L>)
        requires room { deque_len self.old.items < 64 }
        requires mine { (0 < mine.old.parts) × (1 ≤ mine.old.amount) }
        ensures parts { mine.new.parts ≡ mine.old.parts }
        ensures amount { mine.new.amount + 1 ≡ mine.old.amount }
    {
        let Waiting {
            items,
            is_closed: _,
            share,
        } = self;
        let Ok(()) = items.push_back(item) else {
            unreachable!()
        };
        mine.transfer(share, 1);
    }

    /// Takes the first item, with one of the amount. None where there is no item.
    pub fn pop(&mut self, mine: &mut Share<L>) -> Option<T>
        requires { 0 < mine.old.parts }
        ensures parts { mine.new.parts ≡ mine.old.parts }
        ensures some { IfSome result (λ _. mine.new.amount ≡ mine.old.amount + 1) }
        ensures fewer { IfSome result (λ _. self.new.share.amount + 1 ≡ self.old.share.amount) }
        ensures none { IfNone result (mine.new.amount ≡ mine.old.amount) }
        ensures empty { IfNone result (self.new.share.amount ≡ 0) }
    {
        let Waiting {
            items,
            is_closed: _,
            share,
        } = self;
        match items.pop_front() {
            Some(item) => {
                share.transfer(mine, 1);
                Some(item)
            }
            None => None,
        }
    }
}

/// Items that threads hand to each other, in order, at most 64 at a time. Its memory is taken once.
#[derive(Drop)]
pub struct Queue<L: Ledger, T> {
    waiting: Mutex<Waiting<L, T>>,
    changed: Condvar,
}

impl<L: Ledger, T: Drop> Queue<L, T> {
    /// An open queue with no items.
    pub fn new(alloc: Global, share: Share<L>) -> Result<Queue<L, T>, NoMemory>
        requires { (share.parts ≡ 1) × (share.amount ≡ 0) }
    {
        Ok(Queue {
            waiting: Mutex::new(Waiting::new(alloc, share)?),
            changed: Condvar::new(),
        })
    }

    /// Puts an item in, with one of the amount. Where all places are taken it waits for room. Once the queue is closed the item
    /// comes back.
    pub fn push<R: Wait>(&self, rt: &R, item: T, mine: &mut Share<L>) -> Result<(), T>
        requires { (0 < mine.old.parts) × (1 ≤ mine.old.amount) }
        ensures parts { mine.new.parts ≡ mine.old.parts }
        ensures put { OnOk result (mine.new.amount + 1 ≡ mine.old.amount) }
        ensures back { OnErr result (mine.new.amount ≡ mine.old.amount) }
    {
        let mut waiting = self.changed.wait_while(rt, self.waiting.lock(rt), |w| {
            w.items.len() >= PLACES && !w.is_closed
        });
        if waiting.is_closed {
            return Err(item);
        }
        waiting.push(item, mine);
        self.changed.notify_all();
        Ok(())
    }

    /// Takes the first item, with one of the amount, and waits for one. None once the queue is closed and has no items.
    pub fn take<R: Wait>(&self, rt: &R, mine: &mut Share<L>) -> Option<T>
        requires { 0 < mine.old.parts }
        ensures parts { mine.new.parts ≡ mine.old.parts }
        ensures some { IfSome result (λ _. mine.new.amount ≡ mine.old.amount + 1) }
        ensures none { IfNone result (mine.new.amount ≡ mine.old.amount) }
    {
        let mut waiting = self.changed.wait_while(rt, self.waiting.lock(rt), |w| {
            w.items.is_empty() && !w.is_closed
        });
        let item = waiting.pop(mine);
        self.changed.notify_all();
        item
    }

    /// No item is put in any more.
    pub fn close<R: Wait>(&self, rt: &R) {
        let mut waiting = self.waiting.lock(rt);
        waiting.is_closed = true;
        self.changed.notify_all();
    }

    /// What is still in it.
    pub fn into_rest(self) -> Waiting<L, T> {
        let Queue {
            waiting,
            changed: _,
        } = self;
        waiting.into_inner()
    }
}
