// What threads share: a bell, a queue and a clock.
ghost use Rattle.std.specs.Prelude.{◌≡◌};

use crate::printing::print_row;
use anyhow::Result;
use rg_base::{Moment, Seq};
use rg_ports::{Clock, ListClock};
use rg_session::Bell;
use rg_threads::{Queue, SharedClock};
use std::alloc::{AllocError, Global};
use std::marker::Brand;
use std::sync::ledger::{Blank, Book, Ledger, Share};
use std::sync::{Mutex, Wait};

/// So many rings are kept as one, and a bell that is shut keeps nobody waiting.
fn rung<R: Wait>(rt: &R, alloc: Global, rings: u32) -> Option<String> {
    let bell = Bell::new();
    for _ in 0..rings {
        bell.ring(rt);
    }
    let rung = bell.wait(rt);
    bell.shut(rt);
    let shut = bell.wait(rt);
    format!(in alloc; "{rung}, then {shut}").ok()
}

/// What gives items to a queue and takes them from it. Each item is one of the amount of a ledger.
#[derive(Drop)]
struct Hands<L: Ledger> {
    book: Book<L>,
    mine: Share<L>,
    ghost part: { mine.parts ≡ 1 },
}

impl<L: Ledger> Hands<L> {
    fn push<R: Wait>(&mut self, rt: &R, queue: &Queue<L, u32>, item: u32) -> Result<(), u32> {
        let Hands { book, mine } = self;
        book.add(mine, 1);
        queue.push(rt, item, mine)
    }

    fn tell_push<R: Wait>(
        &mut self,
        told: &mut String,
        rt: &R,
        queue: &Queue<L, u32>,
        item: u32,
    ) -> Result<(), AllocError> {
        match self.push(rt, queue, item) {
            Ok(()) => write!(told, "push {item} taken, "),
            Err(back) => write!(told, "push {item} gives {back} back, "),
        }
    }

    fn tell_take<R: Wait>(
        &mut self,
        told: &mut String,
        rt: &R,
        queue: &Queue<L, u32>,
    ) -> Result<(), AllocError> {
        match queue.take(rt, &mut self.mine) {
            Some(item) => write!(told, "take {item}, "),
            None => told.push_str("take none"),
        }
    }
}

/// Items come in order until the queue is closed.
fn queued<L: Ledger, R: Wait>(rt: &R, alloc: Global, blank: Blank) -> Option<String>
    requires { (blank.name ≡ L.name) × (blank.parts ≡ L.parts) × (L.parts ≡ 2) }
{
    let (book, mut mine) = blank.open::<L>();
    let Ok(queue) = Queue::new(alloc, mine.split_off(1, 0)) else {
        return None;
    };
    let mut hands = Hands { book, mine };
    let mut told = String::new(alloc);
    hands.tell_push(&mut told, rt, &queue, 1).ok()?;
    hands.tell_push(&mut told, rt, &queue, 2).ok()?;
    queue.close(rt);
    told.push_str("closed, ").ok()?;
    hands.tell_push(&mut told, rt, &queue, 3).ok()?;
    for _ in 0..3 {
        hands.tell_take(&mut told, rt, &queue).ok()?;
    }
    Some(told)
}

/// A shared clock gives the moments of its clock.
fn shared_clock<R: Wait + Sync>(rt: &R, alloc: Global) -> Option<String> {
    let moments = Vec::from_slice(alloc, &[Moment(7)]).ok()?;
    let mut clock = ListClock::new(Seq::from_vec(moments));
    let shared = Mutex::new(&mut clock);
    let mut clock = SharedClock::new(rt, &shared);
    let moment = clock.now();
    format!(in alloc; "{}", moment.0).ok()
}

/// Prints the table.
pub(crate) fn print<R: Print + Wait + Sync>(rt: &R, alloc: Global) -> Result<()> {
    print_row(rt, "bell", rung(rt, alloc, 1))?;
    print_row(rt, "bell rung twice", rung(rt, alloc, 2))?;
    print_row(rt, "queue", queued::<Brand, R>(rt, alloc, Blank::new(2)))?;
    print_row(rt, "shared clock", shared_clock(rt, alloc))?;
    Ok(())
}
