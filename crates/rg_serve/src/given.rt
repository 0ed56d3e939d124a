// How many links were given.
ghost use Rattle.std.specs.Prelude.{◌≡◌, ◌+◌};

use crate::crew::Crew;
use crate::naming::Naming;
use crate::places::Workers;
use rg_admin::Recorder;
use rg_hook::RequestHooks;
use rg_ports::{Clock, Gate, Link};
use rg_threads::Waiting;
use std::sync::Wait;
use std::sync::ledger::{Book, Share};

/// The book of the links, and the share of what gives them: nothing of it is in its hands between two links.
#[derive(Drop)]
pub(crate) struct Given<J: Naming> {
    /// How many links are to be given at most.
    pub most: u64,
    pub book: Book<J>,
    pub mine: Share<J>,
    pub ghost part: { mine.parts ≡ 1 },
    pub ghost none: { mine.amount ≡ 0 },
}

/// The book of the links, with the parts of what gave them and of the queue, when all links were served.
#[derive(Drop)]
pub(crate) struct Counted<J: Naming> {
    pub book: Book<J>,
    pub mine: Share<J>,
    pub ghost parts: { mine.parts ≡ 2 },
    pub ghost none: { mine.amount ≡ 0 },
}

impl<J: Naming> Given<J> {
    /// Puts one link more into the queue. Where the queue is closed the link is served with the things of the first worker.
    pub fn hand<P: Recorder, T: Link + Drop, C: Clock, G: Gate, H: RequestHooks, R: Wait + Sync>(
        &mut self,
        rt: &R,
        crew: &Crew<J, P, C, G, H, T>,
        link: T,
    )
        ensures book { self.new.book.total ≡ self.old.book.total + 1 }
        ensures most { self.new.most ≡ self.old.most }
    {
        let Given {
            most: _,
            book,
            mine,
        } = self;
        book.add(mine, 1);
        match crew.queue.push(rt, link, mine) {
            Ok(()) => {}
            Err(link) => {
                let Workers { places, hooks } = crew.workers;
                let mut parts = places[0].lock(rt);
                let mut hooks = hooks[0].lock(rt);
                parts.take_handed(rt, crew.sessions, &mut *hooks, link, mine);
            }
        }
    }

    /// With the share of a queue in which nothing is left.
    pub fn settle<T: Drop>(self, left: Waiting<J, T>) -> Counted<J>
        requires { left.share.amount ≡ 0 }
        ensures { result.book.total ≡ self.book.total }
    {
        let Given {
            most: _,
            book,
            mut mine,
        } = self;
        let Waiting {
            items: _,
            is_closed: _,
            share,
        } = left;
        mine.merge(share);
        Counted { book, mine }
    }
}
