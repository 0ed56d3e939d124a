// What publishes: two copies of the newest publication, of which readers find one.
ghost use Rattle.std.specs.Prelude.{◌≡◌, ◌≢◌, ℕ, ◌+◌, ◌-◌, ◌<◌, ◌≤◌, ◌^◌, length, drop, replicate, slice_get, List, [], ◌∷◌, ◌++◌, Some, None, IfOk, IfSome, OnErr, MatchResult};
ghost use Rattle.std.specs.Arc.{arc_value};
ghost use mathlib.Core.List.{IsPrefix};
ghost use Rattle.left_right.specs.Sides.{view as known_by};
ghost use Rattle.rg_publish.specs.Publications.{publication, length_of, published};
ghost use Rattle.rg_publish.specs.Passes.{new_pass, Ends};
ghost use Rattle.rg_publish.specs.Knowing.{Begins, Knows};

use crate::history::{Add, Draft, Nothing, Numbering, Publication};
use crate::pass::{Pass, Told};
use crate::shown::{Beginnings, Known, Sees, Shown, Tells};
use left_right::writer::Writer;
use logbook::{Offer, Seen, Start, Word};
use rg_base::{NoMemory, Serial};
use rg_engine::Engine;
use std::alloc::Global;
use std::marker::Model;
use std::sync::{Arc, Wait};
use std::{mem, thread};

pub(crate) type Copies = Writer<Shown, Shown, Option<Known>, Beginnings>;

pub(crate) type Head = Word<Publication, u64, Numbering>;

/// The draft added to the list that is known, twice, as the two copies need it; nothing where the list is longer.
fn enlist(
    head: &Head,
    known: &Known,
    old: u64,
    draft: Draft,
    second: Arc<Engine>,
) -> Option<(Shown, Shown)>
    requires head { head.now ≡ length_of known.now.book }
    requires draft { (length known.now.log ≡ old) × (draft.serial ≡ old + 1)
        × (draft.serial < 2 ^ 63) × (arc_value second ≡ arc_value draft.engine) }
    ensures { IfSome result (λ t. (t.0.known.log
        ≡ known.now.log ++ publication draft.serial draft.seq (arc_value draft.engine) ∷ [])
        × (t.0.known.book ≡ known.now.book) × (t.1.known ≡ t.0.known)) }
{
    let mut seen = known.again();
    let mut offer: Offer<Publication, u64, Numbering, Nothing> = seen.plain::<Nothing, Draft, Add>(
        &draft,
    );
    let mut pen = seen.no_pen();
    let found = head.compare_exchange::<Add, Nothing>(
        old,
        old + 1,
        &mut seen,
        &mut offer,
        &mut pen,
    );
    if found != old {
        return None;
    }
    let Draft {
        engine,
        serial,
        seq,
    } = draft;
    let again = seen.again();
    Some((
        Shown {
            engine,
            serial,
            seq,
            known: seen,
        },
        Shown {
            engine: second,
            serial,
            seq,
            known: again,
        },
    ))
}

/// Hands it to the writer, and tries again where memory is refused.
fn append<R: Wait>(rt: &R, writer: Copies, shown: Shown) -> Copies
    requires { drop writer.behind writer.log.items ≡ [] }
    ensures { (result.desk ≡ writer.desk) × (drop result.behind result.log.items ≡ shown ∷ []) }
{
    let mut writer = writer;
    let mut shown = shown;
    for _ in rt.forever() {
        match writer.append(shown) {
            Ok(()) => return writer,
            Err(back) => shown = back,
        }
        thread::yield_now();
    }
    unreachable!()
}

/// Shows it to readers, and tries again where memory is refused for a copy.
fn show<R: Wait>(rt: &R, writer: Copies, shown: Shown) -> Copies
    requires { (drop writer.behind writer.log.items ≡ [])
        × Begins writer.desk.shown.value.known shown.known }
    ensures { (drop result.behind result.log.items ≡ []) × (result.desk.shown.value.known
        ≡ shown.known) × Knows (known_by result.desk.place) shown.known }
{
    let mut writer = append(rt, writer, shown);
    for _ in rt.forever() {
        let (next, shown) = writer.publish_as::<Sees, R>(rt);
        match shown {
            Ok(()) => return next,
            Err(_) => writer = next,
        }
    }
    unreachable!()
}

/// All that a publisher has published. It takes no bytes.
#[derive(Drop)]
pub struct Publications {
    known: Known,
}

impl Model for Publications {
    ghost use Rattle.rg_publish.specs.Publications.{Published, published};

    ghost Value = { Published };

    ghost view = { λ p. published p.known };

    ghost invariant = { λ p. Unit {0} };
}

/// What publishes. Contracts see its list. It keeps the handle, since letting it go waits for readers that are inside.
pub struct Publisher<R: Wait + Drop> {
    writer: Option<Copies>,
    rt: R,
    head: Head,
    kept: Shown,
}

impl<R: Wait + Drop> Model for Publisher<R> {
    ghost use Rattle.std.specs.Prelude.{◌≡◌, drop, [], IfSome};
    ghost use Rattle.left_right.specs.Sides.{view as known_by};
    ghost use Rattle.rg_publish.specs.Publications.{Published, published, length_of};
    ghost use Rattle.rg_publish.specs.Knowing.{Knows};

    ghost Value = { Published };

    ghost view = { λ p. published p.kept.known };

    ghost invariant = { λ p. (p.head ≡ length_of p.kept.known.book)
        × IfSome p.writer (λ w. (w.desk.shown.value.known ≡ p.kept.known)
        × (drop w.behind w.log.items ≡ []) × Knows (known_by w.desk.place) p.kept.known) };
}

impl<R: Wait + Drop> Publisher<R> {
    /// The engine that was published last.
    pub fn newest(&self) -> &Engine
        ensures { Ends self.now.list (λ p. result.now ≡ p.facts) }
    {
        &*self.kept.engine
    }

    /// The number of the newest publication.
    pub fn serial(&self) -> Serial
        ensures { result.0 ≡ length self.now.list }
    {
        Serial(self.kept.serial)
    }

    /// All that was published so far. It takes no memory.
    pub fn publications(&self) -> Publications
        ensures { result ≡ self.now }
    {
        Publications {
            known: self.kept.known.again(),
        }
    }

    /// Ends the publisher. It waits for readers that are inside.
    pub fn end(self) {
        drop(self);
    }

    /// The newest publication for a pass to learn. It leaves the publisher as it is.
    pub fn tell(&self) -> Result<Told, NoMemory>
        ensures { IfOk result (λ t. t ≡ self.now) }
    {
        match self.kept.again() {
            Ok(shown) => Ok(Told { shown }),
            Err(_) => Err(NoMemory),
        }
    }

    /// Publishes an engine, which was made of the download after so many entries. It takes its memory before the publishing
    /// step, and waits for readers of the older copy. Where memory is refused nothing is published, and the publisher is as
    /// before. At serial 2^62 it waits for ever.
    pub fn publish(&mut self, alloc: Global, engine: Engine, seq: u64) -> Result<Serial, NoMemory>
        ensures same { self.new.book ≡ self.old.book }
        ensures list { MatchResult result (λ n. (n.0 ≡ length self.old.list + 1)
            × (self.new.list ≡ self.old.list ++ publication n.0 seq engine ∷ []))
            (λ _. self.new.list ≡ self.old.list) }
    {
        wait_below(&self.rt, self.kept.serial);
        let Some(writer) = self.writer.take() else {
            return Err(NoMemory);
        };
        let Some((shown, second)) = drafted(
            alloc,
            &self.head,
            &self.kept.known,
            self.kept.serial,
            engine,
            seq,
        ) else {
            put_back(&self.rt, &mut self.writer, writer);
            return Err(NoMemory);
        };
        let serial = shown.serial;
        let _old = mem::replace(&mut self.kept, shown);
        let writer = show(&self.rt, writer, second);
        put_back(&self.rt, &mut self.writer, writer);
        Ok(Serial(serial))
    }
}

impl<R: Wait + Drop> Drop for Publisher<R> {
    fn drop(self) {
        let Self {
            writer,
            rt,
            head: _,
            kept: _,
        } = self;
        if let Some(writer) = writer {
            drop(writer.take(&rt));
        }
    }
}

/// Puts the writer into its place. A writer isn't let go by itself.
fn put_back<R: Wait>(rt: &R, place: &mut Option<Copies>, writer: Copies)
    ensures { place.new ≡ Some writer }
{
    if let Some(old) = mem::replace(place, Some(writer)) {
        drop(old.take(rt));
    }
}

/// Waits for ever at serial 2^62, which no run meets.
fn wait_below<R: Wait>(rt: &R, serial: u64)
    ensures { serial < 2 ^ 62 }
{
    for _ in rt.forever() {
        if serial < 1 << 62 {
            return;
        }
        thread::yield_now();
    }
    unreachable!()
}

/// Takes the memory for a publication, and adds it to the list.
fn drafted(
    alloc: Global,
    head: &Head,
    known: &Known,
    old: u64,
    engine: Engine,
    seq: u64,
) -> Option<(Shown, Shown)>
    requires { (head.now ≡ length_of known.now.book)
        × (length known.now.log ≡ old) × (old < 2 ^ 62) }
    ensures { IfSome result (λ t. (t.0.known.log ≡ known.now.log ++ publication (old + 1) seq engine
        ∷ []) × (t.0.known.book ≡ known.now.book) × (t.1.known ≡ t.0.known)) }
{
    let engine = Arc::new(alloc, engine).ok()?;
    let second = Arc::try_clone(&engine).ok()?;
    let draft = Draft {
        engine,
        serial: old + 1,
        seq,
    };
    enlist(head, known, old, draft, second)
}

/// An empty list, and the word with its length.
fn open() -> (Known, Head)
    ensures { (result.0.log ≡ []) × (result.1 ≡ length_of result.0.book) }
{
    let (seen, mut first, _second) = Seen::open(Start::alone(), 0, 0);
    (seen, Word::tracked(0, &mut first))
}

/// The writer, once it knows what is shown.
fn settle<R: Wait>(rt: &R, writer: Copies) -> Copies
    requires { drop writer.behind writer.log.items ≡ [] }
    ensures { (drop result.behind result.log.items ≡ [])
        × (result.desk.shown.value.known ≡ writer.desk.shown.value.known)
        × Knows (known_by result.desk.place) writer.desk.shown.value.known }
{
    let mut writer = writer;
    for _ in rt.forever() {
        let (next, shown) = writer.publish_as::<Sees, R>(rt);
        match shown {
            Ok(()) => return next,
            Err(_) => writer = next,
        }
    }
    unreachable!()
}

/// A pass that knows what the writer knows.
fn pass_of(writer: &mut Copies, kept: &Shown) -> Result<Pass, NoMemory>
    requires { Knows (known_by writer.old.desk.place) kept.now.known }
    ensures writer { (writer.new.desk.shown ≡ writer.old.desk.shown) × (drop
        writer.new.behind writer.new.log.items ≡ drop writer.old.behind writer.old.log.items)
        × (known_by writer.new.desk.place ≡ known_by writer.old.desk.place) }
    ensures pass { IfOk result (λ p. p ≡ new_pass (published kept.now.known)) }
{
    let Ok(kept) = kept.again() else {
        return Err(NoMemory);
    };
    let Ok(mut entry) = writer.factory().reader() else {
        return Err(NoMemory);
    };
    entry.learn::<Tells>(writer.tell::<Tells>());
    Ok(Pass::of(entry, kept))
}

/// So many passes.
fn passes_of(
    alloc: Global,
    writer: &mut Copies,
    kept: &Shown,
    passes: u32,
) -> Result<Vec<Pass>, NoMemory>
    requires { Knows (known_by writer.old.desk.place) kept.now.known }
    ensures writer { (writer.new.desk.shown ≡ writer.old.desk.shown) × (drop
        writer.new.behind writer.new.log.items ≡ drop writer.old.behind writer.old.log.items)
        × (known_by writer.new.desk.place ≡ known_by writer.old.desk.place) }
    ensures passes { IfOk result
        (λ v. v.items ≡ replicate passes (new_pass (published kept.now.known))) }
{
    let mut all = Vec::new(alloc);
    for made in 0..passes {
        let pass = pass_of(writer, kept)?;
        if all.push(pass).is_err() {
            return Err(NoMemory);
        }
    }
    Ok(all)
}

/// A writer that shows the first of these, which are the same, and knows it.
fn copies<R: Wait>(
    rt: &R,
    alloc: Global,
    first: Shown,
    second: Shown,
    readers: u32,
) -> Option<Copies>
    requires { (first.known ≡ second.known) × (0 < readers) }
    ensures { IfSome result (λ w. (drop w.behind w.log.items ≡ []) × (w.desk.shown.value.known
        ≡ first.known) × Knows (known_by w.desk.place) first.known) }
{
    let Ok(writer) = Writer::new(alloc, first, second, readers as usize) else {
        return None;
    };
    Some(settle(rt, writer))
}

/// The first publication, of serial 1 and seq 0, with its publisher and 1 to 65 passes. Where memory is refused all is let go.
pub fn begin<R: Wait + Drop>(
    rt: R,
    alloc: Global,
    engine: Engine,
    passes: u32,
) -> Result<(Publisher<R>, Vec<Pass>), NoMemory>
    requires { (1 ≤ passes) × (passes ≤ 65) }
    ensures publisher { IfOk result (λ t. t.0.list ≡ publication 1 0 engine ∷ []) }
    ensures passes { IfOk result (λ t. t.1.items ≡ replicate passes (new_pass t.0)) }
{
    let (empty, head) = open();
    let Some((kept, first)) = drafted(alloc, &head, &empty, 0, engine, 0) else {
        return Err(NoMemory);
    };
    let Ok(second) = first.again() else {
        return Err(NoMemory);
    };
    let Some(mut writer) = copies(&rt, alloc, first, second, passes) else {
        return Err(NoMemory);
    };
    match passes_of(alloc, &mut writer, &kept, passes) {
        Ok(all) => Ok((
            Publisher {
                writer: Some(writer),
                rt,
                head,
                kept,
            },
            all,
        )),
        Err(NoMemory) => {
            drop(writer.take(&rt));
            Err(NoMemory)
        }
    }
}
