// What keeps the publications up with the history.
ghost use Rattle.std.specs.Prelude.{◌≡◌, ◌-◌, true, Some, length, slice_get, IfOk, OnErr};
ghost use mathlib.Core.List.{IsPrefix};
ghost use Rattle.rg_admin_laws.specs.Starts.{IsStart};
ghost use Rattle.rg_publish.specs.Passes.{Ends};
ghost use Rattle.rg_publish.specs.declared.history.Publication.{Publication};
ghost use Rattle.rg_session.specs.Documents.{IsFit, Takes};
ghost use Rattle.rg_session.specs.Refreshing.{HasDownloaded, HasRefreshed, IsWithin, KeepsBounds, is_partial};
ghost use Rattle.rg_session.specs.Right.{AreDownloadedFor, AreRightFor};

use crate::document::{document, is_unchanged};
use crate::laws::{downloaded_lists_stay, one_more_is_right};
use crate::leading::lead;
use rg_admin::{Admin, Recorder};
use rg_base::{Ledger, NoMemory, Serial, Steps, Text};
use rg_cmd::Download;
use rg_publish::Publisher;
use rg_turn::{Seat, Turn};
use std::alloc::Global;
use std::sync::Wait;

/// What a refresh did.
#[derive(Clone, Copy, Debug, PartialEq, Eq)]
pub enum Refresh {
    /// The three versions were current.
    Unchanged,
    /// What the plugin sees was published, with this serial.
    Published(Serial),
}

/// Publishes the facts to which the document leads, unless nothing in it changed. Where memory is refused nothing is published.
fn take<R: Wait + Drop, L: Ledger>(
    alloc: Global,
    publisher: &mut Publisher<R>,
    document: Download,
    steps: &mut Steps<L>,
) -> Result<Refresh, NoMemory>
    requires { Ends publisher.old.list (λ p. IsFit p.facts document) }
    ensures same { publisher.new.book ≡ publisher.old.book }
    ensures taken { IfOk result (λ r. Takes publisher.old.list document r publisher.new.list) }
    ensures refused { OnErr result (publisher.new.list ≡ publisher.old.list) }
    ensures tries { steps.new.tries ≡ steps.old.tries }
    ensures work { (p : Publication) → slice_get publisher.old.list (length publisher.old.list - 1)
        ≡ Some p → is_partial document ≡ true → IsWithin p.facts document steps.old steps.new }
{
    if is_unchanged(&document) {
        drop(document);
        return Ok(Refresh::Unchanged);
    }
    let seq = document.seq;
    match lead(alloc, publisher.newest(), document, steps) {
        Ok(engine) => match publisher.publish(alloc, engine, seq) {
            Ok(serial) => Ok(Refresh::Published(serial)),
            Err(NoMemory) => Err(NoMemory),
        },
        Err(NoMemory) => Err(NoMemory),
    }
}

/// A publisher that follows the history of one administration.
#[derive(Drop)]
pub struct Refresher<R: Wait + Drop> {
    pub publisher: Publisher<R>,
    /// The plugin's service.
    pub service: Text,
    /// How many entries came before the download of the last refresh that met no want of memory; 0 before the first.
    pub seq: u64,
}

impl<R: Wait + Drop> Refresher<R> {
    /// Downloads what the plugin lacks, by the empty actor, and publishes what it sees then, unless the three versions are
    /// current. It waits for its turn, and for readers of an older publication. Where memory is refused nothing is published;
    /// the download may stand in the history.
    pub fn refresh<P: Recorder, W: Wait, L: Ledger>(
        &mut self,
        rt: &W,
        alloc: Global,
        turn: &Turn<Admin<P>>,
        seat: &mut Seat<Admin<P>>,
        steps: &mut Steps<L>,
    ) -> Result<Refresh, NoMemory>
        requires turn { seat.old.turn ≡ turn.now.turn }
        requires start { IsStart turn.now.start }
        requires service { self.old.service ≡ turn.now.start.state.plugin }
        requires right { AreRightFor turn.now.start seat.old.history self.old.publisher.list }
        ensures same { (seat.new.turn ≡ seat.old.turn) × (self.new.publisher.book
            ≡ self.old.publisher.book) × (self.new.service ≡ self.old.service) }
        ensures begins { IsPrefix seat.old.history seat.new.history }
        ensures right { AreRightFor turn.now.start seat.new.history self.new.publisher.list }
        ensures downloaded { IfOk result (λ r. HasDownloaded
            seat.old self.old.service self.old.publisher.list seat.new self.new.seq) }
        ensures refreshed { IfOk result (λ r. HasRefreshed turn.now.start
            seat.new.history self.new.seq self.old.publisher.list r self.new.publisher.list) }
        ensures made { AreDownloadedFor turn.now.start seat.old.history self.old.publisher.list
            → AreDownloadedFor turn.now.start seat.new.history self.new.publisher.list }
        ensures refused { OnErr result ((self.new.publisher.list ≡ self.old.publisher.list)
            × (self.new.seq ≡ self.old.seq)) }
        ensures tries { steps.new.tries ≡ steps.old.tries }
        ensures work { KeepsBounds seat.new.history self.old.publisher.list steps.old steps.new }
    {
        one_more_is_right();
        downloaded_lists_stay();
        let document = match document(rt, alloc, turn, seat, &self.publisher, &self.service) {
            Ok(document) => document,
            Err(NoMemory) => return Err(NoMemory),
        };
        let entries = document.seq;
        match take(alloc, &mut self.publisher, document, steps) {
            Ok(refresh) => {
                self.seq = entries;
                Ok(refresh)
            }
            Err(NoMemory) => Err(NoMemory),
        }
    }
}
