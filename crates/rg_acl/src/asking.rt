// The rows for those who ask.
ghost use Rattle.std.specs.Prelude.{◌≡◌, ◌++◌, IfOk, OnOk, length};
ghost use Rattle.rg_engine.specs.Bounds.{TriesWithin};
ghost use Rattle.rg_acl.specs.Rows.{request_of, row_of, rows_for, rows_of};
ghost use Rattle.rg_acl.specs.Work.{IsTriedFor, NothingMade, bound_for};

use crate::ask::ReportAsk;
use crate::asker::Asker;
use crate::row::ReportRow;
use rg_base::{Ledger, NoMemory, Seq, Steps, Text, TryCopy};
use rg_engine::Engine;
use rg_policy::AccessRequest;
use std::alloc::Global;

/// The asker's request for the access.
fn request_of(
    alloc: Global,
    ask: &ReportAsk,
    asker: &Asker,
    access: &Text,
) -> Result<AccessRequest, NoMemory>
    ensures { IfOk result (λ q. q ≡ request_of ask.now asker.now access.now) }
{
    Ok(AccessRequest {
        user: asker.user.try_copy(alloc)?,
        groups: asker.groups.try_copy(alloc)?,
        resource: ask.resource.try_copy(alloc)?,
        access: access.try_copy(alloc)?,
        moment: ask.moment,
        address: Text::empty(alloc),
        context: Seq::new(alloc),
    })
}

/// The row of the asker and the access.
fn row_of<L: Ledger>(
    alloc: Global,
    engine: &Engine,
    ask: &ReportAsk,
    asker: &Asker,
    access: &Text,
    steps: &mut Steps<L>,
) -> Result<ReportRow, NoMemory>
    ensures row { IfOk result (λ row. row ≡ row_of engine.now ask.now asker.now access.now) }
    ensures work { TriesWithin (bound_for engine.now ask.now) steps.old steps.new }
{
    let request = request_of(alloc, ask, asker, access)?;
    let verdict = engine.verdict(&request, steps);
    drop(request);
    let name = asker.name.try_copy(alloc)?;
    let access = access.try_copy(alloc)?;
    Ok(ReportRow {
        kind: asker.kind,
        name,
        access,
        verdict,
    })
}

/// Adds the rows of the asker, one for each of the accesses.
fn add_rows_for<L: Ledger>(
    alloc: Global,
    engine: &Engine,
    ask: &ReportAsk,
    accesses: &[Text],
    asker: &Asker,
    rows: &mut Vec<ReportRow>,
    steps: &mut Steps<L>,
) -> Result<(), NoMemory>
    ensures rows { OnOk result (rows.new.items
        ≡ rows.old.items ++ rows_for engine.now ask.now accesses.now asker.now) }
    ensures made { NothingMade steps.old steps.new }
    ensures tries { OnOk result (IsTriedFor (bound_for engine.now ask.now)
        (length rows.old.items) (length rows.new.items) steps.old steps.new) }
{
    for access in accesses {
        let row = row_of(alloc, engine, ask, asker, access, steps)?;
        rows.push(row)?;
    }
    Ok(())
}

/// Adds the rows of each of the askers.
pub(crate) fn add_rows<L: Ledger>(
    alloc: Global,
    engine: &Engine,
    ask: &ReportAsk,
    accesses: &[Text],
    askers: &[Asker],
    rows: &mut Vec<ReportRow>,
    steps: &mut Steps<L>,
) -> Result<(), NoMemory>
    ensures rows { OnOk result (rows.new.items
        ≡ rows.old.items ++ rows_of engine.now ask.now accesses.now askers.now) }
    ensures made { NothingMade steps.old steps.new }
    ensures tries { OnOk result (IsTriedFor (bound_for engine.now ask.now)
        (length rows.old.items) (length rows.new.items) steps.old steps.new) }
{
    for asker in askers {
        add_rows_for(alloc, engine, ask, accesses, asker, rows, steps)?;
    }
    Ok(())
}
