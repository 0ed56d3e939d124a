// What a line is in a script of a command, and why it is bad where it stands.
ghost use Rattle.std.specs.Prelude.{◌≡◌, IfOk};
ghost use Rattle.rg_script.specs.Line.{line_read};
ghost use Rattle.rg_check.specs.Reasons.{kind_at, may_stand, own_cause, own_kind, plain_cause, plain_kind, reason_at};

use crate::command::Command;
use crate::kind::LineKind;
use crate::own::{OwnLine, is_own, own_line};
use rg_base::{Moment, NoMemory};
use rg_script::{Cause, Place, explain_line};
use std::alloc::Global;

/// What is seen of a line.
#[derive(Drop)]
pub(crate) struct Seen {
    /// What it is; None where it isn't read.
    pub kind: Option<LineKind>,
    /// Why it is bad where it stands; None where it isn't.
    pub cause: Option<Cause>,
}

/// What a line of the command's own is; None where it isn't read.
fn own_kind(own: &OwnLine) -> Option<LineKind>
    ensures { result ≡ own_kind own.now }
{
    match own {
        OwnLine::Read(kind) => Some(*kind),
        OwnLine::Unread(_) => None,
    }
}

/// Why a line of the command's own is bad in this place.
fn own_cause(own: OwnLine, place: Place) -> Option<Cause>
    ensures { result ≡ own_cause own place }
{
    match own {
        OwnLine::Unread(cause) => Some(cause),
        OwnLine::Read(_) => match place {
            Place::Start => Some(Cause::OutOfPlace),
            Place::Facts | Place::Config => None,
        },
    }
}

/// Whether a line of this kind may stand in some place in a script of the command. One that isn't read is bad by itself.
fn may_stand(command: Command, kind: Option<LineKind>) -> bool
    ensures { result ≡ may_stand command kind }
{
    match kind {
        Some(kind) => kind.is_of(command) && !is_own(command, kind),
        None => true,
    }
}

/// A line that isn't of the command's own, in this place.
fn plain_seen(
    alloc: Global,
    command: Command,
    place: Place,
    line: &[u8],
    now: Moment,
) -> Result<Seen, NoMemory>
    ensures kind { IfOk result (λ seen. seen.kind ≡ plain_kind (line_read line.now now)) }
    ensures cause { IfOk result
        (λ seen. seen.cause ≡ plain_cause command place (line_read line.now now)) }
{
    let kind = LineKind::of(alloc, line, now)?;
    if !may_stand(command, kind) {
        return Ok(Seen {
            kind,
            cause: Some(Cause::OutOfPlace),
        });
    }
    let cause = explain_line(alloc, place, line, now)?;
    Ok(Seen { kind, cause })
}

/// What the line is in a script of the command, and why it is bad in this place.
pub(crate) fn look(
    alloc: Global,
    command: Command,
    place: Place,
    line: &[u8],
    now: Moment,
) -> Result<Seen, NoMemory>
    ensures kind { IfOk result (λ seen. seen.kind ≡ kind_at command line.now now) }
    ensures cause { IfOk result (λ seen. seen.cause ≡ reason_at command place line.now now) }
{
    match own_line(alloc, command, line, now)? {
        Some(own) => {
            let kind = own_kind(&own);
            let cause = own_cause(own, place);
            Ok(Seen { kind, cause })
        }
        None => plain_seen(alloc, command, place, line, now),
    }
}
