// What a line is.
ghost use Rattle.std.specs.Prelude.{◌≡◌, IfOk};
ghost use Rattle.rg_script.specs.Line.{line_read};
ghost use Rattle.rg_check.specs.Kinds.{kind_of, kind_word, place_after, takes};
ghost use Rattle.rg_check.specs.Reasons.{plain_kind};

use crate::command::Command;
use rg_base::{Moment, NoMemory};
use rg_script::{Line, LineFault, Place, read_line};
use std::alloc::Global;

/// What a line is.
#[derive(Clone, Copy, Debug, PartialEq, Eq)]
pub(crate) enum LineKind {
    Blank,
    Facts,
    Config,
    Admin,
    Refresh,
    Decide,
    Grant,
    Revoke,
    Report,
    Reopen,
}

impl LineKind {
    fn of_line(line: &Line) -> LineKind
        ensures { result ≡ kind_of line.now }
    {
        match line {
            Line::Blank => LineKind::Blank,
            Line::Facts(_) => LineKind::Facts,
            Line::Config(_) => LineKind::Config,
            Line::Admin(_) => LineKind::Admin,
            Line::Refresh => LineKind::Refresh,
            Line::Decide(_) => LineKind::Decide,
        }
    }

    /// What a line is that isn't of a command's own; None where it isn't read.
    pub(crate) fn of(alloc: Global, line: &[u8], now: Moment) -> Result<Option<LineKind>, NoMemory>
        ensures { IfOk result (λ kind. kind ≡ plain_kind (line_read line.now now)) }
    {
        match read_line(alloc, line, now) {
            Ok(read) => {
                let kind = LineKind::of_line(&read);
                drop(read);
                Ok(Some(kind))
            }
            Err(LineFault::Bad) => Ok(None),
            Err(LineFault::NoMemory) => Err(NoMemory),
        }
    }

    /// The word that such a line begins with.
    #[tactic(auto, unfolding(crate::specs::Kinds::kind_word))]
    pub(crate) fn word(self) -> &'static str
        ensures { result.now ≡ kind_word self }
    {
        match self {
            LineKind::Blank => "#",
            LineKind::Facts => "facts",
            LineKind::Config => "config",
            LineKind::Admin => "admin",
            LineKind::Refresh => "refresh",
            LineKind::Decide => "decide",
            LineKind::Grant => "grant",
            LineKind::Revoke => "revoke",
            LineKind::Report => "report",
            LineKind::Reopen => "reopen",
        }
    }

    /// Whether a script of the command has such lines.
    pub(crate) fn is_of(self, command: Command) -> bool
        ensures { result ≡ takes command self }
    {
        match command {
            Command::Replay => true,
            Command::Grants | Command::Keep => match self {
                LineKind::Facts | LineKind::Refresh => false,
                _ => true,
            },
            Command::Report => match self {
                LineKind::Config | LineKind::Admin | LineKind::Refresh | LineKind::Decide => false,
                _ => true,
            },
            Command::Serve => match self {
                LineKind::Facts | LineKind::Refresh | LineKind::Decide => false,
                _ => true,
            },
        }
    }
}

/// Where the lines stand that follow a line of this kind, which isn't bad.
pub(crate) fn place_after(place: Place, kind: Option<LineKind>) -> Place
    ensures { result ≡ place_after place kind }
{
    match place {
        Place::Start => match kind {
            Some(LineKind::Facts) => Place::Facts,
            Some(LineKind::Config) => Place::Config,
            _ => Place::Start,
        },
        Place::Facts => Place::Facts,
        Place::Config => Place::Config,
    }
}
