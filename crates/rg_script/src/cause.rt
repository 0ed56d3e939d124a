// Why a line of a script is bad.
ghost use Rattle.std.specs.Prelude.{◌≡◌, IfOk, is_none};
ghost use Rattle.rg_cmd.specs.declared.ask.Ask.{Ask};
ghost use Rattle.rg_policy.specs.declared.request.AccessRequest.{AccessRequest};
ghost use Rattle.rg_script.specs.Causes.{cause_of, is_unread, place_cause, unsound_by};
ghost use Rattle.rg_script.specs.Line.{line_of};

use crate::line::{Line, Unread, line_or_cause};
use rg_admin::{Admin, StartFault};
use rg_base::{Moment, NoMemory, Seq, Text};
use rg_cmd::{Config, Rule};
use rg_facts::Facts;
use rg_facts_check::{Unsound, unsound_causes};
use rg_wire::WireKind;
use std::alloc::Global;

/// Why a line is bad.
#[derive(Drop)]
pub enum Cause {
    /// It begins with no word of a script, or what the word needs doesn't follow it.
    NoWord,
    /// Its JSON doesn't read: the path and the kind of the first fault. The path is the names and places from the top, each
    /// after `/`.
    Json { path: Text, kind: WireKind },
    /// It stands where such a line may not stand.
    OutOfPlace,
    /// Its facts aren't sound: everything that makes them so, at least one.
    Unsound(Seq<Unsound>),
    /// Its configuration starts no administration: the first rule that it breaks.
    Refused(Rule),
}

/// Where a line stands.
#[derive(Clone, Copy, Debug, PartialEq, Eq)]
pub enum Place {
    /// Only blank lines come before it.
    Start,
    /// Facts are published.
    Facts,
    /// An administration is started.
    Config,
}

/// That facts are unsound by these causes; None where there is none.
fn unsound_by(causes: Vec<Unsound>) -> Option<Cause>
    ensures { result ≡ unsound_by causes.items }
{
    match causes.as_slice() {
        [] => None,
        _ => Some(Cause::Unsound(Seq::from_vec(causes))),
    }
}

/// Why facts are bad where they stand.
fn facts_cause(alloc: Global, place: Place, facts: &Facts) -> Result<Option<Cause>, NoMemory>
    ensures { IfOk result (λ cause. cause ≡ place_cause place (Line.Facts facts.now)) }
{
    match place {
        Place::Start => Ok(unsound_by(unsound_causes(alloc, facts)?)),
        Place::Facts | Place::Config => Ok(Some(Cause::OutOfPlace)),
    }
}

/// Why a configuration is bad where it stands.
fn config_cause(alloc: Global, place: Place, config: Config) -> Result<Option<Cause>, NoMemory>
    ensures { IfOk result (λ cause. cause ≡ place_cause place (Line.Config config)) }
{
    match place {
        Place::Start => match Admin::start(alloc, config) {
            Ok(_) => Ok(None),
            Err(StartFault::Rule(rule)) => Ok(Some(Cause::Refused(rule))),
            Err(StartFault::NoMemory) => Err(NoMemory),
        },
        Place::Facts | Place::Config => Ok(Some(Cause::OutOfPlace)),
    }
}

/// Why a command or a refresh is bad where it stands.
fn change_cause(place: Place) -> Option<Cause>
    ensures admin { (ask : Ask) → result ≡ place_cause place (Line.Admin ask) }
    ensures refresh { result ≡ place_cause place Line.Refresh }
{
    match place {
        Place::Start | Place::Facts => Some(Cause::OutOfPlace),
        Place::Config => None,
    }
}

/// Why a request is bad where it stands.
fn request_cause(place: Place) -> Option<Cause>
    ensures { (q : AccessRequest) → result ≡ place_cause place (Line.Decide q) }
{
    match place {
        Place::Start => Some(Cause::OutOfPlace),
        Place::Facts | Place::Config => None,
    }
}

/// Why a line that is read is bad where it stands; None where it isn't.
fn place_cause(alloc: Global, place: Place, line: Line) -> Result<Option<Cause>, NoMemory>
    ensures { IfOk result (λ cause. cause ≡ place_cause place line) }
{
    match line {
        Line::Blank => Ok(None),
        Line::Facts(facts) => facts_cause(alloc, place, &facts),
        Line::Config(config) => config_cause(alloc, place, config),
        Line::Admin(_) => Ok(change_cause(place)),
        Line::Refresh => Ok(change_cause(place)),
        Line::Decide(_) => Ok(request_cause(place)),
    }
}

/// Why the line is bad where it stands, None where it isn't. The first cause is given, in the order of [`Cause`].
pub fn explain_line(
    alloc: Global,
    place: Place,
    line: &[u8],
    now: Moment,
) -> Result<Option<Cause>, NoMemory>
    ensures exact { IfOk result (λ cause. cause ≡ cause_of place line.now now) }
    ensures unread { IfOk result (λ cause. is_unread cause ≡ is_none (line_of line.now now)) }
{
    match line_or_cause(alloc, line, now) {
        Ok(read) => place_cause(alloc, place, read),
        Err(unread) => match unread {
            Unread::Bad(cause) => Ok(Some(cause)),
            Unread::NoMemory => Err(NoMemory),
        },
    }
}
