// What is wrong with JSON, and where.
ghost use Rattle.std.specs.Prelude.{◌≡◌, ◌∷◌, ◌++◌, IfOk, decimal, string_bytes};
ghost use Rattle.std.specs.Str.{chars};
ghost use Rattle.rg_json.specs.Faults.{below, here};

use rg_base::{NoMemory, Text};
use std::alloc::Global;

/// What is wrong.
#[derive(Clone, Copy, Debug, PartialEq, Eq)]
pub enum WireKind {
    /// The text is no UTF-8 or no JSON (RFC 8259), or nests deeper than 127.
    Syntax,
    /// A value of another kind, or a number that is no integer of 64 bits.
    Mistyped,
    /// A needed field that is missing or null.
    Missing,
    /// An integer outside the field's type, or a text of a request that is too short or too long.
    Range,
}

/// What is wrong, and where.
#[derive(Drop)]
pub struct Fault {
    pub path: Text,
    pub kind: WireKind,
}

/// Why a text isn't read.
#[derive(Drop)]
pub enum WireFault {
    /// The first fault. The path is the names and places from the top, each after `/`, unescaped; the record itself has the
    /// empty path.
    Bad { path: Text, kind: WireKind },
    NoMemory,
}

/// The fault of the value itself. It takes no memory.
pub(crate) fn here(alloc: Global, kind: WireKind) -> Option<Fault>
    ensures { result ≡ here kind }
{
    Some(Fault {
        path: Text::empty(alloc),
        kind,
    })
}

/// `/`, a name, and the path after it.
#[tactic(auto, using(crate::proofs::Paths::paths))]
fn joined(alloc: Global, name: &str, path: &Text) -> Result<Text, NoMemory>
    ensures { IfOk result (λ t. t ≡ 47 ∷ (chars name.now ++ path.now)) }
{
    let rest = path.as_str();
    Ok(Text::of(format!(in alloc; "/{name}{rest}")?))
}

/// The fault as the whole has it, of which the value is a part. Without a fault it takes no memory.
pub(crate) fn below(
    alloc: Global,
    name: &str,
    fault: Option<Fault>,
) -> Result<Option<Fault>, NoMemory>
    ensures { IfOk result (λ o. o ≡ below (chars name.now) fault) }
{
    match fault {
        None => Ok(None),
        Some(found) => Ok(Some(Fault {
            path: joined(alloc, name, &found.path)?,
            kind: found.kind,
        })),
    }
}

fn digits(alloc: Global, place: usize) -> Result<String, NoMemory>
    ensures { IfOk result (λ s. string_bytes s ≡ decimal place) }
{
    Ok(format!(in alloc; "{place}")?)
}

/// The same for an item of a list.
pub(crate) fn below_place(
    alloc: Global,
    place: usize,
    fault: Option<Fault>,
) -> Result<Option<Fault>, NoMemory>
    ensures { IfOk result (λ o. o ≡ below (chars (decimal place)) fault) }
{
    match fault {
        None => Ok(None),
        Some(found) => {
            let name = digits(alloc, place)?;
            below(alloc, name.as_str(), Some(found))
        }
    }
}
