// The patterns of the written values of a resource.
ghost use Rattle.std.specs.Prelude.{◌≡◌, ◌++◌, IfOk, false, true};
ghost use Rattle.std.specs.List.{list_all};
ghost use Rattle.std.specs.Str.{chars};
ghost use Rattle.rg_base.specs.Texts.{is_name};
ghost use Rattle.rg_pattern.specs.Atoms.{has_user};
ghost use Rattle.rg_pattern.specs.Reading.{atoms_of, value_fits, value_patterns, with_twin};

use crate::atoms::{Pattern, PatternFault};
use crate::parse::split_atom;
use crate::pattern::is_user;
use rg_base::{NoMemory, Text, is_name};
use std::alloc::Global;

/// Whether `{USER}` stands in a written value.
fn names_user(text: &str) -> bool
    ensures { result ≡ has_user (atoms_of false (chars text.now)) }
{
    let mut rest = text;
    while let Some((atom, more)) = split_atom(rest, false) {
        if is_user(atom) {
            return true;
        }
        rest = more;
    }
    false
}

/// Whether a written value is a pattern without `{USER}`: it has 1 to 256 characters. It takes no memory.
pub fn value_fits(text: &str) -> bool
    ensures { result ≡ value_fits (chars text.now) }
{
    is_name(text) && !names_user(text)
}

/// The pattern of a written value of 1 to 256 characters, as by [`Pattern::parse`].
pub fn pattern_of(alloc: Global, text: &str, wild: bool) -> Result<Pattern, NoMemory>
    requires { is_name (chars text.now) ≡ true }
    ensures { IfOk result (λ p. p ≡ atoms_of wild (chars text.now)) }
{
    match Pattern::parse(alloc, text, wild) {
        Ok(pattern) => Ok(pattern),
        Err(PatternFault::NoMemory) => Err(NoMemory),
        Err(PatternFault::Empty | PatternFault::TooLong) => unreachable!(),
    }
}

/// The patterns, and after them this one and, where it is recursive, its twin.
fn add_value(
    alloc: Global,
    mut patterns: Vec<Pattern>,
    pattern: Pattern,
    recursive: bool,
) -> Result<Vec<Pattern>, NoMemory>
    ensures { IfOk result (λ v. v.items ≡ patterns.items ++ with_twin recursive pattern) }
{
    if recursive {
        let twin = pattern.recursive(alloc)?;
        patterns.push(pattern)?;
        patterns.push(twin)?;
    } else {
        patterns.push(pattern)?;
    }
    Ok(patterns)
}

/// The patterns of written values of 1 to 256 characters, each before its twin where they are recursive.
pub fn value_patterns(
    alloc: Global,
    values: &[Text],
    wild: bool,
    recursive: bool,
) -> Result<Vec<Pattern>, NoMemory>
    requires { list_all is_name values.now ≡ true }
    ensures { IfOk result (λ v. v.items ≡ value_patterns wild recursive values.now) }
{
    let mut patterns = Vec::new(alloc);
    for value in values {
        let pattern = pattern_of(alloc, value.as_str(), wild)?;
        patterns = add_value(alloc, patterns, pattern, recursive)?;
    }
    Ok(patterns)
}
