// Rows about patterns. Among the flags `w` says that wildcards are on, and `f` that ASCII letters are folded.
use crate::rows::{field, spread, tell_yes_or_no, told, yes_or_no};
use rg_base::{NoMemory, Text, is_name};
use rg_pattern::{Pattern, PatternFault, pattern_of, value_fits, value_patterns};
use std::alloc::Global;

/// The pattern that a field writes; a written `<TIMES:PART>` is spread first.
fn parsed(alloc: Global, written: &str, flags: &str) -> Result<Pattern, PatternFault> {
    match spread(alloc, written) {
        Ok(text) => Pattern::parse(alloc, text.as_str(), flags.contains('w')),
        Err(NoMemory) => Err(PatternFault::NoMemory),
    }
}

fn tell_fault(alloc: Global, fault: PatternFault) -> Result<String, NoMemory> {
    match fault {
        PatternFault::Empty => told(alloc, "Empty"),
        PatternFault::TooLong => told(alloc, "TooLong"),
        PatternFault::NoMemory => Err(NoMemory),
    }
}

/// `parse|PATTERN|FLAGS`: whether it is a pattern.
fn tell_parsed(alloc: Global, row: &str) -> Result<String, NoMemory> {
    match parsed(alloc, field(row, 1), field(row, 2)) {
        Ok(_) => told(alloc, "a pattern"),
        Err(fault) => tell_fault(alloc, fault),
    }
}

/// `matches|PATTERN|FLAGS|USER|VALUE`: whether the pattern stands for the value.
fn tell_matches(alloc: Global, pattern: &Pattern, row: &str) -> Result<String, NoMemory> {
    let value = spread(alloc, field(row, 4))?;
    let fold = field(row, 2).contains('f');
    tell_yes_or_no(alloc, pattern.matches(value.as_str(), field(row, 3), fold))
}

/// `twin|PATTERN|FLAGS|VALUE`: whether the pattern stands for the value when ann asks, and whether its twin does.
fn tell_twin(alloc: Global, pattern: &Pattern, row: &str) -> Result<String, NoMemory> {
    let twin = pattern.recursive(alloc)?;
    let value = spread(alloc, field(row, 3))?;
    let own = pattern.matches(value.as_str(), "ann", false);
    let below = twin.matches(value.as_str(), "ann", false);
    Ok(format!(in alloc; "{} {}", yes_or_no(own), yes_or_no(below))?)
}

/// Whether the two overlap; neither has the user's name.
fn tell_overlap(
    alloc: Global,
    first: &Pattern,
    second: &Pattern,
    fold: bool,
) -> Result<&'static str, NoMemory> {
    if first.has_user() || second.has_user() {
        return Ok("has the user's name");
    }
    Ok(yes_or_no(first.overlap(alloc, second, fold)?))
}

/// `overlap|PATTERN|FLAGS|OTHER`: whether the two overlap, asked in both orders.
fn tell_overlaps(alloc: Global, pattern: &Pattern, row: &str) -> Result<String, NoMemory> {
    let fold = field(row, 2).contains('f');
    match parsed(alloc, field(row, 3), field(row, 2)) {
        Ok(other) => {
            let there = tell_overlap(alloc, pattern, &other, fold)?;
            let back = tell_overlap(alloc, &other, pattern, fold)?;
            Ok(format!(in alloc; "{there} {back}")?)
        }
        Err(fault) => tell_fault(alloc, fault),
    }
}

/// `covers|PATTERN|FLAGS|OTHER`: whether the pattern covers the other.
fn tell_covers(alloc: Global, pattern: &Pattern, row: &str) -> Result<String, NoMemory> {
    match parsed(alloc, field(row, 3), field(row, 2)) {
        Ok(other) => tell_yes_or_no(alloc, pattern.covers(&other, field(row, 2).contains('f'))),
        Err(fault) => tell_fault(alloc, fault),
    }
}

/// `prefix|PATTERN|FLAGS`: its literal prefix, and whether it has the user's name.
fn tell_prefix(alloc: Global, pattern: &Pattern, row: &str) -> Result<String, NoMemory> {
    let prefix = pattern.literal_prefix(alloc, field(row, 2).contains('f'))?;
    let user = yes_or_no(pattern.has_user());
    Ok(format!(in alloc; "\"{}\" {user}", prefix.as_str())?)
}

/// `with_twin|PATTERN|FLAGS`: whether the twin overlaps itself and the pattern, whether it covers itself, and whether it has the
/// user's name.
fn tell_with_twin(alloc: Global, pattern: &Pattern) -> Result<String, NoMemory> {
    let twin = pattern.recursive(alloc)?;
    let own = tell_overlap(alloc, &twin, &twin, true)?;
    let both = tell_overlap(alloc, &twin, pattern, true)?;
    let covered = yes_or_no(twin.covers(&twin, false));
    let user = yes_or_no(twin.has_user());
    Ok(format!(in alloc; "{own} {both} {covered} {user}")?)
}

/// `fits|VALUE`: whether a written value is a pattern without the user's name.
fn tell_fits(alloc: Global, row: &str) -> Result<String, NoMemory> {
    let value = spread(alloc, field(row, 1))?;
    tell_yes_or_no(alloc, value_fits(value.as_str()))
}

/// `alone|VALUE|FLAGS|TEXT`: whether the pattern of a written value stands for the text.
fn tell_alone(alloc: Global, row: &str) -> Result<String, NoMemory> {
    let written = field(row, 1);
    if !is_name(written) {
        return told(alloc, "no value");
    }
    let pattern = pattern_of(alloc, written, field(row, 2).contains('w'))?;
    tell_yes_or_no(alloc, pattern.matches(field(row, 3), "ann", false))
}

/// `any|VALUE|RECURSIVE|TEXT`: whether one of the patterns of a written value, which is recursive or not, stands for the text, and how
/// many there are.
fn tell_any(alloc: Global, row: &str) -> Result<String, NoMemory> {
    let written = field(row, 1);
    if !is_name(written) {
        return told(alloc, "no value");
    }
    let mut values = Vec::new(alloc);
    values.push(Text::copy_of(alloc, written)?)?;
    let patterns = value_patterns(alloc, &values, true, field(row, 2) == "recursive")?;
    let text = field(row, 3);
    let found = patterns
        .iter()
        .any(|pattern| pattern.matches(text, "ann", false));
    Ok(format!(in alloc; "{} {}", yes_or_no(found), patterns.len())?)
}

fn answer_of_pattern(alloc: Global, pattern: &Pattern, row: &str) -> Result<String, NoMemory> {
    match field(row, 0) {
        "matches" => tell_matches(alloc, pattern, row),
        "twin" => tell_twin(alloc, pattern, row),
        "overlap" => tell_overlaps(alloc, pattern, row),
        "covers" => tell_covers(alloc, pattern, row),
        "prefix" => tell_prefix(alloc, pattern, row),
        "with_twin" => tell_with_twin(alloc, pattern),
        _ => told(alloc, "no such row"),
    }
}

pub(crate) fn answer(alloc: Global, row: &str) -> Result<String, NoMemory> {
    match field(row, 0) {
        "parse" => tell_parsed(alloc, row),
        "fits" => tell_fits(alloc, row),
        "alone" => tell_alone(alloc, row),
        "any" => tell_any(alloc, row),
        _ => match parsed(alloc, field(row, 1), field(row, 2)) {
            Ok(pattern) => answer_of_pattern(alloc, &pattern, row),
            Err(fault) => tell_fault(alloc, fault),
        },
    }
}
