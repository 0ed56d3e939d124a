// What a line of a script asks, and why it is bad where it stands. The cells of a row: where the line stands, or `read`, and the line.
use crate::cells::cell;
use rg_base::{Moment, NoMemory};
use rg_facts_check::Unsound;
use rg_script::{Cause, Line, LineFault, Place, explain_line, read_line};
use std::alloc::Global;

fn place_of(word: &str) -> Place {
    match word.as_bytes() {
        b"facts" => Place::Facts,
        b"config" => Place::Config,
        _ => Place::Start,
    }
}

/// What makes facts unsound, one behind the other.
fn unsound_text(alloc: Global, list: &[Unsound]) -> Result<String, NoMemory> {
    let mut text = String::new(alloc);
    for (place, unsound) in list.iter().enumerate() {
        let between = if place == 0 { "" } else { "; " };
        let unsound = format!(in alloc; "{between}{unsound:?}")?;
        text.push_str(unsound.as_str())?;
    }
    Ok(text)
}

fn cause_text(alloc: Global, cause: &Cause) -> Result<String, NoMemory> {
    match cause {
        Cause::NoWord => Ok(String::from_str(alloc, "no word")?),
        Cause::Json { path, kind } => {
            let path = path.as_str();
            Ok(format!(in alloc; "{path} {kind:?}")?)
        }
        Cause::OutOfPlace => Ok(String::from_str(alloc, "out of place")?),
        Cause::Unsound(list) => unsound_text(alloc, list.as_slice()),
        Cause::Refused(rule) => Ok(format!(in alloc; "{rule:?}")?),
    }
}

/// Why the line is bad in a few words.
fn explained(alloc: Global, place: Place, line: &str) -> Result<String, NoMemory> {
    match explain_line(alloc, place, line.as_bytes(), Moment(0))? {
        None => Ok(String::from_str(alloc, "good")?),
        Some(cause) => cause_text(alloc, &cause),
    }
}

/// What a line asks, in one word.
fn kind_of(alloc: Global, line: &str) -> &'static str {
    match read_line(alloc, line.as_bytes(), Moment(7)) {
        Ok(Line::Blank) => "blank",
        Ok(Line::Facts(_facts)) => "facts",
        Ok(Line::Config(_config)) => "config",
        Ok(Line::Admin(_ask)) => "admin",
        Ok(Line::Refresh) => "refresh",
        Ok(Line::Decide(_request)) => "decide",
        Err(LineFault::Bad) => "bad",
        Err(LineFault::NoMemory) => "no memory",
    }
}

/// What a row's line asks, or why it is bad.
pub(crate) fn told(alloc: Global, row: &str) -> Result<String, NoMemory> {
    let (place, line) = (cell(row, 0), cell(row, 1));
    if place == "read" {
        Ok(String::from_str(alloc, kind_of(alloc, line))?)
    } else {
        explained(alloc, place_of(place), line)
    }
}
