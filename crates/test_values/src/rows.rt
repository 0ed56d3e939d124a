// What rows are made of, and what answers are made of.
use rg_base::{NoMemory, Pair, Seq, Text};
use rg_json::{Reader, json_of, list_in};
use std::alloc::Global;

/// The field at this place; `|` parts them.
pub(crate) fn field(row: &str, place: usize) -> &str {
    row.split('|').nth(place).unwrap_or("")
}

/// The number that a text writes; 0 where it writes none.
pub(crate) fn number(text: &str) -> i64 {
    text.parse::<i64>().unwrap_or(0)
}

/// The same of a number that is small and not negative.
pub(crate) fn count(text: &str) -> u32 {
    text.parse::<u32>().unwrap_or(0)
}

/// An answer, or a part of one.
pub(crate) fn told(alloc: Global, text: &str) -> Result<String, NoMemory> {
    Ok(String::from_str(alloc, text)?)
}

pub(crate) fn yes_or_no(fact: bool) -> &'static str {
    if fact { "yes" } else { "no" }
}

pub(crate) fn tell_yes_or_no(alloc: Global, fact: bool) -> Result<String, NoMemory> {
    told(alloc, yes_or_no(fact))
}

/// A place, `-` where there is none.
pub(crate) fn tell_place(alloc: Global, place: Option<u32>) -> Result<String, NoMemory> {
    match place {
        Some(place) => Ok(format!(in alloc; "{place}")?),
        None => told(alloc, "-"),
    }
}

/// Adds the names, with a comma between two.
pub(crate) fn add_names(answer: &mut String, names: &[Text]) -> Result<(), NoMemory> {
    for (place, name) in names.iter().enumerate() {
        if 0 < place {
            answer.push(',')?;
        }
        answer.push_str(name.as_str())?;
    }
    Ok(())
}

/// The names that commas part; none of an empty text.
pub(crate) fn names(alloc: Global, text: &str) -> Result<Seq<Text>, NoMemory> {
    let mut list = Seq::new(alloc);
    for name in text.split(',') {
        if !text.is_empty() {
            list.add(Text::copy_of(alloc, name)?)?;
        }
    }
    Ok(list)
}

/// A key and a value.
pub(crate) fn pair(alloc: Global, key: &str, value: &str) -> Result<Pair, NoMemory> {
    Ok(Pair {
        key: Text::copy_of(alloc, key)?,
        value: Text::copy_of(alloc, value)?,
    })
}

/// The pairs `KEY=VALUE` that commas part.
pub(crate) fn pairs(alloc: Global, text: &str) -> Result<Seq<Pair>, NoMemory> {
    let mut list = Seq::new(alloc);
    for part in text.split(',') {
        if let Some((key, value)) = part.split_once('=') {
            list.add(pair(alloc, key, value)?)?;
        }
    }
    Ok(list)
}

/// The records of a list in JSON; none of a text that is no JSON.
pub(crate) fn records<X: Drop, W: Reader<X>>(
    alloc: Global,
    reader: &W,
    text: &str,
) -> Result<Seq<X>, NoMemory> {
    match json_of(alloc, text.as_bytes())? {
        Some(value) => list_in(alloc, reader, &value),
        None => Ok(Seq::new(alloc)),
    }
}

/// Adds the text so many times, in which `$` is the number of the turn, counted from 0, and `%` that of the next.
fn repeat(made: &mut String, times: u32, text: &str) -> Result<(), NoMemory> {
    for turn in 0..times {
        add_turn(made, turn, text)?;
    }
    Ok(())
}

fn add_turn(made: &mut String, turn: u32, text: &str) -> Result<(), NoMemory> {
    for c in text.chars() {
        match c {
            '$' => write!(made, "{turn}")?,
            '%' => write!(made, "{}", turn.saturating_add(1))?,
            _ => made.push(c)?,
        }
    }
    Ok(())
}

/// The text, in which each `<TIMES:PART>` gives way to so many times the part.
pub(crate) fn spread(alloc: Global, text: &str) -> Result<String, NoMemory> {
    let mut made = String::new(alloc);
    for piece in text.split('<') {
        match piece.split_once('>') {
            Some((marked, after)) => {
                let (times, part) = marked.split_once(':').unwrap_or(("", ""));
                repeat(&mut made, count(times), part)?;
                made.push_str(after)?;
            }
            None => made.push_str(piece)?,
        }
    }
    Ok(made)
}
