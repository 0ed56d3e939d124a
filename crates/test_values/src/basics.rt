// Rows about texts, lists, names and counted work.
use crate::rows::{add_names, field, names, pairs, tell_place, tell_yes_or_no, told, yes_or_no};
use rg_base::{
    Ledger, NameIndex, NoMemory, Seq, Steps, Text, TryCopy, all_names_distinct, char_count,
    find_named, folded_char, is_among, is_empty, is_name, is_named, names_distinct, place_named,
    same_text, split_char, value_of,
};
use std::alloc::Global;

/// `text|BEGIN|REST`: the copy of a text that grew by the characters of REST, and how many it has.
fn tell_text(alloc: Global, begin: &str, rest: &str) -> Result<String, NoMemory> {
    let mut text = Text::copy_of(alloc, begin)?;
    for c in rest.chars() {
        text.push(c)?;
    }
    let copy = text.try_copy(alloc)?;
    let copied = copy.as_str();
    Ok(format!(in alloc; "\"{copied}\", {} characters", char_count(copied))?)
}

/// `append|BEGIN|REST`: a text that grew by another.
fn tell_appended(alloc: Global, begin: &str, rest: &str) -> Result<String, NoMemory> {
    let mut text = Text::of(String::from_str(alloc, begin)?);
    text.append(rest)?;
    Ok(format!(in alloc; "\"{}\"", text.as_str())?)
}

/// `empty_text`: a text without characters.
fn tell_empty_text(alloc: Global) -> Result<String, NoMemory> {
    let text = Text::empty(alloc);
    Ok(format!(in alloc; "\"{}\"", text.as_str())?)
}

/// `fold|CHARACTER`: the character where case counts for nothing, and where it counts.
fn tell_folded(alloc: Global, text: &str) -> Result<String, NoMemory> {
    let Some((c, _)) = split_char(text) else {
        return told(alloc, "no character");
    };
    Ok(format!(in alloc; "{} {}", folded_char(true, c), folded_char(false, c))?)
}

/// `split|TEXT`: its first character and the rest.
fn tell_split(alloc: Global, text: &str) -> Result<String, NoMemory> {
    match split_char(text) {
        Some((first, rest)) => Ok(format!(in alloc; "'{first}' \"{rest}\"")?),
        None => told(alloc, "-"),
    }
}

/// A list that grew by a push into a reserved place, and by another name.
fn grown(alloc: Global, start: &str, pushed: &str, added: &str) -> Result<Seq<Text>, NoMemory> {
    let mut list = Seq::from_vec(names(alloc, start)?.into_vec());
    list.reserve()?;
    let pushed = Text::copy_of(alloc, pushed)?;
    if list.push(pushed).is_err() {
        return Err(NoMemory);
    }
    list.add(Text::copy_of(alloc, added)?)?;
    Ok(list)
}

/// Adds the names of the list, and those that its copy gives back.
fn add_both(answer: &mut String, alloc: Global, list: &Seq<Text>) -> Result<(), NoMemory> {
    add_names(answer, list.as_slice())?;
    answer.push(' ')?;
    let copy = list.try_copy(alloc)?.into_vec();
    add_names(answer, copy.as_slice())
}

/// `list|NAMES|NAME|NAME`: a list that grew by two names; whether it is empty, its names, and those that its copy gives back.
fn tell_list(alloc: Global, start: &str, pushed: &str, added: &str) -> Result<String, NoMemory> {
    let list = grown(alloc, start, pushed, added)?;
    let count = list.len();
    let empty = yes_or_no(list.is_empty());
    let mut answer = format!(in alloc; "{count} names, empty {empty}, ")?;
    add_both(&mut answer, alloc, &list)?;
    Ok(answer)
}

/// `empty_list`: whether a new list is empty.
fn tell_empty_list(alloc: Global) -> Result<String, NoMemory> {
    let list: Seq<Text> = Seq::new(alloc);
    tell_yes_or_no(alloc, list.is_empty())
}

fn take_steps<L: Ledger>(steps: &mut Steps<L>, kinds: &str) {
    for kind in kinds.split(',') {
        match kind {
            "compile" => steps.compile(),
            "edit" => steps.edit(),
            _ => steps.attempt(),
        }
    }
}

/// `counted|KINDS`: what a ledger that counts holds after steps of these kinds.
fn tell_counted(alloc: Global, kinds: &str) -> Result<String, NoMemory> {
    let mut steps = Steps::counted();
    take_steps(&mut steps, kinds);
    let ledger = steps.ledger();
    let (compiles, edits, tries) = (ledger.compiles, ledger.edits, ledger.tries);
    Ok(format!(in alloc; "{compiles} compiles, {edits} edits, {tries} tries")?)
}

/// `silent|KINDS`: the same of one that keeps nothing.
fn tell_silent(alloc: Global, kinds: &str) -> Result<String, NoMemory> {
    let mut steps = Steps::silent();
    take_steps(&mut steps, kinds);
    Ok(format!(in alloc; "{:?}", steps.ledger())?)
}

/// `value|PAIRS|KEY`: the value of the first pair of this key, in a copy of the pairs.
fn tell_value(alloc: Global, text: &str, key: &str) -> Result<String, NoMemory> {
    let copy = pairs(alloc, text)?.try_copy(alloc)?;
    match value_of(copy.as_slice(), key) {
        Some(value) => told(alloc, value.as_str()),
        None => told(alloc, "-"),
    }
}

/// `distinct|NAMES`: whether no two are the same, by pairs and by an index.
fn tell_distinct(alloc: Global, text: &str) -> Result<String, NoMemory> {
    let list = names(alloc, text)?;
    let by_index = all_names_distinct(alloc, list.as_slice())?;
    let by_pairs = names_distinct(list.as_slice());
    Ok(format!(in alloc; "{} {}", yes_or_no(by_pairs), yes_or_no(by_index))?)
}

/// `named|NAMES|NAME`: whether the name is there, as a text and as a name, its place, and what is found.
fn tell_named(alloc: Global, text: &str, name: &str) -> Result<String, NoMemory> {
    let list = names(alloc, text)?;
    let things = list.as_slice();
    let among = yes_or_no(is_among(name, things));
    let named = yes_or_no(is_named(things, name));
    let found = match find_named(things, name) {
        Some(found) => found.as_str(),
        None => "-",
    };
    match place_named(things, name) {
        Some(place) => Ok(format!(in alloc; "{among} {named} {place} {found}")?),
        None => Ok(format!(in alloc; "{among} {named} - {found}")?),
    }
}

/// `index|NAMES|NAME`: the place of the name by an index, and whether it is there.
fn tell_indexed(alloc: Global, text: &str, name: &str) -> Result<String, NoMemory> {
    let index = NameIndex::build(alloc, names(alloc, text)?.as_slice())?;
    let mut answer = tell_place(alloc, index.place_of(name))?;
    answer.push(' ')?;
    answer.push_str(yes_or_no(index.contains(name)))?;
    Ok(answer)
}

/// `repeat|NAMES`: the first place of a repeated name by an index, and whether the names are distinct.
fn tell_repeat(alloc: Global, text: &str) -> Result<String, NoMemory> {
    let index = NameIndex::build(alloc, names(alloc, text)?.as_slice())?;
    let mut answer = tell_place(alloc, index.first_repeat())?;
    answer.push(' ')?;
    answer.push_str(yes_or_no(index.are_distinct()))?;
    Ok(answer)
}

fn answer_of_text(alloc: Global, row: &str) -> Result<String, NoMemory> {
    let (first, second) = (field(row, 1), field(row, 2));
    match field(row, 0) {
        "text" => tell_text(alloc, first, second),
        "append" => tell_appended(alloc, first, second),
        "empty_text" => tell_empty_text(alloc),
        "fold" => tell_folded(alloc, first),
        "split" => tell_split(alloc, first),
        "is_empty" => tell_yes_or_no(alloc, is_empty(first)),
        "is_name" => tell_yes_or_no(alloc, is_name(first)),
        "same" => tell_yes_or_no(alloc, same_text(first, second)),
        _ => told(alloc, "no such row"),
    }
}

pub(crate) fn answer(alloc: Global, row: &str) -> Result<String, NoMemory> {
    let (first, second) = (field(row, 1), field(row, 2));
    match field(row, 0) {
        "list" => tell_list(alloc, first, second, field(row, 3)),
        "empty_list" => tell_empty_list(alloc),
        "counted" => tell_counted(alloc, first),
        "silent" => tell_silent(alloc, first),
        "value" => tell_value(alloc, first, second),
        "distinct" => tell_distinct(alloc, first),
        "named" => tell_named(alloc, first, second),
        "index" => tell_indexed(alloc, first, second),
        "repeat" => tell_repeat(alloc, first),
        _ => answer_of_text(alloc, row),
    }
}
