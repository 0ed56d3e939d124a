// Rows about definitions. What is given is a definition in JSON; in the row `KIND|A|B|OLD|NEW|..` each OLD of it gives way to the NEW
// behind it.
use crate::rows::{add_names, field, names, number, spread, told, yes_or_no};
use rg_base::{NoMemory, Seq, Text};
use rg_defs::{DefFault, Level, Paths, ServiceDef, check_def, expand, grants, mandatory_named};
use rg_wire::read_def;
use std::alloc::Global;

/// The text with the new part in the place of the old one; no text where the old part isn't there.
fn replaced(alloc: Global, text: &str, old: &str, new: &str) -> Result<String, NoMemory> {
    match text.split_once(old) {
        Some((before, after)) => {
            let new = spread(alloc, new)?;
            Ok(format!(in alloc; "{before}{}{after}", new.as_str())?)
        }
        None => Ok(String::new(alloc)),
    }
}

/// The text with the parts that the fields from this place on replace.
fn changed(alloc: Global, given: &str, row: &str) -> Result<String, NoMemory> {
    let mut text = told(alloc, given)?;
    for place in [3, 5] {
        let old = field(row, place);
        if !old.is_empty() {
            text = replaced(alloc, text.as_str(), old, field(row, place + 1))?;
        }
    }
    Ok(text)
}

/// `fault`: the number of the least rule that fails, 0 for none.
fn tell_fault(alloc: Global, fault: Option<DefFault>) -> Result<String, NoMemory> {
    match fault {
        None => told(alloc, "0"),
        Some(DefFault::Rule(number)) => Ok(format!(in alloc; "{number}")?),
        Some(DefFault::NoMemory) => Err(NoMemory),
    }
}

/// Adds the places of each path.
fn add_paths(answer: &mut String, paths: &[Seq<u32>]) -> Result<(), NoMemory> {
    for path in paths {
        for place in path.as_slice() {
            write!(answer, "{place} ")?;
        }
        answer.push('|')?;
    }
    Ok(())
}

/// `paths`: the number of levels, and the paths.
fn tell_paths(alloc: Global, kept: &Paths) -> Result<String, NoMemory> {
    let mut answer = format!(in alloc; "{} levels, ", kept.levels().len())?;
    add_paths(&mut answer, kept.as_slice())?;
    Ok(answer)
}

/// `on_path|NAMES`: whether the levels lie on one path, and whether the mandatory ones above them are named.
fn tell_on_path(alloc: Global, kept: &Paths, row: &str) -> Result<String, NoMemory> {
    let named = names(alloc, field(row, 1))?;
    let on_one = kept.on_one_path(named.as_slice());
    let met = mandatory_named(kept.levels(), named.as_slice());
    Ok(format!(in alloc; "{} {}", yes_or_no(on_one), yes_or_no(met))?)
}

/// The name of the path's leaf, `-` where there is no path.
fn leaf_name<'a>(levels: &'a [Level], path: Option<&[u32]>) -> &'a str {
    let Some([.., leaf]) = path else {
        return "-";
    };
    match levels.get(*leaf as usize) {
        Some(level) => level.name.as_str(),
        None => "-",
    }
}

/// `both|NAMES|NAMES`: whether the levels of both lists lie on one path, and the leaf of the first path for the first list.
fn tell_both(alloc: Global, kept: &Paths, row: &str) -> Result<String, NoMemory> {
    let first = names(alloc, field(row, 1))?;
    let second = names(alloc, field(row, 2))?;
    let both = kept.both_on_one_path(first.as_slice(), second.as_slice());
    let leaf = leaf_name(kept.levels(), kept.path_for(first.as_slice()));
    Ok(format!(in alloc; "{} {leaf}", yes_or_no(both))?)
}

/// `expand|ACCESS`: the access types that it brings along.
fn tell_expanded(alloc: Global, def: &ServiceDef, row: &str) -> Result<String, NoMemory> {
    let list = expand(alloc, def, field(row, 1))?;
    let mut answer = String::new(alloc);
    add_names(&mut answer, list.as_slice())?;
    Ok(answer)
}

/// The answer about a lawful definition.
fn answer_of_def(alloc: Global, def: &ServiceDef, row: &str) -> Result<String, NoMemory> {
    match check_def(alloc, def) {
        Err(fault) => return tell_fault(alloc, Some(fault)),
        Ok(()) => {
            let kept = Paths::of(alloc, def)?;
            match field(row, 0) {
                "fault" => tell_fault(alloc, None),
                "paths" => tell_paths(alloc, &kept),
                "on_path" => tell_on_path(alloc, &kept, row),
                "both" => tell_both(alloc, &kept, row),
                "grants" => told(alloc, yes_or_no(grants(def, field(row, 1), field(row, 2)))),
                "expand" => tell_expanded(alloc, def, row),
                _ => told(alloc, "no such row"),
            }
        }
    }
}

pub(crate) fn answer(alloc: Global, given: &str, row: &str) -> Result<String, NoMemory> {
    let text = changed(alloc, given, row)?;
    let Ok(def) = read_def(alloc, text.as_str().as_bytes()) else {
        return told(alloc, "no definition");
    };
    let answer = answer_of_def(alloc, &def, row);
    drop(def);
    answer
}
