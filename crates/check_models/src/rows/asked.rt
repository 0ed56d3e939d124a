// What is asked in rows: elements, as `LEVEL=VALUE` with a `;` between, and changes, as a word, an id and more.
use rg_base::{Moment, NoMemory, Seq, Text};
use rg_cmd::{CREATED, DELETED, UPDATED};
use rg_policy::{AccessRequest, Element, Resource};
use std::alloc::Global;

pub(super) fn number(written: &str) -> i64 {
    written.parse::<i64>().unwrap_or(0)
}

fn element(alloc: Global, level: &str, value: &str) -> Result<Element, NoMemory> {
    Ok(Element {
        level: Text::copy_of(alloc, level)?,
        value: Text::copy_of(alloc, value)?,
    })
}

/// The resource of these elements. What has no `=` is no element.
pub(super) fn resource(alloc: Global, written: &str) -> Result<Resource, NoMemory> {
    let mut elements = Seq::new(alloc);
    for part in written.split(';') {
        if let Some((level, value)) = part.split_once('=') {
            elements.add(element(alloc, level, value)?)?;
        }
    }
    Ok(Resource {
        elements,
        owner: Text::empty(alloc),
    })
}

/// The request of ann to select there.
pub(super) fn request(alloc: Global, written: &str) -> Result<AccessRequest, NoMemory> {
    let resource = resource(alloc, written)?;
    Ok(AccessRequest {
        user: Text::copy_of(alloc, "ann")?,
        groups: Seq::new(alloc),
        resource,
        access: Text::copy_of(alloc, "select")?,
        moment: Moment(0),
        address: Text::empty(alloc),
        context: Seq::new(alloc),
    })
}

/// A change as a row has it: `tag` where it is of a tag policy, what is done, an id, and what is done with it.
#[derive(Clone, Copy)]
pub(super) struct Change<'a> {
    pub(super) is_tag: bool,
    pub(super) change_type: u8,
    pub(super) id: i64,
    pub(super) what: &'a str,
}

fn change_type(word: &str) -> u8 {
    match word {
        "created" => CREATED,
        "updated" => UPDATED,
        _ => DELETED,
    }
}

pub(super) fn read_change(written: &str) -> Change<'_> {
    let (is_tag, written) = match written.strip_prefix("tag ") {
        Some(rest) => (true, rest),
        None => (false, written),
    };
    let mut words = written.split(' ');
    Change {
        is_tag,
        change_type: change_type(words.next().unwrap_or("")),
        id: number(words.next().unwrap_or("")),
        what: words.next().unwrap_or(""),
    }
}
