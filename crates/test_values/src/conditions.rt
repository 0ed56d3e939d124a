// Rows about conditions. What is given is the definition in JSON. A row begins with the condition's name and its values.
use crate::rows::{field, names, number, pairs, tell_yes_or_no, told};
use rg_base::{Moment, NoMemory, Seq, Text};
use rg_cond::{CondFault, Condition, compile_condition, condition_fault};
use rg_defs::ServiceDef;
use rg_policy::{AccessRequest, PolicyCondition, Resource, Tag};
use rg_wire::read_def;
use std::alloc::Global;

fn written(alloc: Global, row: &str) -> Result<PolicyCondition, NoMemory> {
    Ok(PolicyCondition {
        name: Text::copy_of(alloc, field(row, 1))?,
        values: names(alloc, field(row, 2))?,
    })
}

fn name_of(fault: CondFault) -> &'static str {
    match fault {
        CondFault::Unknown => "Unknown",
        CondFault::Unsupported => "Unsupported",
        CondFault::BadValues => "BadValues",
        CondFault::NoMemory => "NoMemory",
    }
}

/// A request at the moment, from the address and with the context that stand from this place on.
fn request(alloc: Global, row: &str) -> Result<AccessRequest, NoMemory> {
    Ok(AccessRequest {
        user: Text::empty(alloc),
        groups: Seq::new(alloc),
        resource: Resource {
            elements: Seq::new(alloc),
            owner: Text::empty(alloc),
        },
        access: Text::empty(alloc),
        moment: Moment(number(field(row, 3))),
        address: Text::copy_of(alloc, field(row, 4))?,
        context: pairs(alloc, field(row, 5))?,
    })
}

/// The tag with these attributes, none for `-`.
fn tag(alloc: Global, attributes: &str) -> Result<Option<Tag>, NoMemory> {
    if attributes == "-" {
        return Ok(None);
    }
    Ok(Some(Tag {
        kind: Text::copy_of(alloc, "EXPIRES_ON")?,
        attributes: pairs(alloc, attributes)?,
    }))
}

/// `holds|NAME|VALUES|MOMENT|ADDRESS|CONTEXT|ATTRIBUTES`: whether the condition holds for the request and the tag.
fn tell_held(alloc: Global, condition: &Condition, row: &str) -> Result<String, NoMemory> {
    let request = request(alloc, row)?;
    let tag = tag(alloc, field(row, 6))?;
    tell_yes_or_no(alloc, condition.holds(&request, tag.as_ref()))
}

/// `compiles|NAME|VALUES`: whether it compiles, or why not; two calls say the same.
fn answer_of_def(alloc: Global, def: &ServiceDef, row: &str) -> Result<String, NoMemory> {
    let condition = written(alloc, row)?;
    let fault = condition_fault(def, &condition);
    match compile_condition(alloc, def, &condition) {
        Ok(_) if fault.is_some() => told(alloc, "compiled, with a fault"),
        Ok(compiled) => match field(row, 0) {
            "holds" => tell_held(alloc, &compiled, row),
            _ => told(alloc, "compiled"),
        },
        Err(other) if fault == Some(other) => told(alloc, name_of(other)),
        Err(_) => told(alloc, "another fault"),
    }
}

pub(crate) fn answer(alloc: Global, given: &str, row: &str) -> Result<String, NoMemory> {
    let Ok(def) = read_def(alloc, given.as_bytes()) else {
        return told(alloc, "no definition");
    };
    let answer = answer_of_def(alloc, &def, row);
    drop(def);
    answer
}
