// What stands in texts. The tables and what is made up have none that doesn't read or breaks a rule, so one counts as want of memory.
ghost use Rattle.std.specs.Prelude.{◌≡◌, IfOk, None, OnOk, true};
ghost use Rattle.rg_defs.specs.Rules.{def_fault};
ghost use Rattle.rg_facts.specs.Sound.{sound};

use rg_base::{Moment, NoMemory};
use rg_defs::{Paths, ServiceDef, check_def};
use rg_facts::Facts;
use rg_facts_check::facts_fault;
use rg_policy::{AccessRequest, Policy};
use rg_tags::TagRow;
use rg_wire::{read_def, read_facts, read_policy, read_request, read_tag_row, read_zone};
use rg_zone_rules::ZoneRow;
use std::alloc::Global;

pub(crate) fn facts(alloc: Global, text: &str) -> Result<Facts, NoMemory> {
    match read_facts(alloc, text.as_bytes()) {
        Ok(facts) => Ok(facts),
        Err(_) => Err(NoMemory),
    }
}

pub(crate) fn definition(alloc: Global, text: &str) -> Result<ServiceDef, NoMemory> {
    match read_def(alloc, text.as_bytes()) {
        Ok(definition) => Ok(definition),
        Err(_) => Err(NoMemory),
    }
}

pub(crate) fn policy(alloc: Global, text: &str) -> Result<Policy, NoMemory> {
    match read_policy(alloc, text.as_bytes()) {
        Ok(policy) => Ok(policy),
        Err(_) => Err(NoMemory),
    }
}

pub(crate) fn tag_row(alloc: Global, text: &str) -> Result<TagRow, NoMemory> {
    match read_tag_row(alloc, text.as_bytes()) {
        Ok(row) => Ok(row),
        Err(_) => Err(NoMemory),
    }
}

pub(crate) fn zone(alloc: Global, text: &str) -> Result<ZoneRow, NoMemory> {
    match read_zone(alloc, text.as_bytes()) {
        Ok(zone) => Ok(zone),
        Err(_) => Err(NoMemory),
    }
}

pub(crate) fn request(alloc: Global, text: &str) -> Result<AccessRequest, NoMemory> {
    match read_request(alloc, text.as_bytes(), Moment(0)) {
        Ok(request) => Ok(request),
        Err(_) => Err(NoMemory),
    }
}

/// The facts themselves, which are sound.
pub(crate) fn judged(alloc: Global, facts: Facts) -> Result<Facts, NoMemory>
    ensures same { IfOk result (λ after. after ≡ facts) }
    ensures sound { IfOk result (λ after. sound after ≡ true) }
{
    let is_unsound = facts_fault(alloc, &facts)?;
    if is_unsound {
        drop(facts);
        return Err(NoMemory);
    }
    Ok(facts)
}

/// The paths of the definition, which passes its rules.
pub(crate) fn paths(alloc: Global, definition: &ServiceDef) -> Result<Paths, NoMemory>
    ensures own { IfOk result (λ paths. paths ≡ definition.now.levels.items) }
    ensures lawful { OnOk result (def_fault definition.now ≡ None) }
{
    if check_def(alloc, definition).is_err() {
        return Err(NoMemory);
    }
    Paths::of(alloc, definition)
}
