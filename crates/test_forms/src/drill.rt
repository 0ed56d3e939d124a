// What the drill makes up. The cells of a row: `policy`, `request`, `definition` or `configuration`, and the seed of the first two.
use crate::cells::{cell, unsigned};
use rg_base::NoMemory;
use rg_defs::check_def;
use rg_drill::{Generator, drill_config, hive};
use rg_policy::{AccessRequest, Policy};
use std::alloc::Global;

/// The first value of the policy's first level.
fn database_of(policy: &Policy) -> &str {
    let Some(level) = policy.resources.as_slice().first() else {
        return "no level";
    };
    match level.values.as_slice().first() {
        Some(value) => value.as_str(),
        None => "no value",
    }
}

/// The value of the request's last element but one.
fn table_of(request: &AccessRequest) -> &str {
    match request.resource.elements.as_slice().get(1) {
        Some(element) => element.value.as_str(),
        None => "no element",
    }
}

/// The database of the first policy.
fn first_policy(alloc: Global, seed: u64) -> Result<String, NoMemory> {
    let policy = Generator::new(seed).policy(alloc, 1)?;
    let text = String::from_str(alloc, database_of(&policy))?;
    drop(policy);
    Ok(text)
}

/// The table of the first request where there are no policies.
fn first_request(alloc: Global, seed: u64) -> Result<String, NoMemory> {
    let request = Generator::new(seed).request(alloc, 0)?;
    let text = String::from_str(alloc, table_of(&request))?;
    drop(request);
    Ok(text)
}

/// Whether the definition meets its rules.
fn definition(alloc: Global) -> Result<String, NoMemory> {
    let def = hive(alloc)?;
    let is_lawful = check_def(alloc, &def).is_ok();
    drop(def);
    Ok(format!(in alloc; "lawful={is_lawful}")?)
}

/// The services of the configuration, and the one that it is the plugin of.
fn configuration(alloc: Global) -> Result<String, NoMemory> {
    let config = drill_config(alloc)?;
    let (services, plugin) = (config.services.len(), config.plugin.as_str());
    let text = format!(in alloc; "services={services} plugin={plugin}")?;
    drop(config);
    Ok(text)
}

/// What a row asks of the drill.
pub(crate) fn made(alloc: Global, row: &str) -> Result<String, NoMemory> {
    let seed = unsigned(row, 1);
    match cell(row, 0).as_bytes() {
        b"policy" => first_policy(alloc, seed),
        b"request" => first_request(alloc, seed),
        b"definition" => definition(alloc),
        _ => configuration(alloc),
    }
}
