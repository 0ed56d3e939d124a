// Commands in a few words.
use rg_base::{NoMemory, PolicyId, Text, Version};
use rg_cmd::{AdminCommand, Part};
use rg_policy::Policy;
use rg_tags::TagRow;
use std::alloc::Global;

/// A word and a name.
pub(crate) fn named(alloc: Global, word: &str, name: &Text) -> Result<String, NoMemory> {
    let name = name.as_str();
    Ok(format!(in alloc; "{word} {name}")?)
}

fn numbered(alloc: Global, word: &str, id: i64) -> Result<String, NoMemory> {
    Ok(format!(in alloc; "{word} {id}")?)
}

fn policy_text(alloc: Global, word: &str, policy: &Policy) -> Result<String, NoMemory> {
    let (id, name) = (policy.id.0, policy.name.as_str());
    Ok(format!(in alloc; "{word} {id} {name}")?)
}

fn tags_text(alloc: Global, id: i64, row: &TagRow) -> Result<String, NoMemory> {
    let (own, service) = (row.id, row.service.as_str());
    Ok(format!(in alloc; "PutTags {id} {own} {service}")?)
}

/// A version that a client knows, or `-`.
fn version_text(alloc: Global, version: Option<Version>) -> Result<String, NoMemory> {
    match version {
        None => Ok(String::from_str(alloc, "-")?),
        Some(Version(number)) => Ok(format!(in alloc; "{number}")?),
    }
}

fn download_text(
    alloc: Global,
    service: &Text,
    known: [Option<Version>; 3],
    part: Part,
) -> Result<String, NoMemory> {
    let [policies, tags, roles] = known;
    let service = service.as_str();
    let policies = version_text(alloc, policies)?;
    let tags = version_text(alloc, tags)?;
    let roles = version_text(alloc, roles)?;
    Ok(format!(in alloc; "Download {service} {policies} {tags} {roles} {part:?}")?)
}

/// A command's name, and the names and numbers that tell what it is about.
pub(crate) fn command_text(
    alloc: Global,
    command: &AdminCommand,
    part: Part,
) -> Result<String, NoMemory> {
    match command {
        AdminCommand::PutDef { def } => named(alloc, "PutDef", &def.name),
        AdminCommand::CreateService { service } => named(alloc, "CreateService", &service.name),
        AdminCommand::UpdateService { service } => named(alloc, "UpdateService", &service.name),
        AdminCommand::DeleteService { name } => named(alloc, "DeleteService", name),
        AdminCommand::CreatePolicy { policy } => policy_text(alloc, "CreatePolicy", policy),
        AdminCommand::UpdatePolicy { policy } => policy_text(alloc, "UpdatePolicy", policy),
        AdminCommand::DeletePolicy { id: PolicyId(id) } => numbered(alloc, "DeletePolicy", *id),
        AdminCommand::GetPolicy { id: PolicyId(id) } => numbered(alloc, "GetPolicy", *id),
        AdminCommand::ListPolicies { service } => named(alloc, "ListPolicies", service),
        AdminCommand::PutRole { role } => named(alloc, "PutRole", &role.name),
        AdminCommand::DeleteRole { name } => named(alloc, "DeleteRole", name),
        AdminCommand::PutZone { zone } => named(alloc, "PutZone", &zone.name),
        AdminCommand::DeleteZone { name } => named(alloc, "DeleteZone", name),
        AdminCommand::PutTags { id, row } => tags_text(alloc, *id, row),
        AdminCommand::DeleteTags { id } => numbered(alloc, "DeleteTags", *id),
        AdminCommand::PutUser { user } => named(alloc, "PutUser", &user.name),
        AdminCommand::DeleteUser { name } => named(alloc, "DeleteUser", name),
        AdminCommand::Download {
            service,
            policies_from,
            tags_from,
            roles_from,
        } => download_text(
            alloc,
            service,
            [*policies_from, *tags_from, *roles_from],
            part,
        ),
    }
}
