// Views that are moved by downloads, and compared with views anew.
use super::deltas::deltas_of;
use crate::deltas::Deltas;
use rg_admin::Admin;
use rg_base::{NoMemory, Text, TryCopy, same_text};
use rg_cmd::{
    AdminCommand, AdminReply, Ask, Download, PolicyPart, PolicyWhole, RolePart, RoleWhole, TagPart,
    TagWhole,
};
use rg_cmd_wire::print_reply;
use rg_delta::apply_plain;
use rg_facts::Facts;
use rg_validate::service_exists;
use std::alloc::Global;

/// How many views were moved by deltas, how many came whole, and how many of the moved ones agreed with the view anew.
#[derive(Drop)]
pub(crate) struct Counts {
    pub(crate) moved: u64,
    pub(crate) whole: u64,
    pub(crate) agreed: u64,
}

impl Counts {
    pub(crate) fn new() -> Counts {
        Counts {
            moved: 0,
            whole: 0,
            agreed: 0,
        }
    }

    fn count_moved(&mut self, agrees: bool) {
        self.moved = self.moved.saturating_add(1);
        self.agreed = self.agreed.saturating_add(u64::from(agrees));
    }

    fn count_whole(&mut self) {
        self.whole = self.whole.saturating_add(1);
    }
}

/// The view of the service anew.
fn anew(alloc: Global, admin: &Admin, service: &Text) -> Option<Facts> {
    if !service_exists(admin.state(), service) {
        return None;
    }
    match admin.view(alloc, service.as_str()) {
        Ok(facts) => Some(facts),
        Err(_) => None,
    }
}

/// The view of the service of this name.
pub(crate) fn view(alloc: Global, admin: &Admin, service: &str) -> Option<Facts> {
    match Text::copy_of(alloc, service) {
        Ok(service) => anew(alloc, admin, &service),
        Err(_) => None,
    }
}

// ---- downloads

/// What the plugin asks that has this view.
fn download_ask(alloc: Global, facts: &Facts) -> Result<Ask, NoMemory> {
    Ok(Ask {
        actor: Text::empty(alloc),
        command: AdminCommand::Download {
            service: facts.service.try_copy(alloc)?,
            policies_from: Some(facts.policy_version),
            tags_from: Some(facts.tag_version),
            roles_from: Some(facts.role_version),
        },
    })
}

fn download_in(reply: AdminReply) -> Option<Download> {
    match reply {
        AdminReply::Downloaded(download) => return Some(download),
        other => {
            drop(other);
            return None;
        }
    }
}

/// What the view lacks.
fn downloaded(alloc: Global, admin: &mut Admin, facts: &Facts) -> Option<Download> {
    match download_ask(alloc, facts) {
        Ok(ask) => match admin.step(alloc, ask) {
            Ok(reply) => download_in(reply),
            Err(_) => None,
        },
        Err(_) => None,
    }
}

// ---- comparing

fn policy_whole(alloc: Global, facts: &Facts) -> Result<PolicyWhole, NoMemory> {
    Ok(PolicyWhole {
        version: facts.policy_version,
        fallback: facts.fallback,
        def: facts.def.try_copy(alloc)?,
        tag_def: facts.tag_def.try_copy(alloc)?,
        policies: facts.policies.try_copy(alloc)?,
        tag_policies: facts.tag_policies.try_copy(alloc)?,
        zones: facts.zones.try_copy(alloc)?,
        time_zones: facts.time_zones.try_copy(alloc)?,
    })
}

fn tag_whole(alloc: Global, facts: &Facts) -> Result<TagWhole, NoMemory> {
    Ok(TagWhole {
        version: facts.tag_version,
        rows: facts.tag_rows.try_copy(alloc)?,
    })
}

fn role_whole(alloc: Global, facts: &Facts) -> Result<RoleWhole, NoMemory> {
    Ok(RoleWhole {
        version: facts.role_version,
        roles: facts.roles.try_copy(alloc)?,
    })
}

/// All of the view but the name of its service.
fn whole(alloc: Global, facts: &Facts) -> Result<Download, NoMemory> {
    let policies = policy_whole(alloc, facts)?;
    let tags = tag_whole(alloc, facts)?;
    let roles = role_whole(alloc, facts)?;
    Ok(Download {
        seq: 0,
        policies: PolicyPart::Whole(policies),
        tags: TagPart::Whole(tags),
        roles: RolePart::Whole(roles),
    })
}

/// The view in print, which tells any two views of a service apart.
fn printed(alloc: Global, facts: &Facts) -> Result<Text, NoMemory> {
    match whole(alloc, facts) {
        Ok(download) => {
            let reply = AdminReply::Downloaded(download);
            let text = print_reply(alloc, &reply);
            drop(reply);
            text
        }
        Err(refused) => Err(refused),
    }
}

fn agree(alloc: Global, one: &Facts, other: &Facts) -> Result<bool, NoMemory> {
    let one = printed(alloc, one)?;
    let other = printed(alloc, other)?;
    Ok(same_text(one.as_str(), other.as_str()))
}

/// Moves the view by the deltas, and compares it with the one anew.
fn compared(alloc: Global, last: Facts, deltas: &Deltas, now: &Facts) -> Option<bool> {
    match apply_plain(alloc, last, &deltas.policies, &deltas.tags, &deltas.roles) {
        Ok(moved) => match agree(alloc, &moved, now) {
            Ok(agrees) => Some(agrees),
            Err(_) => None,
        },
        Err(_) => None,
    }
}

/// Moves the view where there are deltas, and counts what comes of it.
fn count_moved(
    alloc: Global,
    last: Facts,
    deltas: Option<Deltas>,
    now: &Facts,
    counts: &mut Counts,
) -> Option<()> {
    match deltas {
        Some(deltas) => {
            let agrees = compared(alloc, last, &deltas, now)?;
            counts.count_moved(agrees);
        }
        None => {
            drop(last);
            counts.count_whole();
        }
    }
    Some(())
}

/// Moves the view by a download, which is compared; where policies or tag rows come whole there is nothing to move. The
/// view anew.
pub(crate) fn follow(
    alloc: Global,
    admin: &mut Admin,
    last: Facts,
    counts: &mut Counts,
) -> Option<Facts> {
    let download = downloaded(alloc, admin, &last)?;
    let now = anew(alloc, admin, &last.service)?;
    let deltas = deltas_of(alloc, &last, download);
    count_moved(alloc, last, deltas, &now, counts)?;
    Some(now)
}

/// The same where it is due.
pub(crate) fn follow_if(
    is_due: bool,
    alloc: Global,
    admin: &mut Admin,
    last: Facts,
    counts: &mut Counts,
) -> Option<Facts> {
    if is_due {
        return follow(alloc, admin, last, counts);
    }
    Some(last)
}
