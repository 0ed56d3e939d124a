// What a service's plugin downloads. Only what the answer has is copied.
ghost use Rattle.std.specs.Prelude.{◌≡◌, IfOk};
ghost use Rattle.std.specs.List.{filter_map, list_any};
ghost use Rattle.std.specs.Str.{chars};
ghost use Rattle.std.specs.VecDeque.Iter.{deque_iter_rest};
ghost use Rattle.rg_base.specs.Listed.{listed};
ghost use Rattle.rg_admin_laws.specs.Downloads.{download, is_of_zones, policy_change, policy_delta, policy_part, role_part, tag_delta, tag_part};
ghost use Rattle.rg_admin_laws.specs.Logs.{policy_book, tag_book};
ghost use Rattle.rg_admin.specs.Held.{administration_of};

use crate::logs::ServiceLog;
use crate::served::Served;
use rg_base::{NoMemory, Seq, TryCopy, Version};
use rg_cmd::{
    Download, LogEntry, PolicyChange, PolicyDelta, PolicyPart, RolePart, State, TagChange,
    TagDelta, TagPart,
};
use rg_delta::Since;
use std::alloc::Global;
use std::collections::vec_deque::Iter;

/// Copies of the changes of policies, and whether some change was of a zone.
fn copy_entries(
    alloc: Global,
    entries: Iter<LogEntry>,
) -> Result<(Seq<PolicyChange>, bool), NoMemory>
    ensures changes { IfOk result
        (λ r. r.0 ≡ listed (filter_map policy_change (deque_iter_rest entries.entry))) }
    ensures zones { IfOk result (λ r. r.1 ≡ list_any is_of_zones (deque_iter_rest entries.entry)) }
{
    let mut changes = Seq::new(alloc);
    let mut of_zones = false;
    for entry in entries {
        match entry {
            LogEntry::Policy(change) => changes.add(change.try_copy(alloc)?)?,
            LogEntry::Zones => of_zones = true,
        }
    }
    Ok((changes, of_zones))
}

fn copy_changes(alloc: Global, changes: Iter<TagChange>) -> Result<Seq<TagChange>, NoMemory>
    ensures { IfOk result (λ list. list ≡ listed (deque_iter_rest changes.entry)) }
{
    let mut list = Seq::new(alloc);
    for change in changes {
        list.add(change.try_copy(alloc)?)?;
    }
    Ok(list)
}

fn policy_delta(
    alloc: Global,
    served: &Served,
    from: Version,
    entries: Iter<LogEntry>,
) -> Result<PolicyDelta, NoMemory>
    ensures { IfOk result
        (λ delta. delta ≡ policy_delta served.now.facts from (deque_iter_rest entries.entry)) }
{
    let (changes, of_zones) = copy_entries(alloc, entries)?;
    let zones = if of_zones {
        Some(served.state.zones.try_copy(alloc)?)
    } else {
        None
    };
    Ok(PolicyDelta {
        from,
        to: served.log.policies().version(),
        changes,
        zones,
    })
}

fn policy_part(
    alloc: Global,
    served: &Served,
    from: Option<Version>,
) -> Result<PolicyPart, NoMemory>
    ensures { IfOk result
        (λ part. part ≡ policy_part served.now.facts (policy_book served.now.log) from) }
{
    let Some(from) = from else {
        return Ok(PolicyPart::Whole(served.policy_whole(alloc)?));
    };
    match served.log.policies().since(Some(from)) {
        Since::Unchanged => Ok(PolicyPart::Unchanged),
        Since::Changes(entries) => {
            Ok(PolicyPart::Delta(policy_delta(alloc, served, from, entries)?))
        }
        Since::Whole => Ok(PolicyPart::Whole(served.policy_whole(alloc)?)),
    }
}

fn tag_delta(
    alloc: Global,
    served: &Served,
    from: Version,
    changes: Iter<TagChange>,
) -> Result<TagDelta, NoMemory>
    ensures { IfOk result
        (λ delta. delta ≡ tag_delta served.now.facts from (deque_iter_rest changes.entry)) }
{
    let changes = copy_changes(alloc, changes)?;
    Ok(TagDelta {
        from,
        to: served.log.tags().version(),
        changes,
    })
}

fn tag_part(alloc: Global, served: &Served, from: Option<Version>) -> Result<TagPart, NoMemory>
    ensures { IfOk result
        (λ part. part ≡ tag_part served.now.facts (tag_book served.now.log) from) }
{
    let Some(from) = from else {
        return Ok(TagPart::Whole(served.tag_whole(alloc)?));
    };
    match served.log.tags().since(Some(from)) {
        Since::Unchanged => Ok(TagPart::Unchanged),
        Since::Changes(changes) => Ok(TagPart::Delta(tag_delta(alloc, served, from, changes)?)),
        Since::Whole => Ok(TagPart::Whole(served.tag_whole(alloc)?)),
    }
}

fn role_part(alloc: Global, served: &Served, from: Option<Version>) -> Result<RolePart, NoMemory>
    ensures { IfOk result (λ part. part ≡ role_part served.now.facts from) }
{
    match from {
        Some(from) if from.0 == served.state.role_version.0 => Ok(RolePart::Unchanged),
        _ => Ok(RolePart::Whole(served.role_whole(alloc)?)),
    }
}

/// What a plugin of the service lacks from these versions on, None where there is no service of this name.
pub(crate) fn download_of(
    alloc: Global,
    state: &State,
    logs: &[ServiceLog],
    service: &str,
    policies_from: Option<Version>,
    tags_from: Option<Version>,
    roles_from: Option<Version>,
) -> Result<Option<Download>, NoMemory>
    ensures { IfOk result
        (λ d. d ≡ download (administration_of state.now logs.now) (chars service.now)
        (record { policies = policies_from; tags = tags_from; roles = roles_from })) }
{
    let Some(served) = Served::find(state, logs, service) else {
        return Ok(None);
    };
    let policies = policy_part(alloc, &served, policies_from)?;
    let tags = tag_part(alloc, &served, tags_from)?;
    let roles = role_part(alloc, &served, roles_from)?;
    Ok(Some(Download {
        seq: state.count,
        policies,
        tags,
        roles,
    }))
}
