// Rounds: downloads, one after another, until nothing changes any more.
ghost use Rattle.std.specs.Prelude.{◌≡◌, ◌⊎◌, false, true, IfOk, IfErr};
ghost use Rattle.rg_admin_laws.specs.Laws.{from_of};
ghost use Rattle.rg_admin_laws.specs.Leading.{led};
ghost use Rattle.rg_admin_laws.specs.Machine.{is_unchanged};
ghost use Rattle.rg_follow.specs.Asking.{AreAsked, AreAskedAnew};
ghost use Rattle.rg_follow.specs.Following.{HasRenewed, HasSettled, HasSettledAnew, Strays, StraysAnew, most_downloads};
ghost use Rattle.rg_follow.specs.Rounds.{begun, facts_of, fits, goes_on, policies_fit, tags_fit, Settles, SettlesAnew};

use crate::asking::{Known, ask};
use crate::fault::FollowFault;
use rg_base::{NoMemory, Text, Version};
use rg_cmd::{Download, PolicyPart, PolicyWhole, RolePart, RoleWhole, TagPart, TagWhole};
use rg_facts::Facts;
use rg_ports::Link;
use rg_publish::Engine;
use rg_remote::Remote;
use rg_session::{is_unchanged, lead_facts};
use std::alloc::Global;

/// How often a round asks at most.
const MOST_DOWNLOADS: u32 = 9;

// Whether changes from one version to another go on from the version that is had.
fn goes_on(had: Version, from: Version, to: Version) -> bool
    ensures { result ≡ goes_on had from to }
{
    from.0 == had.0 && from.0 <= to.0
}

fn policies_fit(had: Version, part: &PolicyPart) -> bool
    ensures { result ≡ policies_fit had part.now }
{
    match part {
        PolicyPart::Unchanged | PolicyPart::Whole(_) => true,
        PolicyPart::Delta(delta) => goes_on(had, delta.from, delta.to),
    }
}

fn tags_fit(had: Version, part: &TagPart) -> bool
    ensures { result ≡ tags_fit had part.now }
{
    match part {
        TagPart::Unchanged | TagPart::Whole(_) => true,
        TagPart::Delta(delta) => goes_on(had, delta.from, delta.to),
    }
}

// Whether the deltas of the download begin at the versions of these facts.
fn fits(facts: &Facts, download: &Download) -> bool
    ensures { result ≡ fits facts.now download.now }
{
    policies_fit(facts.policy_version, &download.policies)
        && tags_fit(facts.tag_version, &download.tags)
}

// The versions of these facts.
fn known_of(facts: &Facts) -> Known
    ensures { record { policies = result.policies; tags = result.tags; roles = result.roles }
        ≡ from_of facts.now }
{
    Known {
        policies: Some(facts.policy_version),
        tags: Some(facts.tag_version),
        roles: Some(facts.role_version),
    }
}

// The facts to which a download leads that fits them.
fn take(alloc: Global, facts: Facts, download: Download) -> Result<Facts, FollowFault>
    ensures taken { IfOk result (λ after. (after ≡ led facts download)
        × (fits facts download ≡ true)) }
    ensures fault { IfErr result (λ f. ((f ≡ FollowFault.Misfit)
        × (fits facts download ≡ false)) ⊎ (f ≡ FollowFault.NoMemory)) }
{
    if !fits(&facts, &download) {
        drop(facts);
        drop(download);
        return Err(FollowFault::Misfit);
    }
    match lead_facts(alloc, facts, download) {
        Ok(after) => Ok(after),
        Err(NoMemory) => Err(FollowFault::NoMemory),
    }
}

// Asks for downloads from these facts, so many at most, until one finds nothing changed.
fn settle_within<T: Link + Drop>(
    alloc: Global,
    remote: &mut Remote<T>,
    had: Facts,
    most: u32,
) -> Result<Facts, FollowFault>
    ensures settled { IfOk result (λ after. HasSettled had after remote.old remote.new) }
    ensures strayed { IfErr result (λ f. Strays most had f remote.old remote.new) }
{
    let mut facts = had;
    let mut left = most;
    while 0 < left {
        let download = match ask(alloc, remote, known_of(&facts)) {
            Ok(download) => download,
            Err(fault) => {
                drop(facts);
                return Err(FollowFault::Ask(fault));
            }
        };
        if is_unchanged(&download) {
            drop(download);
            return Ok(facts);
        }
        facts = match take(alloc, facts, download) {
            Ok(after) => after,
            Err(fault) => return Err(fault),
        };
        left -= 1;
    }
    drop(facts);
    Err(FollowFault::Unsettled)
}

/// Asks for downloads from these facts, one after another, until one finds nothing changed: the facts to which the ones before it
/// led. It asks nine times at most.
pub fn settle<T: Link + Drop>(
    alloc: Global,
    remote: &mut Remote<T>,
    had: Facts,
) -> Result<Facts, FollowFault>
    ensures settled { IfOk result (λ after. HasSettled had after remote.old remote.new) }
    ensures strayed { IfErr result (λ f. Strays most_downloads had f remote.old remote.new) }
{
    settle_within(alloc, remote, had, MOST_DOWNLOADS)
}

// The versions of an engine's facts.
fn known_to(engine: &Engine) -> Known
    ensures { record { policies = result.policies; tags = result.tags; roles = result.roles }
        ≡ from_of engine.now }
{
    Known {
        policies: Some(engine.policy_version()),
        tags: Some(engine.tag_version()),
        roles: Some(engine.role_version()),
    }
}

/// As `settle`, from the facts of an engine, which are copied only where something has changed: None where nothing has.
pub fn renew<T: Link + Drop>(
    alloc: Global,
    remote: &mut Remote<T>,
    had: &Engine,
) -> Result<Option<Facts>, FollowFault>
    ensures settled { IfOk result (λ after. HasRenewed had.now after remote.old remote.new) }
    ensures strayed { IfErr result (λ f. Strays most_downloads had.now f remote.old remote.new) }
{
    let download = match ask(alloc, remote, known_to(had)) {
        Ok(download) => download,
        Err(fault) => return Err(FollowFault::Ask(fault)),
    };
    if is_unchanged(&download) {
        drop(download);
        return Ok(None);
    }
    let facts = match had.facts(alloc) {
        Ok(facts) => facts,
        Err(NoMemory) => {
            drop(download);
            return Err(FollowFault::NoMemory);
        }
    };
    let facts = match take(alloc, facts, download) {
        Ok(facts) => facts,
        Err(fault) => return Err(fault),
    };
    match settle_within(alloc, remote, facts, MOST_DOWNLOADS - 1) {
        Ok(after) => Ok(Some(after)),
        Err(fault) => Err(fault),
    }
}

// The facts of whole parts.
fn facts_of(service: Text, policies: PolicyWhole, tags: TagWhole, roles: RoleWhole) -> Facts
    ensures { result ≡ facts_of service policies tags roles }
{
    Facts {
        service,
        fallback: policies.fallback,
        def: policies.def,
        tag_def: policies.tag_def,
        policies: policies.policies,
        tag_policies: policies.tag_policies,
        zones: policies.zones,
        roles: roles.roles,
        tag_rows: tags.rows,
        time_zones: policies.time_zones,
        policy_version: policies.version,
        tag_version: tags.version,
        role_version: roles.version,
    }
}

// The facts of a download whose parts are whole.
fn begun(service: Text, download: Download) -> Option<Facts>
    ensures { result ≡ begun service download }
{
    match (download.policies, download.tags, download.roles) {
        (PolicyPart::Whole(policies), TagPart::Whole(tags), RolePart::Whole(roles)) => {
            Some(facts_of(service, policies, tags, roles))
        }
        _ => None,
    }
}

/// Asks for downloads where nothing is had, one after another: the first from no version, and then as `settle` does.
pub fn begin<T: Link + Drop>(
    alloc: Global,
    remote: &mut Remote<T>,
    service: Text,
) -> Result<Facts, FollowFault>
    ensures settled { IfOk result (λ after. HasSettledAnew service after remote.old remote.new) }
    ensures strayed { IfErr result
        (λ f. StraysAnew most_downloads service f remote.old remote.new) }
{
    let nothing = Known {
        policies: None,
        tags: None,
        roles: None,
    };
    let download = match ask(alloc, remote, nothing) {
        Ok(download) => download,
        Err(fault) => {
            drop(service);
            return Err(FollowFault::Ask(fault));
        }
    };
    match begun(service, download) {
        Some(facts) => settle(alloc, remote, facts),
        None => Err(FollowFault::Misfit),
    }
}
