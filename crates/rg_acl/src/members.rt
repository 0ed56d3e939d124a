// Strangers as members of roles.
ghost use Rattle.std.specs.Prelude.{◌≡◌, [], IfOk, None, Some, true};
ghost use Rattle.rg_base.specs.Listed.{listed};
ghost use Rattle.rg_engine.specs.Bounds.{bound_on};
ghost use Rattle.rg_facts.specs.Flow.{eval};
ghost use Rattle.rg_facts.specs.Sound.{sound};
ghost use Rattle.rg_policy.specs.declared.request.AccessRequest.{AccessRequest};
ghost use Rattle.rg_acl.specs.Strangers.{member, members_from, with_member, with_members};
ghost use Rattle.rg_acl.specs.Work.{NothingMade};

use rg_base::{Ledger, NoMemory, Seq, Steps, Text, TryCopy};
use rg_cmd::{PolicyDelta, RoleDelta, TagDelta};
use rg_engine::Engine;
use rg_roles::RoleRow;
use std::alloc::Global;

/// The stranger's member of the role at this place.
pub(crate) fn member(alloc: Global, stranger: &Text, place: u64) -> Result<Text, NoMemory>
    ensures { IfOk result (λ text. text ≡ member stranger.now place) }
{
    let digits = format!(in alloc; "{place}")?;
    let mut text = stranger.try_copy(alloc)?;
    text.append(digits.as_str())?;
    Ok(text)
}

fn with_member(
    alloc: Global,
    stranger: &Text,
    place: u64,
    row: &RoleRow,
) -> Result<RoleRow, NoMemory>
    ensures { IfOk result (λ made. made ≡ with_member stranger.now place row.now) }
{
    let member = member(alloc, stranger, place)?;
    let mut made = row.try_copy(alloc)?;
    made.users.add(member)?;
    Ok(made)
}

/// Copies of the rows, each of which names its member besides.
fn members_of(alloc: Global, stranger: &Text, rows: &[RoleRow]) -> Result<Seq<RoleRow>, NoMemory>
    ensures { IfOk result (λ made. made ≡ listed (members_from stranger.now 0 rows.now)) }
{
    let mut made = Seq::new(alloc);
    for (place, row) in rows.iter().enumerate() {
        let row = with_member(alloc, stranger, place as u64, row)?;
        made.add(row)?;
    }
    Ok(made)
}

/// A delta of the engine that changes nothing.
fn no_policies(alloc: Global, engine: &Engine) -> PolicyDelta
    ensures { result ≡ record {
      from = engine.now.policy_version;
      to = engine.now.policy_version;
      changes = listed [];
      zones = None;
    } }
{
    PolicyDelta {
        from: engine.policy_version(),
        to: engine.policy_version(),
        changes: Seq::new(alloc),
        zones: None,
    }
}

fn no_tags(alloc: Global, engine: &Engine) -> TagDelta
    ensures { result ≡ record {
      from = engine.now.tag_version;
      to = engine.now.tag_version;
      changes = listed [];
    } }
{
    TagDelta {
        from: engine.tag_version(),
        to: engine.tag_version(),
        changes: Seq::new(alloc),
    }
}

/// A delta of the engine that changes the roles alone, and their version not.
fn these_roles(engine: &Engine, rows: Seq<RoleRow>) -> RoleDelta
    ensures { result ≡ record {
      from = engine.now.role_version;
      to = engine.now.role_version;
      roles = Some rows;
    } }
{
    RoleDelta {
        from: engine.role_version(),
        to: engine.role_version(),
        roles: Some(rows),
    }
}

/// An engine that answers as one over the same facts in which each role row names the stranger's member besides. It shares
/// all that is compiled.
pub(crate) fn with_members<L: Ledger>(
    alloc: Global,
    engine: &Engine,
    stranger: &Text,
    rows: &[RoleRow],
    steps: &mut Steps<L>,
) -> Result<Engine, NoMemory>
    requires sound { sound engine.now ≡ true }
    requires rows { rows.now ≡ engine.now.roles.items }
    ensures answers { IfOk result (λ e. (q : AccessRequest)
        → eval e q ≡ eval (with_members stranger.now engine.now) q) }
    ensures bound { IfOk result (λ e. (q : AccessRequest) → bound_on e q ≡ bound_on engine.now q) }
    ensures made { NothingMade steps.old steps.new }
    ensures tries { steps.new.tries ≡ steps.old.tries }
{
    let members = members_of(alloc, stranger, rows)?;
    let policies = no_policies(alloc, engine);
    let tags = no_tags(alloc, engine);
    let roles = these_roles(engine, members);
    let applied = engine.apply(alloc, &policies, &tags, &roles, steps);
    drop(policies);
    drop(tags);
    drop(roles);
    match applied {
        Ok(next) => Ok(next),
        Err(_) => Err(NoMemory),
    }
}
