// The report.
ghost use Rattle.std.specs.Prelude.{◌≡◌, ◌≤◌, ◌+◌, ◌*◌, ◌∷◌, ◌++◌, [], ℕ, List, IfOk, OnOk, length, map, true};
ghost use Rattle.rg_base.specs.Listed.{listed};
ghost use Rattle.rg_defs.specs.declared.service_def.AccessType.{AccessType};
ghost use Rattle.rg_facts.specs.Sound.{sound};
ghost use Rattle.rg_roles.specs.Members.{names_of};
ghost use Rattle.rg_acl.specs.Laws.{AreForOthers, is_unnamed, values_are_plain};
ghost use Rattle.rg_acl.specs.Named.{named};
ghost use Rattle.rg_acl.specs.Rows.{accesses_of, group_asker, named_askers, other_asker, report_rows, role_asker, role_askers, rows_by, rows_of, user_asker};
ghost use Rattle.rg_acl.specs.Strangers.{with_members};
ghost use Rattle.rg_acl.specs.Work.{IsTriedFor, NothingMade, bound_for};
ghost use Rattle.rg_acl.specs.declared.named.Listing.TheVariants.{Users};
ghost use Rattle.rg_roles.specs.declared.row.RoleRow.{RoleRow};

use crate::ask::ReportAsk;
use crate::asker::Asker;
use crate::asking::add_rows;
use crate::members::{member, with_members};
use crate::named::{Listing, named};
use crate::order::in_order;
use crate::row::ReportRow;
use crate::stranger::stranger_to;
use rg_base::{Ledger, NameIndex, NoMemory, Seq, Steps, Text, TryCopy};
use rg_defs::AccessType;
use rg_engine::Engine;
use rg_facts::Facts;
use rg_roles::RoleRow;
use std::alloc::Global;

// ---- what is asked

fn names_of_types(alloc: Global, types: &[AccessType]) -> Result<Vec<Text>, NoMemory>
    ensures { IfOk result (λ names. names.items ≡ map (λ (t : AccessType). t.name) types.now) }
{
    let mut names = Vec::new(alloc);
    for access in types {
        names.push(access.name.try_copy(alloc)?)?;
    }
    Ok(names)
}

fn copies_of(alloc: Global, texts: &[Text]) -> Result<Vec<Text>, NoMemory>
    ensures { IfOk result (λ copies. copies.items ≡ texts.now) }
{
    let mut copies = Vec::new(alloc);
    for text in texts {
        copies.push(text.try_copy(alloc)?)?;
    }
    Ok(copies)
}

/// The accesses of the ask, or those of the definition where it lists none.
fn accesses_of(
    alloc: Global,
    accesses: &[Text],
    types: &[AccessType],
) -> Result<Vec<Text>, NoMemory>
    ensures { IfOk result (λ found. found.items ≡ accesses_of accesses.now types.now) }
{
    if accesses.is_empty() {
        return names_of_types(alloc, types);
    }
    copies_of(alloc, accesses)
}

// ---- who asks

fn add_users(alloc: Global, users: &[Text], askers: &mut Vec<Asker>) -> Result<(), NoMemory>
    ensures { OnOk result (askers.new.items ≡ askers.old.items ++ map user_asker users.now) }
{
    for user in users {
        let asker = Asker::of_user(alloc, user)?;
        askers.push(asker)?;
    }
    Ok(())
}

fn add_groups(
    alloc: Global,
    stranger: &Text,
    groups: &[Text],
    askers: &mut Vec<Asker>,
) -> Result<(), NoMemory>
    ensures { OnOk result (askers.new.items
        ≡ askers.old.items ++ map (group_asker stranger.now) groups.now) }
{
    for group in groups {
        let asker = Asker::of_group(alloc, stranger, group)?;
        askers.push(asker)?;
    }
    Ok(())
}

/// Those who ask for the named users, of whom these are all, and for the named groups.
fn named_askers(
    alloc: Global,
    facts: &Facts,
    stranger: &Text,
    users: Vec<Text>,
) -> Result<Vec<Asker>, NoMemory>
    requires { users.items ≡ named Users facts.now }
    ensures { IfOk result (λ askers. askers.items ≡ named_askers facts.now stranger.now) }
{
    let mut askers = Vec::new(alloc);
    let users = in_order(alloc, users)?;
    add_users(alloc, users.as_slice(), &mut askers)?;
    drop(users);
    let groups = in_order(alloc, named(alloc, Listing::Groups, facts)?)?;
    add_groups(alloc, stranger, groups.as_slice(), &mut askers)?;
    Ok(askers)
}

fn names_of_roles(alloc: Global, rows: &[RoleRow]) -> Result<Vec<Text>, NoMemory>
    ensures { IfOk result (λ names. names.items ≡ names_of rows.now) }
{
    let mut names = Vec::new(alloc);
    for row in rows {
        names.push(row.name.try_copy(alloc)?)?;
    }
    Ok(names)
}

/// Who asks for the role, where the index has the names of the rows.
fn role_asker(
    alloc: Global,
    stranger: &Text,
    rows: &NameIndex,
    name: &Text,
) -> Result<Asker, NoMemory>
    ensures { (all : List RoleRow) → rows.now ≡ names_of all
        → IfOk result (λ asker. asker ≡ role_asker stranger.now all name.now) }
{
    let place = rows.place_of(name.as_str()).unwrap_or(0);
    let member = member(alloc, stranger, place as u64)?;
    Asker::of_role(alloc, name, member)
}

/// Those who ask for the roles.
fn role_askers(alloc: Global, rows: &[RoleRow], stranger: &Text) -> Result<Vec<Asker>, NoMemory>
    ensures { IfOk result (λ askers. askers.items ≡ role_askers rows.now stranger.now) }
{
    let index = NameIndex::build(alloc, rows)?;
    let names = in_order(alloc, names_of_roles(alloc, rows)?)?;
    let mut askers = Vec::new(alloc);
    for name in names.as_slice() {
        let asker = role_asker(alloc, stranger, &index, name)?;
        askers.push(asker)?;
    }
    Ok(askers)
}

// ---- what is decided

/// Adds the rows of the roles, which are asked for among the stranger's members.
fn add_role_rows<L: Ledger>(
    alloc: Global,
    engine: &Engine,
    ask: &ReportAsk,
    accesses: &[Text],
    roles: &[RoleRow],
    stranger: &Text,
    rows: &mut Vec<ReportRow>,
    steps: &mut Steps<L>,
) -> Result<(), NoMemory>
    requires sound { sound engine.now ≡ true }
    requires roles { roles.now ≡ engine.now.roles.items }
    ensures rows { OnOk result (rows.new.items
        ≡ rows.old.items ++ rows_of (with_members stranger.now engine.now) ask.now accesses.now (role_askers roles.now stranger.now)) }
    ensures made { NothingMade steps.old steps.new }
    ensures tries { OnOk result (IsTriedFor (bound_for engine.now ask.now)
        (length rows.old.items) (length rows.new.items) steps.old steps.new) }
{
    let askers = role_askers(alloc, roles, stranger)?;
    let members = with_members(alloc, engine, stranger, roles, steps)?;
    add_rows(
        alloc,
        &members,
        ask,
        accesses,
        askers.as_slice(),
        rows,
        steps,
    )
}

/// Adds the rows of all others, for whom the stranger asks.
fn add_other_rows<L: Ledger>(
    alloc: Global,
    engine: &Engine,
    ask: &ReportAsk,
    accesses: &[Text],
    stranger: &Text,
    rows: &mut Vec<ReportRow>,
    steps: &mut Steps<L>,
) -> Result<(), NoMemory>
    ensures rows { OnOk result (rows.new.items ≡ rows.old.items
        ++ rows_of engine.now ask.now accesses.now (other_asker stranger.now ∷ [])) }
    ensures made { NothingMade steps.old steps.new }
    ensures tries { OnOk result (IsTriedFor (bound_for engine.now ask.now)
        (length rows.old.items) (length rows.new.items) steps.old steps.new) }
{
    let asker = Asker::of_others(alloc, stranger)?;
    add_rows(alloc, engine, ask, accesses, &[asker], rows, steps)
}

/// The rows of these askers, then those of the roles, and last those of all others.
fn rows_of<L: Ledger>(
    alloc: Global,
    engine: &Engine,
    ask: &ReportAsk,
    accesses: &[Text],
    askers: &[Asker],
    roles: &[RoleRow],
    stranger: &Text,
    steps: &mut Steps<L>,
) -> Result<Vec<ReportRow>, NoMemory>
    requires sound { sound engine.now ≡ true }
    requires roles { roles.now ≡ engine.now.roles.items }
    ensures rows { IfOk result (λ rows. rows.items
        ≡ rows_by engine.now ask.now accesses.now stranger.now askers.now roles.now) }
    ensures made { NothingMade steps.old steps.new }
    ensures tries { IfOk result (λ rows.
        steps.new.tries ≤ steps.old.tries + length rows.items * bound_for engine.now ask.now) }
{
    let mut rows = Vec::new(alloc);
    add_rows(alloc, engine, ask, accesses, askers, &mut rows, steps)?;
    add_role_rows(
        alloc, engine, ask, accesses, roles, stranger, &mut rows, steps,
    )?;
    add_other_rows(alloc, engine, ask, accesses, stranger, &mut rows, steps)?;
    Ok(rows)
}

/// The rows over the engine, whose facts these are.
fn rows_over<L: Ledger>(
    alloc: Global,
    engine: &Engine,
    facts: &Facts,
    ask: &ReportAsk,
    steps: &mut Steps<L>,
) -> Result<Vec<ReportRow>, NoMemory>
    requires sound { sound engine.now ≡ true }
    requires same { facts.now ≡ engine.now }
    ensures rows { IfOk result (λ rows. rows.items ≡ report_rows engine.now ask.now) }
    ensures made { NothingMade steps.old steps.new }
    ensures tries { IfOk result (λ rows.
        steps.new.tries ≤ steps.old.tries + length rows.items * bound_for engine.now ask.now) }
{
    let types = facts.def.access_types.as_slice();
    let accesses = accesses_of(alloc, ask.accesses.as_slice(), types)?;
    let users = named(alloc, Listing::Users, facts)?;
    let stranger = stranger_to(alloc, &ask.resource.owner, users.as_slice())?;
    let askers = named_askers(alloc, facts, &stranger, users)?;
    let roles = facts.roles.as_slice();
    let accesses = accesses.as_slice();
    let askers = askers.as_slice();
    rows_of(
        alloc, engine, ask, accesses, askers, roles, &stranger, steps,
    )
}

/// Who may do what with the ask's resource by the engine's facts, which are sound as those of every engine are: for each named
/// user, then each named group, then each role, in byte order, and then for all others, one row for each access. A user is
/// asked for without groups, a group for a stranger who is in that group alone, a role for a stranger who is its member alone.
/// Nothing is compiled.
pub fn report<L: Ledger>(
    alloc: Global,
    engine: &Engine,
    ask: &ReportAsk,
    steps: &mut Steps<L>,
) -> Result<Seq<ReportRow>, NoMemory>
    requires sound { sound engine.now ≡ true }
    ensures rows { IfOk result (λ rows. rows ≡ listed (report_rows engine.now ask.now)) }
    ensures others { IfOk result (λ rows. (user : List ℕ) → values_are_plain engine.now ≡ true
        → is_unnamed engine.now ask.now.resource.owner user ≡ true
        → AreForOthers engine.now ask.now user rows.items) }
    ensures made { NothingMade steps.old steps.new }
    ensures tries { IfOk result (λ rows.
        steps.new.tries ≤ steps.old.tries + length rows.items * bound_for engine.now ask.now) }
{
    let facts = engine.facts(alloc)?;
    let rows = rows_over(alloc, engine, &facts, ask, steps)?;
    Ok(Seq::from_vec(rows))
}
