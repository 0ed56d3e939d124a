// What an explainer is made of, and the smaller parts of what it tells.
ghost use Rattle.std.specs.Prelude.{◌≡◌, ◌++◌, ◌∷◌, IfOk, filter, map, true};
ghost use Rattle.std.specs.List.{find};
ghost use Rattle.rg_base.specs.Listed.{listed};
ghost use Rattle.rg_policy.specs.declared.tags.Tag.{Tag};
ghost use Rattle.rg_resmatch.specs.Tests.{tag_elements};
ghost use Rattle.rg_roles.specs.declared.row.RoleRow.{RoleRow};
ghost use Rattle.rg_tags.specs.declared.row.TagRow.{TagRow};
ghost use Rattle.rg_evalr.specs.Frames.{def_of};
ghost use Rattle.rg_evalr.specs.declared.frame.Side.TheVariants.{Tag as Tagged};
ghost use Rattle.rg_facts.specs.Candidates.{frame_of, row_lies};
ghost use Rattle.rg_facts.specs.Sound.{sound};
ghost use Rattle.rg_explain.specs.Explaining.{held_by, roles_holding, rows_lying, tagged_by};

use crate::explanation::{HeldBy, TaggedBy};
use rg_base::{NoMemory, Seq, Text, TryCopy};
use rg_defs::{PathedDef, Paths, ServiceDef, tag_name};
use rg_evalr::Frame;
use rg_facts::Facts;
use rg_items::Subjects;
use rg_policy::{AccessRequest, Element, Tag};
use rg_resmatch::Reach;
use rg_roles::{RoleRow, Roles};
use rg_standing::{member_of, resources_lie};
use rg_tags::TagRow;
use rg_zones::ZoneMap;
use std::alloc::Global;

/// The roles of sound facts.
pub(crate) fn roles_of(alloc: Global, rows: &[RoleRow]) -> Result<Roles, NoMemory>
    ensures { IfOk result (λ roles. roles ≡ rows.now) }
{
    match Roles::build(alloc, rows) {
        Ok(roles) => Ok(roles),
        Err(_) => Err(NoMemory),
    }
}

/// The zones of sound facts.
pub(crate) fn zones_of(alloc: Global, facts: &Facts) -> Result<ZoneMap, NoMemory>
    requires { sound facts.now ≡ true }
    ensures { IfOk result (λ m. m
        ≡ record { zones = facts.now.zones.items; service = facts.now.service; def = facts.now.def }) }
{
    let map = ZoneMap::build(
        alloc,
        facts.zones.as_slice(),
        facts.service.as_str(),
        &facts.def,
    )?;
    Ok(map)
}

/// The definition of the tag policies of the facts.
pub(crate) fn tag_def_of(facts: &Facts) -> &ServiceDef
    ensures { result.now ≡ def_of (frame_of facts.now) Tagged }
{
    match &facts.tag_def {
        Some(def) => def,
        None => &facts.def,
    }
}

/// The tag as what is asked about.
pub(crate) fn tag_elements(alloc: Global, tag: &Tag) -> Result<Seq<Element>, NoMemory>
    ensures { IfOk result (λ list. list ≡ listed (tag_elements tag.now.kind)) }
{
    let mut list = Seq::new(alloc);
    let level = Text::copy_of(alloc, tag_name())?;
    let value = tag.kind.try_copy(alloc)?;
    list.add(Element { level, value })?;
    Ok(list)
}

/// The access that tag policies are asked for.
pub(crate) fn tag_access(alloc: Global, component: &Text, access: &Text) -> Result<Text, NoMemory>
    ensures { IfOk result (λ t. t ≡ component.now ++ 58 ∷ access.now) }
{
    let mut text = component.try_copy(alloc)?;
    text.push(':')?;
    text.append(access.as_str())?;
    Ok(text)
}

/// Whether the row reaches down to the request's resource. The paths are those of the definition.
fn row_lies(
    alloc: Global,
    facts: &Facts,
    paths: &Paths,
    request: &AccessRequest,
    row: &TagRow,
) -> Result<bool, NoMemory>
    requires { paths.now ≡ facts.now.def.levels.items }
    ensures { IfOk result (λ b. b ≡ row_lies facts.now request.now row.now) }
{
    let elements = request.resource.elements.as_slice();
    let resources = row.resources.as_slice();
    let def = PathedDef {
        def: &facts.def,
        paths,
    };
    resources_lie(alloc, &def, resources, Reach::Down, elements, "")
}

/// Copies of the tag rows that do.
pub(crate) fn rows_lying(
    alloc: Global,
    facts: &Facts,
    paths: &Paths,
    request: &AccessRequest,
) -> Result<Seq<TagRow>, NoMemory>
    requires { paths.now ≡ facts.now.def.levels.items }
    ensures { IfOk result (λ list. list ≡ listed (rows_lying facts.now request.now)) }
{
    let mut list = Seq::new(alloc);
    for row in facts.tag_rows.as_slice() {
        if row_lies(alloc, facts, paths, request, row)? {
            list.add(row.try_copy(alloc)?)?;
        }
    }
    Ok(list)
}

fn kinds_of(alloc: Global, tags: &[Tag]) -> Result<Seq<Text>, NoMemory>
    ensures { IfOk result (λ list. list ≡ listed (map (λ (t : Tag). t.kind) tags.now)) }
{
    let mut list = Seq::new(alloc);
    for tag in tags {
        list.add(tag.kind.try_copy(alloc)?)?;
    }
    Ok(list)
}

fn tagged_by(alloc: Global, row: &TagRow) -> Result<TaggedBy, NoMemory>
    ensures { IfOk result (λ t. t ≡ tagged_by row.now) }
{
    Ok(TaggedBy {
        row: row.id,
        tags: kinds_of(alloc, row.tags.as_slice())?,
    })
}

/// What is told of the tag rows.
pub(crate) fn rows_told(alloc: Global, rows: &[TagRow]) -> Result<Seq<TaggedBy>, NoMemory>
    ensures { IfOk result (λ list. list ≡ listed (map tagged_by rows.now)) }
{
    let mut list = Seq::new(alloc);
    for row in rows {
        list.add(tagged_by(alloc, row)?)?;
    }
    Ok(list)
}

/// The role with the first of its users, groups and roles that is the user.
fn held_by(
    alloc: Global,
    roles: &Roles,
    request: &AccessRequest,
    row: &RoleRow,
) -> Result<HeldBy, NoMemory>
    ensures { IfOk result (λ held. held ≡ held_by roles.now request.now row.now) }
{
    let subjects = Subjects {
        users: row.users.as_slice(),
        groups: row.groups.as_slice(),
        roles: row.roles.as_slice(),
    };
    Ok(HeldBy {
        role: row.name.try_copy(alloc)?,
        by: member_of(alloc, roles, request, &subjects)?,
    })
}

/// The roles that hold the user, of whose rows these are all.
pub(crate) fn roles_holding(
    alloc: Global,
    roles: &Roles,
    rows: &[RoleRow],
    request: &AccessRequest,
) -> Result<Seq<HeldBy>, NoMemory>
    requires { roles.now ≡ rows.now }
    ensures { IfOk result (λ list. list ≡ listed (roles_holding rows.now request.now)) }
{
    let user = request.user.as_str();
    let groups = request.groups.as_slice();
    let mut list = Seq::new(alloc);
    for row in rows {
        if roles.holds(row.name.as_str(), user, groups) {
            list.add(held_by(alloc, roles, request, row)?)?;
        }
    }
    Ok(list)
}
