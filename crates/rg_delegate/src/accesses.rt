// The accesses of a policy, which are gone over where they stand.
ghost use Rattle.std.specs.Prelude.{◌≡◌, List, None};
ghost use Rattle.std.specs.List.{list_all, list_any};
ghost use Rattle.std.specs.Str.{chars};
ghost use Rattle.rg_defs.specs.declared.service_def.AccessType.{AccessType};
ghost use Rattle.rg_items.specs.Accesses.{any_grants};
ghost use Rattle.rg_policy.specs.declared.policy.AccessEntry.{AccessEntry};
ghost use Rattle.rg_policy.specs.declared.policy.Item.{Item};
ghost use Rattle.rg_delegate.specs.Accesses.{accesses, all_accesses, is_for_all, is_none_named, item_accesses, named_accesses};
ghost use Rattle.rg_delegate.specs.Found.{is_wanted};

use rg_defs::{AccessType, ServiceDef};
use rg_items::any_grants;
use rg_policy::{AccessEntry, Item, Policy, item_lists};

// ---- whether there is one

fn item_names_none(item: &Item) -> bool
    ensures { result ≡ is_none_named (item_accesses item.now) }
{
    match item.accesses.as_slice() {
        [] => true,
        _ => false,
    }
}

fn items_name_none(items: &[Item]) -> bool
    ensures { result ≡ list_all (λ (i : Item). is_none_named (item_accesses i)) items.now }
{
    items.iter().all(|item| item_names_none(item))
}

fn lists_name_none(lists: &[&[Item]]) -> bool
    ensures { result ≡ list_all
        (λ list. list_all (λ (i : Item). is_none_named (item_accesses i)) list.now) lists.now }
{
    lists.iter().all(|items| items_name_none(items))
}

/// Whether no item of the policy names an access.
fn names_none(policy: &Policy) -> bool
    ensures { result ≡ is_none_named (named_accesses policy.now) }
{
    let lists = item_lists(policy);
    lists_name_none(&lists)
}

/// Whether the policy is for all access types of the definition.
fn is_for_all(policy: &Policy) -> bool
    ensures { result ≡ is_for_all policy.now }
{
    policy.deny_all_else || names_none(policy)
}

// ---- whether one is granted by these entries

fn entry_granted(def: &ServiceDef, given: &[AccessEntry], entries: &[AccessEntry]) -> bool
    ensures { result
        ≡ list_any (λ (e : AccessEntry). any_grants def.now e.access given.now) entries.now }
{
    entries
        .iter()
        .any(|entry| any_grants(def, entry.access.as_str(), given))
}

fn item_granted(def: &ServiceDef, given: &[AccessEntry], items: &[Item]) -> bool
    ensures { result ≡ list_any (λ (i : Item). list_any (λ (e : AccessEntry).
        any_grants def.now e.access given.now) i.accesses.items) items.now }
{
    items
        .iter()
        .any(|item| entry_granted(def, given, item.accesses.as_slice()))
}

fn list_granted(def: &ServiceDef, given: &[AccessEntry], lists: &[&[Item]]) -> bool
    ensures { result ≡ list_any (λ list. list_any (λ (i : Item). list_any (λ (e : AccessEntry).
        any_grants def.now e.access given.now) i.accesses.items) list.now) lists.now }
{
    lists.iter().any(|items| item_granted(def, given, items))
}

/// Whether they grant an access that the policy's items name.
fn named_granted(def: &ServiceDef, given: &[AccessEntry], policy: &Policy) -> bool
    ensures { result
        ≡ list_any (λ access. any_grants def.now access given.now) (named_accesses policy.now) }
{
    let lists = item_lists(policy);
    list_granted(def, given, &lists)
}

fn type_granted(def: &ServiceDef, given: &[AccessEntry], types: &[AccessType]) -> bool
    ensures { result
        ≡ list_any (λ (t : AccessType). any_grants def.now t.name given.now) types.now }
{
    types
        .iter()
        .any(|kind| any_grants(def, kind.name.as_str(), given))
}

/// Whether they grant an access of the definition.
fn defined_granted(def: &ServiceDef, given: &[AccessEntry]) -> bool
    ensures { result
        ≡ list_any (λ access. any_grants def.now access given.now) (all_accesses def.now) }
{
    type_granted(def, given, def.access_types.as_slice())
}

/// Whether the entries grant an access of the policy.
pub(crate) fn is_wanted(def: &ServiceDef, policy: &Policy, given: &[AccessEntry]) -> bool
    ensures { result ≡ is_wanted (record { def = def.now; policy = policy.now }) given.now }
{
    if is_for_all(policy) {
        defined_granted(def, given)
    } else {
        named_granted(def, given, policy)
    }
}

// ---- whether all are granted by entries of these items

fn some_grants(def: &ServiceDef, by: &[&Item], access: &str) -> bool
    ensures { result
        ≡ list_any (λ item. any_grants def.now (chars access.now) item.now.accesses.items) by.now }
{
    by.iter()
        .any(|item| any_grants(def, access, item.accesses.as_slice()))
}

fn entries_granted(def: &ServiceDef, by: &[&Item], entries: &[AccessEntry]) -> bool
    ensures { result ≡ list_all (λ (e : AccessEntry). list_any
        (λ item. any_grants def.now e.access item.now.accesses.items) by.now) entries.now }
{
    entries
        .iter()
        .all(|entry| some_grants(def, by, entry.access.as_str()))
}

fn items_granted(def: &ServiceDef, by: &[&Item], items: &[Item]) -> bool
    ensures { result ≡ list_all (λ (i : Item). list_all (λ (e : AccessEntry). list_any
        (λ item. any_grants def.now e.access item.now.accesses.items) by.now)
        i.accesses.items) items.now }
{
    items
        .iter()
        .all(|item| entries_granted(def, by, item.accesses.as_slice()))
}

fn lists_granted(def: &ServiceDef, by: &[&Item], lists: &[&[Item]]) -> bool
    ensures { result ≡ list_all (λ list. list_all
        (λ (i : Item). list_all (λ (e : AccessEntry). list_any (λ item. any_grants def.now
        e.access item.now.accesses.items) by.now) i.accesses.items) list.now) lists.now }
{
    lists.iter().all(|items| items_granted(def, by, items))
}

fn all_named_granted(def: &ServiceDef, by: &[&Item], policy: &Policy) -> bool
    ensures { result ≡ list_all (λ access. list_any (λ item. any_grants
        def.now access item.now.accesses.items) by.now) (named_accesses policy.now) }
{
    let lists = item_lists(policy);
    lists_granted(def, by, &lists)
}

fn types_granted(def: &ServiceDef, by: &[&Item], types: &[AccessType]) -> bool
    ensures { result ≡ list_all (λ (t : AccessType). list_any
        (λ item. any_grants def.now t.name item.now.accesses.items) by.now) types.now }
{
    types
        .iter()
        .all(|kind| some_grants(def, by, kind.name.as_str()))
}

fn all_defined_granted(def: &ServiceDef, by: &[&Item]) -> bool
    ensures { result ≡ list_all (λ access. list_any (λ item.
        any_grants def.now access item.now.accesses.items) by.now) (all_accesses def.now) }
{
    types_granted(def, by, def.access_types.as_slice())
}

/// Whether each access of the policy is granted by one of the items.
pub(crate) fn all_granted(def: &ServiceDef, policy: &Policy, by: &[&Item]) -> bool
    ensures { result ≡ list_all (λ access. list_any (λ item. any_grants
        def.now access item.now.accesses.items) by.now) (accesses def.now policy.now) }
{
    if is_for_all(policy) {
        all_defined_granted(def, by)
    } else {
        all_named_granted(def, by, policy)
    }
}
