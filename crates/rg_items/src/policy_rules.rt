// The rules of a policy that look at types, items, subjects and outcomes.
ghost use Rattle.std.specs.Prelude.{◌≡◌};
ghost use Rattle.std.specs.List.{list_all};
ghost use Rattle.std.specs.Str.{bytes_eq, chars};
ghost use Rattle.rg_policy.specs.declared.policy.Item.{Item};
ghost use Rattle.rg_items.specs.PolicyRules.{all_among, by_type, custom, decides_no_access, entries_fit, entry_fits, filter_fits, has_no_filter, has_no_mask, has_subject, is_no_item, item_entries_fit, item_subjects_fit, lists_fit, mask_fits, mask_info_fits, outcomes_fit, priority_fits, subjects_fit, type_fits};

use rg_base::{NameIndex, Text, is_among, is_empty, is_named, same_text};
use rg_defs::{ServiceDef, access_type_of};
use rg_policy::{
    ACCESS_POLICY, AccessEntry, FILTER_POLICY, Item, MASK_POLICY, MaskInfo, NORMAL, OVERRIDE,
    Policy, item_lists,
};

/// The first answer for policies that mask, the second for those that filter rows, else the third.
fn by_type(kind: i64, masks: bool, filters: bool, other: bool) -> bool
    ensures { result ≡ by_type kind masks filters other }
{
    if kind == MASK_POLICY {
        masks
    } else if kind == FILTER_POLICY {
        filters
    } else {
        other
    }
}

/// Whether the type is one that the definition has (rule V3).
pub fn type_fits(def: &ServiceDef, policy: &Policy) -> bool
    ensures { result ≡ type_fits def.now policy.now }
{
    by_type(
        policy.policy_type,
        !def.masks.is_empty(),
        !def.filter_access.is_empty(),
        policy.policy_type == ACCESS_POLICY,
    )
}

/// Whether the priority is one of the two (rule V4).
pub fn priority_fits(policy: &Policy) -> bool
    ensures { result ≡ priority_fits policy.now }
{
    policy.priority == NORMAL || policy.priority == OVERRIDE
}

fn is_no_item(items: &[Item]) -> bool
    ensures { result ≡ is_no_item items.now }
{
    match items {
        [] => true,
        _ => false,
    }
}

fn decides_no_access(policy: &Policy) -> bool
    ensures { result ≡ decides_no_access policy.now }
{
    is_no_item(policy.items.as_slice())
        && (is_no_item(policy.deny_items.as_slice())
            && (is_no_item(policy.allow_exceptions.as_slice())
                && (is_no_item(policy.deny_exceptions.as_slice()) && !policy.deny_all_else)))
}

fn has_no_mask(policy: &Policy) -> bool
    ensures { result ≡ has_no_mask policy.now }
{
    is_no_item(policy.mask_items.as_slice())
}

fn has_no_filter(policy: &Policy) -> bool
    ensures { result ≡ has_no_filter policy.now }
{
    is_no_item(policy.filter_items.as_slice())
}

/// Whether the policy has no items but those of its type (rule V7).
pub fn lists_fit(policy: &Policy) -> bool
    ensures { result ≡ lists_fit policy.now }
{
    by_type(
        policy.policy_type,
        decides_no_access(policy) && has_no_filter(policy),
        decides_no_access(policy) && has_no_mask(policy),
        has_no_mask(policy) && has_no_filter(policy),
    )
}

fn entry_fits(def: &ServiceDef, kind: i64, entry: &AccessEntry) -> bool
    ensures { result ≡ entry_fits def.now kind entry.now }
{
    let access = entry.access.as_str();
    by_type(
        kind,
        is_among(access, def.mask_access.as_slice()),
        is_among(access, def.filter_access.as_slice()),
        access_type_of(def, access).is_some(),
    )
}

fn all_entries_fit(def: &ServiceDef, kind: i64, entries: &[AccessEntry]) -> bool
    ensures { result ≡ list_all (entry_fits def.now kind) entries.now }
{
    entries.iter().all(|entry| entry_fits(def, kind, entry))
}

fn item_entries_fit(def: &ServiceDef, kind: i64, item: &Item) -> bool
    ensures { result ≡ item_entries_fit def.now kind item.now }
{
    !item.accesses.is_empty() && all_entries_fit(def, kind, item.accesses.as_slice())
}

fn all_items_entries_fit(def: &ServiceDef, kind: i64, items: &[Item]) -> bool
    ensures { result ≡ list_all (item_entries_fit def.now kind) items.now }
{
    items.iter().all(|item| item_entries_fit(def, kind, item))
}

fn all_lists_entries_fit(def: &ServiceDef, policy: &Policy, lists: &[&[Item]]) -> bool
    ensures { result ≡ list_all
        (λ list. list_all (item_entries_fit def.now policy.now.policy_type) list.now) lists.now }
{
    let kind = policy.policy_type;
    lists
        .iter()
        .all(|items| all_items_entries_fit(def, kind, items))
}

/// Whether each item has access entries, each of an access type of the definition or of the part (rule V8).
pub fn entries_fit(def: &ServiceDef, policy: &Policy) -> bool
    ensures { result ≡ entries_fit def.now policy.now }
{
    let lists = item_lists(policy);
    all_lists_entries_fit(def, policy, &lists)
}

fn has_subject(item: &Item) -> bool
    ensures { result ≡ has_subject item.now }
{
    !item.users.is_empty() || (!item.groups.is_empty() || !item.roles.is_empty())
}

/// Whether each of the texts is one of the names.
pub fn all_among(names: &NameIndex, texts: &[Text]) -> bool
    ensures { result ≡ all_among names.now texts.now }
{
    texts.iter().all(|text| names.contains(text.as_str()))
}

fn all_subjects_fit(roles: &NameIndex, items: &[Item]) -> bool
    ensures { result ≡ list_all (item_subjects_fit roles.now) items.now }
{
    items.iter().all(|item| has_subject(item) && all_among(roles, item.roles.as_slice()))
}

fn all_lists_subjects_fit(roles: &NameIndex, lists: &[&[Item]]) -> bool
    ensures { result
        ≡ list_all (λ list. list_all (item_subjects_fit roles.now) list.now) lists.now }
{
    lists.iter().all(|items| all_subjects_fit(roles, items))
}

/// Whether each item names a user, a group or a role, and each role is one of these (rule V10).
pub fn subjects_fit(roles: &NameIndex, policy: &Policy) -> bool
    ensures { result ≡ subjects_fit roles.now policy.now }
{
    let lists = item_lists(policy);
    all_lists_subjects_fit(roles, &lists)
}

/// Whether masks of this kind bring their own expression.
#[tactic(auto, using(crate::proofs::Words::words))]
pub fn is_custom(kind: &str) -> bool
    ensures { result ≡ bytes_eq (chars kind.now) custom }
{
    same_text(kind, "CUSTOM")
}

fn mask_info_fits(def: &ServiceDef, mask: &MaskInfo) -> bool
    ensures { result ≡ mask_info_fits def.now mask.now }
{
    let kind = mask.kind.as_str();
    is_named(def.masks.as_slice(), kind)
        && (!is_custom(kind) || !is_empty(mask.value_expr.as_str()))
}

fn mask_fits(def: &ServiceDef, item: &Item) -> bool
    ensures { result ≡ mask_fits def.now item.now.mask }
{
    match &item.mask {
        Some(mask) => mask_info_fits(def, mask),
        None => false,
    }
}

fn masks_fit(def: &ServiceDef, items: &[Item]) -> bool
    ensures { result ≡ list_all (λ (i : Item). mask_fits def.now i.mask) items.now }
{
    items.iter().all(|item| mask_fits(def, item))
}

fn filter_fits(item: &Item) -> bool
    ensures { result ≡ filter_fits item.now.filter }
{
    match &item.filter {
        Some(filter) => !is_empty(filter.as_str()),
        None => false,
    }
}

fn filters_fit(items: &[Item]) -> bool
    ensures { result ≡ list_all (λ (i : Item). filter_fits i.filter) items.now }
{
    items.iter().all(|item| filter_fits(item))
}

/// Whether each mask item has a mask, and each filter item a row filter, that the definition takes (rule V11).
pub fn outcomes_fit(def: &ServiceDef, policy: &Policy) -> bool
    ensures { result ≡ outcomes_fit def.now policy.now }
{
    masks_fit(def, policy.mask_items.as_slice()) && filters_fit(policy.filter_items.as_slice())
}
