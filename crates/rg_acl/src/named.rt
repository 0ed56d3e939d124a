// The users and groups that facts name.
ghost use Rattle.std.specs.Prelude.{◌≡◌, ◌++◌, OnOk, IfOk};
ghost use Rattle.std.specs.List.{flat_map};
ghost use Rattle.std.specs.Str.{chars};
ghost use Rattle.rg_acl.specs.Named.{is_word, named, named_by_items, named_by_policies, named_by_policy, named_by_rows, names_in, of_item, of_row};

use rg_base::{NoMemory, Text, TryCopy, same_text};
use rg_facts::Facts;
use rg_policy::{Item, Policy, item_lists};
use rg_roles::RoleRow;
use rg_shared::Shared;
use std::alloc::Global;

/// Users or groups.
#[derive(Clone, Copy)]
pub(crate) enum Listing {
    Users,
    Groups,
}

impl Listing {
    fn of_item(self, item: &Item) -> &[Text]
        ensures { result.now ≡ of_item self item.now }
    {
        match self {
            Listing::Users => item.users.as_slice(),
            Listing::Groups => item.groups.as_slice(),
        }
    }

    fn of_row(self, row: &RoleRow) -> &[Text]
        ensures { result.now ≡ of_row self row.now }
    {
        match self {
            Listing::Users => row.users.as_slice(),
            Listing::Groups => row.groups.as_slice(),
        }
    }
}

/// Whether the text is `{USER}` or `{OWNER}`.
#[tactic(auto, using(crate::proofs::Words::words))]
fn is_word(text: &str) -> bool
    ensures { result ≡ is_word (chars text.now) }
{
    same_text(text, "{USER}") || same_text(text, "{OWNER}")
}

// Each of the following adds copies of names to those that were found before.

fn add_names(alloc: Global, texts: &[Text], found: &mut Vec<Text>) -> Result<(), NoMemory>
    ensures { OnOk result (found.new.items ≡ found.old.items ++ names_in texts.now) }
{
    for text in texts {
        if !is_word(text.as_str()) {
            found.push(text.try_copy(alloc)?)?;
        }
    }
    Ok(())
}

fn add_of_items(
    alloc: Global,
    listing: Listing,
    items: &[Item],
    found: &mut Vec<Text>,
) -> Result<(), NoMemory>
    ensures { OnOk result (found.new.items ≡ found.old.items ++ named_by_items listing items.now) }
{
    for item in items {
        add_names(alloc, listing.of_item(item), found)?;
    }
    Ok(())
}

fn add_of_lists(
    alloc: Global,
    listing: Listing,
    lists: &[&[Item]],
    found: &mut Vec<Text>,
) -> Result<(), NoMemory>
    ensures { OnOk result (found.new.items
        ≡ found.old.items ++ flat_map (λ list. named_by_items listing list.now) lists.now) }
{
    for list in lists {
        add_of_items(alloc, listing, list, found)?;
    }
    Ok(())
}

fn add_of_policy(
    alloc: Global,
    listing: Listing,
    policy: &Policy,
    found: &mut Vec<Text>,
) -> Result<(), NoMemory>
    ensures { OnOk result (found.new.items
        ≡ found.old.items ++ named_by_policy listing policy.now) }
{
    let lists = item_lists(policy);
    add_of_lists(alloc, listing, &lists, found)
}

fn add_of_policies(
    alloc: Global,
    listing: Listing,
    policies: &[Shared<Policy>],
    found: &mut Vec<Text>,
) -> Result<(), NoMemory>
    ensures { OnOk result (found.new.items
        ≡ found.old.items ++ named_by_policies listing policies.now) }
{
    for policy in policies {
        add_of_policy(alloc, listing, policy, found)?;
    }
    Ok(())
}

fn add_of_rows(
    alloc: Global,
    listing: Listing,
    rows: &[RoleRow],
    found: &mut Vec<Text>,
) -> Result<(), NoMemory>
    ensures { OnOk result (found.new.items ≡ found.old.items ++ named_by_rows listing rows.now) }
{
    for row in rows {
        add_names(alloc, listing.of_row(row), found)?;
    }
    Ok(())
}

/// The users, or the groups, that items and role rows name, as often as they do.
pub(crate) fn named(alloc: Global, listing: Listing, facts: &Facts) -> Result<Vec<Text>, NoMemory>
    ensures { IfOk result (λ names. names.items ≡ named listing facts.now) }
{
    let mut found = Vec::new(alloc);
    add_of_policies(alloc, listing, facts.policies.as_slice(), &mut found)?;
    add_of_policies(alloc, listing, facts.tag_policies.as_slice(), &mut found)?;
    add_of_rows(alloc, listing, facts.roles.as_slice(), &mut found)?;
    Ok(found)
}
