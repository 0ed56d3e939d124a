// Laws of what is told of a policy, each the contract of a function that does nothing.
ghost use Rattle.std.specs.Prelude.{◌≡◌, List, Option, option_map, option_and_then, is_some, true};
ghost use Rattle.rg_policy.specs.declared.policy.Item.{Item};
ghost use Rattle.rg_policy.specs.declared.policy.Policy.{Policy};
ghost use Rattle.rg_policy.specs.declared.request.AccessRequest.{AccessRequest};
ghost use Rattle.rg_roles.specs.declared.row.RoleRow.{RoleRow};
ghost use Rattle.rg_items.specs.Subjects.{Subjects, names, names_asker};
ghost use Rattle.rg_evalr.specs.Effects.{access_of, in_play};
ghost use Rattle.rg_evalr.specs.Items.{first_item};
ghost use Rattle.rg_standing.specs.Asking.{Asked};
ghost use Rattle.rg_standing.specs.Matching.{matched, member_of, subject_of};
ghost use Rattle.rg_standing.specs.Standing.{effect_told, is_told_in_play, standing_of};
ghost use Rattle.rg_standing.specs.declared.reason.Match.{Match};

/// A policy is told as in play exactly where it is.
pub fn told_in_play_where_it_is()
    ensures { (a : Asked) (p : Policy)
        → is_told_in_play (standing_of a p) ≡ in_play a.frame a.side a.context p }
{}

/// The effect of an access policy is that of what is told of it.
pub fn told_standing_gives_effect()
    ensures { (a : Asked) (p : Policy)
        → effect_told (standing_of a p) p.deny_all_else ≡ access_of a.frame a.side a.context p }
{}

/// The item that is told is the first that matches.
pub fn told_item_is_first()
    ensures { (a : Asked) (items : List Item) → option_map (λ (m : Match). m.item) (matched a items)
        ≡ first_item a.frame a.side a.context items }
{}

/// A subject is told of an item exactly where the item names the asker.
pub fn subject_is_told_where_named()
    ensures { (rows : List RoleRow) (q : AccessRequest) (item : Item)
        → is_some (subject_of rows q item) ≡ names_asker rows q item }
{}

/// One of the users, groups and roles of a list is told exactly where the list names the asker.
pub fn member_is_told_where_named()
    ensures { (rows : List RoleRow) (q : AccessRequest) (s : Subjects)
        → is_some (member_of rows q s.users s.groups s.roles) ≡ names rows q.user q.groups.items s }
{}
