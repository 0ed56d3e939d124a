// Whom lists of users, groups and roles name.
ghost use Rattle.std.specs.Prelude.{◌≡◌};
ghost use Rattle.std.specs.Str.{chars};
ghost use Rattle.rg_base.specs.Texts.{is_among};
ghost use Rattle.rg_roles.specs.Members.{everybody};
ghost use Rattle.rg_items.specs.Subjects.{is_owner, names, names_group, names_role, owner_word, user_word};

use rg_base::{NameIndex, Text, any_among, is_among, is_empty, same_text};
use rg_policy::AccessRequest;
use rg_roles::Roles;
use std::marker::Model;

/// The users, groups and roles that an item, a zone or a delegation lists.
#[derive(Drop)]
pub struct Subjects<'a> {
    pub users: &'a [Text],
    pub groups: &'a [Text],
    pub roles: &'a [Text],
}

impl<'a> Model for Subjects<'a> {
    ghost use Rattle.rg_items.specs.Subjects.{Subjects as Listed};

    ghost Value = { Listed };

    ghost view = { λ s. record {
      users = s.users.now;
      groups = s.groups.now;
      roles = s.roles.now;
    } };
}

/// Whether the asker owns the resource.
pub fn is_owner(request: &AccessRequest) -> bool
    ensures { result ≡ is_owner request.now }
{
    let owner = request.resource.owner.as_str();
    !is_empty(owner) && same_text(owner, request.user.as_str())
}

/// Whether the users have `{USER}`, which stands for every user.
#[tactic(auto, using(crate::proofs::Words::words))]
pub fn has_user_word(users: &[Text]) -> bool
    ensures { result ≡ is_among user_word users.now }
{
    is_among("{USER}", users)
}

/// Whether the users have `{OWNER}`, which stands for the owner of the resource.
#[tactic(auto, using(crate::proofs::Words::words))]
pub fn has_owner_word(users: &[Text]) -> bool
    ensures { result ≡ is_among owner_word users.now }
{
    is_among("{OWNER}", users)
}

#[tactic(auto, using(crate::proofs::Words::words))]
fn has_everybody(groups: &[Text]) -> bool
    ensures { result ≡ is_among everybody groups.now }
{
    is_among("public", groups)
}

/// Whether these name one of the user's groups, or `public`.
pub fn names_group(own: &[Text], groups: &[Text]) -> bool
    ensures { result ≡ names_group own.now groups.now }
{
    any_among(own, groups) || has_everybody(groups)
}

/// As `names_group`, for a user with many groups who is asked for often.
pub fn names_indexed_group(own: &NameIndex, groups: &[Text]) -> bool
    ensures { result ≡ names_group own.now groups.now }
{
    own.any_among(groups) || has_everybody(groups)
}

/// Whether one of these roles holds the user, who has these groups.
pub fn names_role(roles: &Roles, user: &str, own: &[Text], named: &[Text]) -> bool
    ensures { result ≡ names_role roles.now (chars user.now) own.now named.now }
{
    named
        .iter()
        .any(|role| roles.holds(role.as_str(), user, own))
}

/// Whether the subjects name the user, who has these groups: as a user, by one of the groups or `public`, or by a role. The
/// words `{USER}` and `{OWNER}` are names like any other here. Roles are asked last.
pub fn names(roles: &Roles, user: &str, own: &[Text], subjects: &Subjects) -> bool
    ensures { result ≡ names roles.now (chars user.now) own.now subjects.now }
{
    is_among(user, subjects.users)
        || (names_group(own, subjects.groups) || names_role(roles, user, own, subjects.roles))
}
