// Which of the users, groups and roles of a list is the asker.
ghost use Rattle.std.specs.Prelude.{◌≡◌, IfOk, option_map};
ghost use Rattle.std.specs.List.{find};
ghost use Rattle.rg_base.specs.Texts.{is_among};
ghost use Rattle.rg_roles.specs.Members.{everybody};
ghost use Rattle.rg_standing.specs.Matching.{holding_role, member_of, own_group};

use crate::reason::Subject;
use rg_base::{NoMemory, Text, TryCopy, is_among};
use rg_items::{Subjects, names};
use rg_policy::AccessRequest;
use rg_roles::Roles;
use std::alloc::Global;

/// The first of the asker's groups that the groups have.
fn own_group<'a>(own: &'a [Text], groups: &[Text]) -> Option<&'a Text>
    ensures { option_map (λ t. t.now) result ≡ own_group own.now groups.now }
{
    own.iter().find(|group| is_among(group.as_str(), groups))
}

/// Whether the groups have `public`.
fn has_everybody(roles: &Roles, groups: &[Text]) -> bool
    ensures { result ≡ is_among everybody groups.now }
{
    let none: &[Text] = &[];
    let subjects = Subjects {
        users: none,
        groups,
        roles: none,
    };
    names(roles, "", none, &subjects)
}

/// The first of the named roles that holds the asker.
fn holding_role<'a>(roles: &Roles, request: &AccessRequest, named: &'a [Text]) -> Option<&'a Text>
    ensures { option_map (λ t. t.now) result ≡ holding_role roles.now request.now named.now }
{
    let user = request.user.as_str();
    let own = request.groups.as_slice();
    named
        .iter()
        .find(|role| roles.holds(role.as_str(), user, own))
}

/// The first of the subjects that is the asker, with a copy of the name of a group or role: by name as a user, by one of the
/// asker's groups, by the group `public`, or by a role that holds the asker. The words `{USER}` and `{OWNER}` are names like
/// any other here. None where no subject is.
pub fn member_of(
    alloc: Global,
    roles: &Roles,
    request: &AccessRequest,
    subjects: &Subjects,
) -> Result<Option<Subject>, NoMemory>
    ensures { let s = subjects.now in
        IfOk result (λ found. found ≡ member_of roles.now request.now s.users s.groups s.roles) }
{
    if is_among(request.user.as_str(), subjects.users) {
        return Ok(Some(Subject::User));
    }
    if let Some(group) = own_group(request.groups.as_slice(), subjects.groups) {
        return Ok(Some(Subject::Group(group.try_copy(alloc)?)));
    }
    if has_everybody(roles, subjects.groups) {
        return Ok(Some(Subject::Everybody));
    }
    match holding_role(roles, request, subjects.roles) {
        Some(role) => Ok(Some(Subject::Role(role.try_copy(alloc)?))),
        None => Ok(None),
    }
}
