// One item compiled.
ghost use Rattle.std.specs.Prelude.{◌≡◌, option_map};
ghost use Rattle.std.specs.List.{list_all};
ghost use Rattle.rg_cond.specs.Conditions.{rule_holds};
ghost use Rattle.rg_evalr.specs.Compiled.{compiled_matches, names_context, rules_hold};

use rg_base::{Seq, Text, is_among};
use rg_cond::Condition;
use rg_items::{Subjects, is_owner, names};
use rg_policy::{AccessRequest, Tag};
use rg_roles::Roles;
use std::marker::Model;

/// What a policy is asked: a request, with the roles that there are, and for a tag policy one of the resource's tags.
#[derive(Drop)]
pub(crate) struct Context<'a> {
    pub request: &'a AccessRequest,
    pub roles: &'a Roles,
    pub tag: Option<&'a Tag>,
}

impl<'a> Model for Context<'a> {
    ghost use Rattle.std.specs.Prelude.{option_map};
    ghost use Rattle.rg_evalr.specs.Items.{Context as Asked};

    ghost Value = { Asked };

    ghost view = { λ c. record {
      request = c.request.now;
      roles = c.roles.now;
      tag = option_map (λ t. t.now) c.tag;
    } };
}

/// An item, its accesses and its conditions compiled.
pub(crate) struct CompiledItem {
    /// What its entries grant, each access as requests ask for it.
    pub accesses: Seq<Text>,
    /// Whether `{USER}` is among the users.
    pub every_user: bool,
    /// Whether `{OWNER}` is.
    pub owner: bool,
    pub users: Seq<Text>,
    pub groups: Seq<Text>,
    pub roles: Seq<Text>,
    pub conditions: Seq<Condition>,
}

impl Drop for CompiledItem {
    fn drop(self) {
        let Self {
            accesses: _,
            every_user: _,
            owner: _,
            users: _,
            groups: _,
            roles: _,
            conditions: _,
        } = self;
    }
}

/// Whether all these conditions hold.
pub(crate) fn all_hold(context: &Context, conditions: &[Condition]) -> bool
    ensures { result ≡ rules_hold conditions.now context.now }
{
    conditions
        .iter()
        .all(|condition| condition.holds(context.request, context.tag))
}

impl CompiledItem {
    /// Whether one of the subjects is the asker.
    fn names(&self, context: &Context) -> bool
        ensures { result ≡ names_context self.now context.now }
    {
        let subjects = Subjects {
            users: self.users.as_slice(),
            groups: self.groups.as_slice(),
            roles: self.roles.as_slice(),
        };
        let request = context.request;
        self.every_user
            || ((self.owner && is_owner(request))
                || names(
                    context.roles,
                    request.user.as_str(),
                    request.groups.as_slice(),
                    &subjects,
                ))
    }

    /// Whether the item matches.
    pub(crate) fn matches(&self, context: &Context) -> bool
        ensures { result ≡ compiled_matches context.now self.now }
    {
        is_among(context.request.access.as_str(), self.accesses.as_slice())
            && (self.names(context) && all_hold(context, self.conditions.as_slice()))
    }
}
