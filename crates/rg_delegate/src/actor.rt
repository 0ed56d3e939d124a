// An actor, and whether subjects name the actor.
ghost use Rattle.std.specs.Prelude.{◌≡◌, IfOk, None};
ghost use Rattle.std.specs.Str.{chars};
ghost use Rattle.rg_items.specs.Subjects.{names_group, names_role};
ghost use Rattle.rg_delegate.specs.Authority.{known, named};

use crate::lookups::groups_of;
use rg_base::{NameIndex, NoMemory, Text, is_among};
use rg_cmd::State;
use rg_items::{Subjects, names_group, names_indexed_group, names_role};
use rg_roles::{RoleRow, Roles};
use std::alloc::Global;
use std::marker::Model;

/// The groups of an actor who has more than these are looked up in an index.
const FEW: usize = 64;

/// The groups of an actor, and an index of them where they are many, which is built when it is asked for the first time.
/// Contracts see the groups.
#[derive(Drop)]
pub(crate) struct Groups<'a> {
    listed: &'a [Text],
    index: Option<NameIndex>,
}

impl<'a> Model for Groups<'a> {
    ghost use Rattle.std.specs.Prelude.{◌≡◌, List, ℕ};
    ghost use Rattle.std.specs.Option.{ForSome};

    ghost Value = { List (List ℕ) };

    ghost view = { λ g. g.listed.now };

    ghost invariant = { λ g. ForSome g.index (λ index. index ≡ g.listed.now) };
}

impl<'a> Groups<'a> {
    fn of(listed: &'a [Text]) -> Groups<'a>
        ensures { result ≡ listed.now }
    {
        Groups {
            listed,
            index: None,
        }
    }

    fn listed(&self) -> &'a [Text]
        ensures { result.now ≡ self.now }
    {
        self.listed
    }

    fn are_named_by_index(&mut self, alloc: Global, groups: &[Text]) -> Result<bool, NoMemory>
        ensures same { self.new ≡ self.old }
        ensures answer { IfOk result (λ b. b ≡ names_group self.old groups.now) }
    {
        if self.index.is_none() {
            let index = NameIndex::build(alloc, self.listed)?;
            self.index = Some(index);
        }
        match &self.index {
            Some(index) => Ok(names_indexed_group(index, groups)),
            None => Err(NoMemory),
        }
    }

    /// Whether these name one of them, or `public`.
    fn are_named(&mut self, alloc: Global, groups: &[Text]) -> Result<bool, NoMemory>
        ensures same { self.new ≡ self.old }
        ensures answer { IfOk result (λ b. b ≡ names_group self.old groups.now) }
    {
        if self.listed.len() <= FEW {
            return Ok(names_group(self.listed, groups));
        }
        self.are_named_by_index(alloc, groups)
    }
}

/// An actor, with the groups of the user's row, and the roles, which are built when one is asked for the first time.
#[derive(Drop)]
pub(crate) struct Actor<'a> {
    pub name: &'a str,
    groups: Groups<'a>,
    rows: &'a [RoleRow],
    roles: Option<Roles>,
}

impl<'a> Model for Actor<'a> {
    ghost use Rattle.std.specs.Prelude.{◌≡◌};
    ghost use Rattle.std.specs.Option.{ForSome};
    ghost use Rattle.std.specs.Str.{chars};
    ghost use Rattle.rg_delegate.specs.Authority.{Known};

    ghost Value = { Known };

    ghost view = { λ a. record { name = chars a.name.now; groups = a.groups; rows = a.rows.now } };

    ghost invariant = { λ a. ForSome a.roles (λ roles. roles ≡ a.rows.now) };
}

fn roles_of(alloc: Global, rows: &[RoleRow]) -> Result<Roles, NoMemory>
    ensures { IfOk result (λ roles. roles ≡ rows.now) }
{
    match Roles::build(alloc, rows) {
        Ok(roles) => Ok(roles),
        Err(_) => Err(NoMemory),
    }
}

impl<'a> Actor<'a> {
    /// The actor of this name.
    pub(crate) fn of(state: &'a State, name: &'a str) -> Actor<'a>
        ensures { result ≡ known state.now (chars name.now) }
    {
        Actor {
            name,
            groups: Groups::of(groups_of(state, name)),
            rows: state.roles.as_slice(),
            roles: None,
        }
    }

    /// Whether one of these roles holds the actor.
    fn has_role(&mut self, alloc: Global, roles: &[Text]) -> Result<bool, NoMemory>
        ensures same { self.new ≡ self.old }
        ensures answer { IfOk result
            (λ b. b ≡ names_role self.old.rows self.old.name self.old.groups roles.now) }
    {
        if self.roles.is_none() {
            let built = roles_of(alloc, self.rows)?;
            self.roles = Some(built);
        }
        match &self.roles {
            Some(built) => Ok(names_role(built, self.name, self.groups.listed(), roles)),
            None => Err(NoMemory),
        }
    }

    /// Whether the subjects name the actor. Roles are asked, and built, only where no user and no group does.
    pub(crate) fn is_named(&mut self, alloc: Global, subjects: &Subjects) -> Result<bool, NoMemory>
        ensures same { self.new ≡ self.old }
        ensures answer { IfOk result (λ b. b ≡ named self.old subjects.now) }
    {
        if is_among(self.name, subjects.users) {
            return Ok(true);
        }
        if self.groups.are_named(alloc, subjects.groups)? {
            return Ok(true);
        }
        match subjects.roles {
            [] => Ok(false),
            _ => self.has_role(alloc, subjects.roles),
        }
    }
}
