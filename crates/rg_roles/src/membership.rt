// Roles, and whether one holds a user.
ghost use Rattle.std.specs.Prelude.{◌≡◌, ◌↔◌, ◌<◌, ◌*◌, ◌+◌, ◌^◌, ◌&&◌, ◌||◌, IfOk, IfErr, IsTrue, None, take, nat_eq, length};
ghost use Rattle.std.specs.Int.{bit_at};
ghost use Rattle.std.specs.Str.{chars};
ghost use Rattle.rg_roles.specs.Faults.{IsRefusal, fault_of};
ghost use Rattle.rg_roles.specs.Holding.{Holds, holds};
ghost use Rattle.rg_roles.specs.Members.{names_asker, passes_at};
ghost use Rattle.rg_roles.specs.Places.{any_below, has};

use crate::fault::{RoleFault, searched};
use crate::reach::{Reach, reach_of};
use crate::row::RoleRow;
use rg_base::{NameIndex, NoMemory, Text, TryCopy, any_among, is_among};
use std::alloc::Global;
use std::marker::Model;

/// Whether the row itself names the user, one of the groups, or `public`.
#[tactic(auto, using(crate::proofs::Asker::asker))]
fn names_asker(row: &RoleRow, user: &str, groups: &[Text]) -> bool
    ensures { result ≡ names_asker (chars user.now) groups.now row.now }
{
    is_among(user, row.users.as_slice())
        || any_among(groups, row.groups.as_slice())
        || is_among("public", row.groups.as_slice())
}

/// Whether there is a row at this place that names the user, one of the groups, or `public`.
fn asker_at(rows: &[RoleRow], place: usize, user: &str, groups: &[Text]) -> bool
    ensures { result ≡ passes_at (names_asker (chars user.now) groups.now) rows.now place }
{
    match rows.get(place) {
        Some(row) => names_asker(row, user, groups),
        None => false,
    }
}

/// Whether one of the places of the word, which begin there, does.
fn asker_in_word(rows: &[RoleRow], word: u64, begin: usize, user: &str, groups: &[Text]) -> bool
    requires { begin < 2 ^ 40 }
    ensures { result ≡ any_below (λ b. nat_eq (bit_at word b) 1
        && passes_at (names_asker (chars user.now) groups.now) rows.now (begin + b)) 64 }
{
    for bit in 0..64 {
        if (word >> bit) & 1 == 1 && asker_at(rows, begin + bit, user, groups) {
            return true;
        }
    }
    false
}

/// Whether one of the places of the set does.
fn asker_among(rows: &[RoleRow], words: &[u64], user: &str, groups: &[Text]) -> bool
    requires { length words.now < 2 ^ 32 }
    ensures { result ≡ any_below (λ k. has words.now k && passes_at
        (names_asker (chars user.now) groups.now) rows.now k) (64 * length words.now) }
{
    for (at, word) in words.iter().enumerate() {
        if *word != 0 && asker_in_word(rows, *word, 64 * at, user, groups) {
            return true;
        }
    }
    false
}

/// Whether the row at the place or one at the places of the set does.
fn asker_reached(rows: &[RoleRow], place: usize, words: &[u64], user: &str, groups: &[Text]) -> bool
    requires { length words.now < 2 ^ 32 }
    ensures { result ≡ (passes_at (names_asker (chars user.now) groups.now) rows.now place
        || any_below (λ k. has words.now k && passes_at (names_asker (chars user.now) groups.now) rows.now k) (64 * length words.now)) }
{
    asker_at(rows, place, user, groups) || asker_among(rows, words, user, groups)
}

/// Copies of the rows.
fn copies(alloc: Global, rows: &[RoleRow]) -> Result<Vec<RoleRow>, NoMemory>
    ensures { IfOk result (λ v. v.items ≡ rows.now) }
{
    let mut held = Vec::new(alloc);
    for row in rows {
        let again = row.try_copy(alloc)?;
        if held.push(again).is_err() {
            return Err(NoMemory);
        }
    }
    Ok(held)
}

/// Roles, each with those that it reaches found beforehand. Contracts see the rows that they were built of.
#[derive(Drop)]
pub struct Roles {
    rows: Vec<RoleRow>,
    index: NameIndex,
    // For each row the places of the roles that it reaches.
    reach: Reach,
}

impl Model for Roles {
    ghost use Rattle.std.specs.Prelude.{◌≡◌, List};
    ghost use Rattle.rg_roles.specs.declared.row.RoleRow.{RoleRow};
    ghost use Rattle.rg_roles.specs.Members.{names_of};
    ghost use Rattle.rg_roles.specs.Places.{IsExpanded};

    ghost Value = { List RoleRow };

    ghost view = { λ r. r.rows.items };

    ghost invariant = { λ r. (r.index ≡ names_of r.rows.items) × IsExpanded r.rows.items r.reach };
}

impl Roles {
    /// The roles of these rows, which are copied. No two rows may have one name, each role that a row names must be there,
    /// and no role may name itself by a chain; else the fault that comes first in this order, with its least place. A row
    /// that names roles keeps a bit for each row.
    pub fn build(alloc: Global, rows: &[RoleRow]) -> Result<Roles, RoleFault>
        ensures ok { IfOk result (λ roles. (roles ≡ rows.now) × (fault_of rows.now ≡ None)) }
        ensures err { IfErr result (IsRefusal (fault_of rows.now)) }
    {
        let index = NameIndex::build(alloc, rows)?;
        let (chart, search) = searched(alloc, rows, &index)?;
        let reach = reach_of(alloc, &chart, search.order.as_slice())?;
        let rows = copies(alloc, rows)?;
        Ok(Roles { rows, index, reach })
    }

    /// Whether the role holds a user who has these groups: it names the user, one of the groups or the group `public`, or
    /// names a role that holds the user. False for a role that isn't there. It looks once at each row that the role
    /// reaches, and takes no memory but where the user and such a row have many groups.
    pub fn holds(&self, role: &str, user: &str, groups: &[Text]) -> bool
        ensures exact { IsTrue result
            ↔ Holds self.now (chars role.now) (chars user.now) groups.now }
        ensures test { result ≡ holds self.now (chars role.now) (chars user.now) groups.now }
    {
        match self.index.place_of(role) {
            Some(place) => {
                let words = self.reach.at(place);
                asker_reached(self.rows.as_slice(), place as usize, words, user, groups)
            }
            None => false,
        }
    }
}
