// The cells of the flow.
ghost use Rattle.std.specs.Prelude.{◌≡◌, ◌≤◌, IfSome, None, if◌then◌else◌};
ghost use Rattle.std.specs.List.{find, list_any};
ghost use Rattle.std.specs.Ordering.{int_eq};
ghost use Rattle.rg_policy.specs.Kinds.{access_policy};
ghost use Rattle.rg_facts.specs.Flow.{cell_in, cell_of};
ghost use Rattle.rg_standing.specs.Standing.{effect_told};
ghost use Rattle.rg_explain.specs.Explaining.{cell_told, fills, first_filled};

use crate::explanation::Told;
use rg_evalr::{Effect, Side};
use rg_policy::{ACCESS_POLICY, NORMAL, OVERRIDE, Policy};
use rg_standing::Standing;

/// The cells, in the order in which they are looked at.
const CELLS: [u8; 8] = [1, 2, 3, 4, 5, 6, 7, 8];

/// The cell among those of one priority.
fn cell_in(side: Side, effect: Effect) -> Option<u8>
    ensures cell { result ≡ cell_in side effect }
    ensures few { IfSome result (λ n. n ≤ 4) }
{
    match (effect, side) {
        (Effect::Deny, Side::Tag) => Some(1),
        (Effect::Deny, Side::Resource) => Some(2),
        (Effect::Allow, Side::Tag) => Some(3),
        (Effect::Allow, Side::Resource) => Some(4),
        (Effect::Nothing, _) => None,
    }
}

/// The cell of a policy of this priority that gives this effect.
fn cell_of(priority: i64, side: Side, effect: Effect) -> Option<u8>
    ensures { result ≡ cell_of priority side effect }
{
    let cell = cell_in(side, effect)?;
    if priority == OVERRIDE {
        Some(cell)
    } else if priority == NORMAL {
        Some(cell + 4)
    } else {
        None
    }
}

/// The cell of a policy that stands so to the request.
pub(crate) fn cell_told(policy: &Policy, side: Side, standing: &Standing) -> Option<u8>
    ensures { result ≡ cell_told policy.now side standing.now }
{
    if policy.policy_type == ACCESS_POLICY {
        cell_of(policy.priority, side, standing.effect(policy))
    } else {
        None
    }
}

fn fills(cell: u8, told: &Told) -> bool
    ensures { result ≡ fills cell told.now }
{
    match told.cell {
        Some(other) => other == cell,
        None => false,
    }
}

fn is_filled(cell: u8, told: &[Told]) -> bool
    ensures { result ≡ list_any (fills cell) told.now }
{
    told.iter().any(|one| fills(cell, one))
}

/// The first cell in which a policy stands.
pub(crate) fn first_filled(told: &[Told]) -> Option<u8>
    ensures { result ≡ first_filled told.now }
{
    CELLS.iter().copied().find(|cell| is_filled(*cell, told))
}
