// The policies that are asked about a resource.
ghost use Rattle.std.specs.Prelude.{◌≡◌, ◌∷◌, [], MatchOption, true};
ghost use Rattle.std.specs.List.{list_all};
ghost use Rattle.std.specs.Iterator.{YieldsFirst, item_count};
ghost use Rattle.rg_policy_sets.specs.Kept.{all_held, are_rising, is_held};
ghost use Rattle.rg_policy_sets.specs.Marks.{admitted};

use crate::held::HeldPolicy;
use crate::marks::Asked;
use crate::pages::Slots;
use rg_evalr::Evaluator;
use rg_index::Candidates;
use rg_policy::Policy;
use std::marker::Model;

/// A policy with its evaluator. Contracts see what was compiled.
#[derive(Drop)]
pub struct Compiled<'a> {
    held: &'a HeldPolicy,
}

impl<'a> Model for Compiled<'a> {
    ghost use Rattle.rg_evalr.specs.Sources.{Source};

    ghost Value = { Source };

    ghost view = { λ c. c.held.now };
}

impl<'a> Compiled<'a> {
    /// The policy.
    pub fn policy(&self) -> &'a Policy
        ensures { result.now ≡ self.now.policy }
    {
        let held = self.held;
        &held.policy
    }

    /// Its evaluator.
    pub fn evaluator(&self) -> &'a Evaluator
        ensures { result.now ≡ self.now }
    {
        let held = self.held;
        &held.evaluator
    }
}

/// The policies that are left, and contracts see that list. See [`PolicySet::visit`](crate::PolicySet::visit). A candidate is
/// passed over where its marks tell that it doesn't lie on the resource.
#[derive(Drop)]
pub struct Visits<'a> {
    slots: &'a Slots<HeldPolicy>,
    candidates: Candidates<'a>,
    first: Asked<'a>,
    second: Asked<'a>,
}

impl<'a> Model for Visits<'a> {
    ghost use Rattle.std.specs.Prelude.{◌≡◌, List, true};
    ghost use Rattle.std.specs.List.{list_all};
    ghost use Rattle.rg_evalr.specs.Sources.{Source};
    ghost use Rattle.rg_policy_sets.specs.Kept.{all_held, are_rising, is_held};
    ghost use Rattle.rg_policy_sets.specs.Marks.{admitted};

    ghost Value = { List Source };

    ghost view = { λ v. admitted v.first v.second (all_held v.slots.now v.candidates) };

    ghost invariant = { λ v. (are_rising v.slots.now ≡ true)
        × (list_all (is_held v.slots.now) v.candidates ≡ true) };
}

/// The next policy that may lie on the resource, and what is left after it.
fn next_compiled<'a>(
    slots: &'a Slots<HeldPolicy>,
    candidates: &mut Candidates<'a>,
    first: &Asked<'_>,
    second: &Asked<'_>,
) -> Option<Compiled<'a>>
    requires rising { are_rising slots.now ≡ true }
    requires held { list_all (is_held slots.now) candidates.old ≡ true }
    ensures held { list_all (is_held slots.now) candidates.new ≡ true }
    ensures next { MatchOption result
        ((admitted first.now second.now (all_held slots.now candidates.old) ≡ [])
        × (admitted first.now second.now (all_held slots.now candidates.new) ≡ []))
        (λ c. admitted first.now second.now (all_held slots.now candidates.old)
        ≡ c ∷ admitted first.now second.now (all_held slots.now candidates.new)) }
{
    'policies: while let Some(held) = slots.next_held(candidates) {
        if held.may_lie(first, second) {
            return Some(Compiled { held });
        }
    }
    None
}

impl<'a> Visits<'a> {
    pub(crate) fn of(
        slots: &'a Slots<HeldPolicy>,
        candidates: Candidates<'a>,
        first: Asked<'a>,
        second: Asked<'a>,
    ) -> Visits<'a>
        requires rising { are_rising slots.now ≡ true }
        requires held { list_all (is_held slots.now) candidates ≡ true }
        ensures { result ≡ admitted first.entry second.entry (all_held slots.now candidates.entry) }
    {
        Visits {
            slots,
            candidates,
            first,
            second,
        }
    }
}

impl<'a> Iterator for Visits<'a> {
    type Item = Compiled<'a>;

    ghost next_gives = { YieldsFirst (λ v. v) };

    ghost remaining = { item_count (λ v. v) };

    fn next(&mut self) -> Option<Compiled<'a>> {
        next_compiled(self.slots, &mut self.candidates, &self.first, &self.second)
    }
}
