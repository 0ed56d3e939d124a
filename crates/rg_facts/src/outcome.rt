// What a request gets, from what was found.
ghost use Rattle.std.specs.Prelude.{◌≡◌, ◌||◌, Bool, eqb, None, option_and_then, option_map};
ghost use Rattle.std.specs.Option.{option_map_or};
ghost use Rattle.rg_facts.specs.Best.{outcome_by};
ghost use Rattle.rg_facts.specs.Choices.{unless_no_mask};
ghost use Rattle.rg_facts.specs.Flow.{access_in, denies, is_allowed, place_of, verdict_of};

use crate::best::{Best, Ranked};
use crate::choice::Choice;
use crate::decision::{Access, ItemPlace, Verdict};
use rg_base::PolicyId;
use rg_policy::Policy;
use std::marker::Model;

/// What a request gets: the access, the policy that decides, and the chosen items.
#[derive(Drop)]
pub struct Outcome<'a> {
    pub access: Access,
    pub policy: Option<&'a Policy>,
    pub filter: Option<Choice<'a>>,
    pub mask: Option<Choice<'a>>,
}

impl<'a> Model for Outcome<'a> {
    ghost use Rattle.std.specs.Prelude.{option_map};
    ghost use Rattle.rg_facts.specs.Flow.{Outcome as Seen};

    ghost Value = { Seen };

    ghost view = { λ o. record {
      access = o.access;
      policy = option_map (λ p. p.now) o.policy;
      filter = o.filter;
      mask = o.mask;
    } };
}

fn denies(cell: u8) -> bool
    ensures { result ≡ denies cell }
{
    cell == 1 || (cell == 2 || (cell == 5 || cell == 6))
}

fn access_in(fallback: bool, decider: &Option<Ranked>) -> Access
    ensures { result ≡ access_in fallback decider.now }
{
    match decider {
        Some(ranked) => if denies(ranked.cell) {
            Access::Denied
        } else {
            Access::Allowed
        },
        None => if fallback {
            Access::Undetermined
        } else {
            Access::Denied
        },
    }
}

fn is_allowed(access: Access) -> bool
    ensures { result ≡ is_allowed access }
{
    access == Access::Allowed
}

fn policy_of<'a>(decider: Option<Ranked<'a>>) -> Option<&'a Policy>
    ensures { option_map (λ p. p.now) result ≡ option_map (λ d. d.1) decider.entry }
{
    match decider {
        Some(ranked) => Some(ranked.policy),
        None => None,
    }
}

fn unless_no_mask<'a>(mask: Option<Choice<'a>>) -> Option<Choice<'a>>
    ensures { result ≡ option_and_then unless_no_mask mask.entry }
{
    match mask {
        Some(choice) => choice.unless_no_mask(),
        None => None,
    }
}

fn place_of(choice: &Option<Choice>) -> Option<ItemPlace>
    ensures { result ≡ option_map place_of choice.now }
{
    match choice {
        Some(choice) => Some(choice.place()),
        None => None,
    }
}

impl<'a> Best<'a> {
    /// Whether access is allowed by what was found, so that row filters and masks are worth asking for.
    pub fn allows(&self) -> bool
        ensures { (fallback : Bool) → is_allowed (access_in fallback self.now.decider) ≡ result }
    {
        match &self.decider {
            Some(ranked) => !denies(ranked.cell),
            None => false,
        }
    }

    /// What the request gets, if all that counts was asked: a row filter and a mask beside Allowed alone. `fallback` leaves
    /// a request undetermined that no policy decides.
    pub fn outcome(self, fallback: bool) -> Outcome<'a>
        ensures { result ≡ outcome_by fallback self.entry }
    {
        let access = access_in(fallback, &self.decider);
        let Best {
            decider,
            filter,
            mask,
        } = self;
        if !is_allowed(access) {
            return Outcome {
                access,
                policy: policy_of(decider),
                filter: None,
                mask: None,
            };
        }
        Outcome {
            access,
            policy: policy_of(decider),
            filter,
            mask: unless_no_mask(mask),
        }
    }
}

impl<'a> Outcome<'a> {
    /// The outcome in numbers.
    pub fn verdict(&self) -> Verdict
        ensures { result ≡ verdict_of self.now }
    {
        Verdict {
            access: self.access,
            policy: match self.policy {
                Some(policy) => policy.id,
                None => PolicyId(-1),
            },
            audited: match self.policy {
                Some(policy) => policy.audited,
                None => true,
            },
            filter: place_of(&self.filter),
            mask: place_of(&self.mask),
        }
    }
}
