// Which of the policies that are told are listed.
ghost use Rattle.std.specs.Prelude.{◌≡◌};
ghost use Rattle.rg_explain_wire.specs.Listing.{far_count, is_far, is_listed};

use rg_explain::{Explanation, Told};
use rg_standing::Standing;

#[tactic(auto, unfolding(crate::specs::Listing::is_far))]
fn is_far(told: &Told) -> bool
    ensures { result ≡ is_far told.now }
{
    match &told.standing {
        Standing::FarOff => true,
        _ => false,
    }
}

/// Whether it is listed where all are, or those that aren't far off.
pub(crate) fn is_listed(all: bool, told: &Told) -> bool
    ensures { result ≡ is_listed all told.now }
{
    all || !is_far(told)
}

/// How many policies are far off.
pub(crate) fn far_count(explanation: &Explanation) -> usize
    ensures { result ≡ far_count explanation.now }
{
    let mut count = 0;
    for told in explanation.policies.as_slice() {
        if is_far(told) {
            count += 1;
        }
    }
    count
}
