// The policy that a state holds under an id.
ghost use Rattle.std.specs.Prelude.{◌≡◌, ◌<◌, IfSome, int_lt, length, option_map, position, true};
ghost use Rattle.std.specs.List.{find};
ghost use Rattle.std.specs.Ordering.{int_eq};
ghost use Rattle.rg_base.specs.Texts.{all_distinct};
ghost use Rattle.rg_policy.specs.declared.policy.Policy.{Policy as Written};
ghost use Rattle.rg_cmd.specs.Lookups.{has_id, policy_at};
ghost use Rattle.rg_validate.specs.Valid.{IsValid};

use rg_base::PolicyId;
use rg_cmd::State;
use rg_policy::Policy;
use rg_shared::Shared;

pub(crate) fn has_id(policy: &Shared<Policy>, id: PolicyId) -> bool
    ensures { result ≡ has_id id.0 policy.now }
{
    policy.id.0 == id.0
}

fn is_before(policy: &Shared<Policy>, id: PolicyId) -> bool
    ensures { result ≡ int_lt policy.now.id.0 id.0 }
{
    policy.id.0 < id.0
}

/// The place of the policy of this id. It is found by halves where the ids rise with their places, as those of an
/// administration do, and else one by one.
pub fn place_of_policy(policies: &[Shared<Policy>], id: PolicyId) -> Option<usize>
    requires { all_distinct (λ (p q : Written). int_eq p.id.0 q.id.0) policies.now ≡ true }
    ensures first { result ≡ position (has_id id.0) policies.now }
    ensures within { IfSome result (λ place. place < length policies.now) }
{
    let place = policies.partition_point(|policy| is_before(policy, id));
    if let Some(policy) = policies.get(place) {
        if has_id(policy, id) {
            return Some(place);
        }
    }
    policies.iter().position(|policy| has_id(policy, id))
}

/// The policy of this id among these.
fn policy_in(policies: &[Shared<Policy>], id: PolicyId) -> Option<&Shared<Policy>>
    requires { all_distinct (λ (p q : Written). int_eq p.id.0 q.id.0) policies.now ≡ true }
    ensures { option_map (λ p. p.now) result ≡ find (has_id id.0) policies.now }
{
    match place_of_policy(policies, id) {
        Some(place) => Some(&policies[place]),
        None => None,
    }
}

/// The policy of this id.
pub fn policy_at(state: &State, id: PolicyId) -> Option<&Shared<Policy>>
    requires { IsValid state.now }
    ensures { option_map (λ p. p.now) result ≡ policy_at state.now id.0 }
{
    policy_in(state.policies.as_slice(), id)
}
