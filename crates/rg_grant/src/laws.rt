// Laws of grants and revokes, each the contract of a function that does nothing.
ghost use Rattle.std.specs.Prelude.{◌≡◌, ◌↔◌, ◌++◌, ℕ, List, None, Contains, false, true};
ghost use Rattle.rg_policy.specs.declared.policy.Item.{Item};
ghost use Rattle.rg_policy.specs.declared.policy.Policy.{Policy};
ghost use Rattle.rg_policy.specs.declared.request.AccessRequest.{AccessRequest};
ghost use Rattle.rg_facts.specs.Candidates.{Candidate};
ghost use Rattle.rg_facts.specs.declared.facts.Facts.{Facts};
ghost use Rattle.rg_cmd.specs.declared.ask.AdminReply.TheVariants.{Refused};
ghost use Rattle.rg_cmd.specs.declared.state.State.{State};
ghost use Rattle.rg_same_resources.specs.Twins.{is_twin};
ghost use Rattle.rg_validate.specs.Valid.{IsKept};
ghost use Rattle.rg_admin_laws.specs.Laws.{is_refused};
ghost use Rattle.rg_admin_laws.specs.Logs.{Administration};
ghost use Rattle.rg_admin_laws.specs.Steps.{counted};
ghost use Rattle.rg_grant.specs.Allowing.{IsAllowed, IsGranting, IsSpokenOf};
ghost use Rattle.rg_grant.specs.Forms.{new_policy};
ghost use Rattle.rg_grant.specs.InForce.{IsInForce, IsRevoked, no_policy_rule, verdict_at};
ghost use Rattle.rg_grant.specs.Permissions.{IsGiven, Permission, names_both};
ghost use Rattle.rg_grant.specs.Planning.{is_for, policy_for};
ghost use Rattle.rg_grant.specs.Steps.{granted};
ghost use Rattle.rg_grant.specs.Taking.{items_left};
ghost use Rattle.rg_grant.specs.declared.ask.GrantAsk.TheVariants.{Grant, Revoke};
ghost use Rattle.rg_grant.specs.declared.row.GrantRow.{GrantRow};

/// What a row leaves is exact: for each subject, access entry, conditions and delegation some item that is left has them
/// exactly where some item had them and the row doesn't name both the subject and the access type.
pub fn taking_is_exact()
    ensures { (g : GrantRow) (items : List Item) (p : Permission)
        → IsGiven (items_left g items) p ↔ (IsGiven items p × (names_both g p ≡ false)) }
{}

/// A policy with the allow item of a grant allows what the row speaks of: an allow item matches; where no deny item and no allow
/// exception of the policy does, it allows; and where no cell before its own is filled the answer is Allowed.
pub fn granting_policies_allow()
    ensures { (g : GrantRow) (facts : Facts) (q : AccessRequest) (c : Candidate)
        → IsGranting g c.source.policy → IsSpokenOf g facts q c → IsAllowed facts q c }
{}

/// After an accepted grant the row has a policy, which allows each request of which the row speaks, as far as nothing else
/// that the policy says and no policy of an earlier cell stands against it. No other policy is touched, and to grant the row
/// again changes nothing of what the policy gives.
pub fn grants_are_in_force()
    ensures { (a : Administration) (actor : List ℕ) (g : GrantRow)
        → is_refused (granted a (Grant actor g)).1 ≡ false
        → IsInForce g a (granted a (Grant actor g)).0 (granted a (Grant actor g)).1 }
{}

/// The same grant once more changes no verdict, whether it is accepted or refused.
pub fn second_grants_change_no_verdict()
    ensures { (a : Administration) (actor other : List ℕ) (g : GrantRow) → is_refused
        (granted a (Grant actor g)).1 ≡ false → IsKept (granted a (Grant actor g)).0.state
        → (service : List ℕ) (q : AccessRequest) → verdict_at (granted (granted a (Grant actor g)).0 (Grant other g)).0 service q ≡ verdict_at (granted a (Grant actor g)).0 service q }
{}

/// After an accepted revoke the row has a policy, none of whose allow items gives a subject of the row an access of the row. No
/// other policy is touched. Where the row has no policy a revoke is refused, by E2 or by L1, and changes nothing but the count
/// of entries.
pub fn revokes_take_all()
    ensures accepted { (a : Administration) (actor : List ℕ) (g : GrantRow)
        → IsKept a.state → is_refused (granted a (Revoke actor g)).1 ≡ false
        → IsRevoked g a (granted a (Revoke actor g)).0 (granted a (Revoke actor g)).1 }
    ensures no_policy { (a : Administration) (actor : List ℕ) (g : GrantRow)
        → IsKept a.state → policy_for a.state g ≡ None
        → granted a (Revoke actor g) ≡ (record a { state = counted a.state }, Refused (no_policy_rule a.state)) }
{}

/// The row is taken from each item by itself, so what is left stands in the order of the items.
pub fn taking_keeps_order()
    ensures order { (g : GrantRow) (items more : List Item)
        → items_left g (items ++ more) ≡ items_left g items ++ items_left g more }
    ensures again { (g : GrantRow) (items : List Item)
        → items_left g (items_left g items) ≡ items_left g items }
{}

/// The policy of a row is a twin, as rule V13 has it, of the policy that a grant of the row would create, and there is at most
/// one.
pub fn rows_have_one_policy()
    ensures twin { (s : State) (g : GrantRow) (p : Policy)
        → is_for g p ≡ is_twin (new_policy s.next_id g) p }
    ensures single { (s : State) (g : GrantRow) (p q : Policy)
        → IsKept s → Contains s.policies.items p → Contains s.policies.items q
        → is_for g p ≡ true → is_for g q ≡ true → p ≡ q }
{}
