// Laws of the flow, each the contract of a function that does nothing.
ghost use Rattle.std.specs.Prelude.{◌≡◌, ◌++◌, ◌∷◌, Bool, Contains, List, ℕ, Option, Some, None, false, true};
ghost use Rattle.rg_base.specs.Listed.{Listed, listed};
ghost use Rattle.rg_base.specs.Texts.{all_distinct};
ghost use Rattle.rg_policy.specs.declared.policy.Policy.{Policy};
ghost use Rattle.rg_policy.specs.declared.request.AccessRequest.{AccessRequest};
ghost use Rattle.rg_policy.specs.declared.tags.Tag.{Tag};
ghost use Rattle.rg_tags.specs.declared.row.TagRow.{TagRow};
ghost use Rattle.rg_evalr.specs.declared.frame.Effect.TheVariants.{Allow, Deny};
ghost use Rattle.rg_evalr.specs.declared.frame.Side.TheVariants.{Resource, Tag as Tagged};
ghost use Rattle.rg_facts.specs.Best.{Best, after, none_yet, outcome_by};
ghost use Rattle.rg_facts.specs.Candidates.{Candidate, Setting, candidate, candidates, frame_of, setting_of, tags_in, tags_of, takes_part};
ghost use Rattle.rg_facts.specs.Choices.{offered};
ghost use Rattle.rg_facts.specs.Flow.{cell_of, eval, given, is_allowed, outcome_of, policies_in};
ghost use Rattle.rg_facts.specs.Laws.{AreTold, HaveSame};
ghost use Rattle.rg_facts.specs.Sound.{same_id};
ghost use Rattle.rg_facts.specs.declared.best.Pass.TheVariants.{All};
ghost use Rattle.rg_facts.specs.declared.choice.Kind.{Kind};
ghost use Rattle.rg_facts.specs.declared.facts.Facts.{Facts};

/// What a policy gives rests on no other policy: whatever the lists hold, be it the other policies' exceptions or
/// anything else of them, its effect is the same, and so are the masks and row filters that it offers.
pub fn effects_are_local()
    ensures effects { (facts : Facts) (policies tag_policies : Listed Policy)
        (q : AccessRequest) (c : Candidate)
        → given (setting_of (record facts { policies = policies; tag_policies = tag_policies }) q) c ≡ given (setting_of facts q) c }
    ensures offers { (facts : Facts) (policies tag_policies : Listed Policy)
        (q : AccessRequest) (kind : Kind) (c : Candidate)
        → offered (setting_of (record facts { policies = policies; tag_policies = tag_policies }) q) kind c ≡ offered (setting_of facts q) kind c }
{}

/// Where the access isn't allowed there are no row filter and no mask.
pub fn choices_only_beside_allowed()
    ensures { (facts : Facts) (q : AccessRequest) → is_allowed (eval facts q).access ≡ false
        → ((eval facts q).filter ≡ None) × ((eval facts q).mask ≡ None) }
{}

/// A policy that takes no part may be left out, and so may a tag policy that takes none for any tag of the resource.
pub fn idle_policies_may_go()
    ensures policies { (facts : Facts) (q : AccessRequest) (p : Policy) (before after : List Policy)
        → takes_part (setting_of facts q) (candidate (frame_of facts) Resource None p) ≡ false
        → eval (record facts { policies = listed (before ++ p ∷ after) }) q ≡ eval (record facts { policies = listed (before ++ after) }) q }
    ensures tag_policies { (facts : Facts)
        (q : AccessRequest) (p : Policy) (before after : List Policy)
        → ((tag : Tag) → Contains (tags_of facts q) tag → takes_part (setting_of facts q) (candidate (frame_of facts) Tagged (Some tag) p) ≡ false)
        → eval (record facts { tag_policies = listed (before ++ p ∷ after) }) q ≡ eval (record facts { tag_policies = listed (before ++ after) }) q }
{}

/// Whoever asks candidates one after the other needs no order, and may leave out those that take no part: two lists with the
/// same candidates that take part, of which no two policies of one side have one id, give the same.
pub fn order_plays_no_part()
    ensures candidates { (fallback : Bool) (s : Setting) (these those : List Candidate)
        → AreTold those
        → HaveSame (takes_part s) these those → outcome_of fallback s these ≡ outcome_of fallback s those }
    ensures best { (fallback : Bool) (s : Setting) (cs : List Candidate)
        → outcome_by fallback (after All s cs none_yet) ≡ outcome_of fallback s cs }
{}

/// A tag policy that denies for one tag of the resource and allows for another stands in both cells of its priority.
pub fn tag_policy_stands_in_both_cells()
    ensures { (facts : Facts) (q : AccessRequest) (p : Policy) (denied allowed : Tag) (n m : ℕ)
        → Contains facts.tag_policies.items p → Contains (tags_of facts q) denied → Contains (tags_of facts q) allowed
        → given (setting_of facts q) (candidate (frame_of facts) Tagged (Some denied) p) ≡ Deny
        → given (setting_of facts q) (candidate (frame_of facts) Tagged (Some allowed) p) ≡ Allow
        → cell_of p.priority Tagged Deny ≡ Some n → cell_of p.priority Tagged Allow ≡ Some m
        → Contains (policies_in (setting_of facts q) (candidates facts q) n) p × Contains (policies_in (setting_of facts q) (candidates facts q) m) p }
{}
