// Laws of what is told, each the contract of a function that does nothing: no explanation disagrees with the flow.
ghost use Rattle.std.specs.Prelude.{◌≡◌, ◌&&◌, Contains, IsSome, List, Some, is_some, option_map, true};
ghost use Rattle.rg_base.specs.declared.numbers.Serial.{Serial};
ghost use Rattle.rg_policy.specs.declared.policy.Policy.{Policy};
ghost use Rattle.rg_policy.specs.declared.request.AccessRequest.{AccessRequest};
ghost use Rattle.rg_roles.specs.declared.row.RoleRow.{RoleRow};
ghost use Rattle.rg_roles.specs.Faults.{have_own_names};
ghost use Rattle.rg_zone_rules.specs.declared.row.ZoneRow.{ZoneRow};
ghost use Rattle.rg_facts.specs.Candidates.{Candidate, Setting, candidates, is_chosen, setting_of, takes_part, zone_at};
ghost use Rattle.rg_facts.specs.Flow.{decider, eval};
ghost use Rattle.rg_facts.specs.Texts.{decide};
ghost use Rattle.rg_facts.specs.declared.facts.Facts.{Facts};
ghost use Rattle.rg_standing.specs.Standing.{is_told_in_play};
ghost use Rattle.rg_explain.specs.Explaining.{explanation, held_by, in_zone, is_holding, map_place, told};
ghost use Rattle.rg_explain.specs.declared.explanation.Told.{Told};

use rg_standing::{member_is_told_where_named, told_in_play_where_it_is};

/// The decision that is told is the one that is made, and the zone that is told is the one in which it is made.
pub fn decision_is_told()
    ensures decision { (facts : Facts) (q : AccessRequest) (serial : Serial)
        → (explanation facts q serial).decision ≡ decide facts q serial }
    ensures verdict { (facts : Facts) (q : AccessRequest) (serial : Serial)
        → (explanation facts q serial).verdict ≡ eval facts q }
    ensures zone { (facts : Facts) (q : AccessRequest) (serial : Serial)
        → (explanation facts q serial).zone ≡ option_map (in_zone facts q) (zone_at facts q) }
{}

/// The zone that is told is told with a map that reaches down to the resource.
pub fn zone_is_told_with_its_map()
    ensures { (facts : Facts) (q : AccessRequest) (zone : ZoneRow)
        → zone_at facts q ≡ Some zone → IsSome (map_place facts q zone) }
{}

/// Each role that holds the user has a reason, and no other has one, where no two roles have one name.
pub fn holding_roles_have_a_reason()
    ensures { (rows : List RoleRow) (q : AccessRequest) (row : RoleRow)
        → have_own_names rows ≡ true → Contains rows row
        → is_some (held_by rows q row).by ≡ is_holding rows q row }
{
    member_is_told_where_named();
}

/// Of each candidate that the zone chooses it is told how it stands, and of nothing else.
pub fn chosen_policies_are_told()
    ensures all { (facts : Facts) (q : AccessRequest) (serial : Serial) (c : Candidate)
        → Contains (candidates facts q) c → is_chosen (setting_of facts q) c ≡ true
        → Contains (explanation facts q serial).policies.items (told (setting_of facts q) c) }
    ensures alone { (facts : Facts) (q : AccessRequest) (serial : Serial) (t : Told)
        → Contains (explanation facts q serial).policies.items t
        → (c : Candidate) × Contains (candidates facts q) c
        × (is_chosen (setting_of facts q) c ≡ true) × (t ≡ told (setting_of facts q) c) }
{}

/// A policy that the zone chooses is told as in play exactly where it takes part.
pub fn told_in_play_takes_part()
    ensures { (s : Setting) (c : Candidate)
        → (is_chosen s c && is_told_in_play (told s c).standing) ≡ takes_part s c }
{
    told_in_play_where_it_is();
}

/// The cell that is told as deciding is the first of the flow that isn't empty.
pub fn deciding_cell_is_told()
    ensures { (facts : Facts) (q : AccessRequest) (serial : Serial)
        → (explanation facts q serial).cell
        ≡ option_map (λ d. d.0) (decider (setting_of facts q) (candidates facts q)) }
{}
