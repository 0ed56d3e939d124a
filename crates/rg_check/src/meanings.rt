// What each rule asks, in a few words.
ghost use Rattle.std.specs.Prelude.{◌≡◌};
ghost use Rattle.rg_check.specs.Meanings.{rule_meaning};

use rg_cmd::Rule;

/// What the rule asks.
#[tactic(auto, unfolding(crate::specs::Meanings::rule_meaning))]
pub fn meaning(rule: Rule) -> &'static str
    ensures { result.now ≡ rule_meaning rule }
{
    match rule {
        Rule::L1 => "fewer than 2^62 commands came before",
        Rule::E1 => "the service exists",
        Rule::E2 => "the policy exists",
        Rule::E3 => "the definition exists",
        Rule::E4 => "the role exists",
        Rule::E5 => "the zone exists",
        Rule::E6 => "the tag row exists",
        Rule::E7 => "the user exists",
        Rule::S1 => "the name has 1 to 256 characters",
        Rule::S2 => "there are 1 to 16 levels with distinct names of 1 to 256 characters",
        Rule::S3 => "each parent is empty or names a level of a smaller number",
        Rule::S4 => "there are 1 to 1,024 access types with distinct names of 1 to 256 characters",
        Rule::S5 => "each implied grant is an access type of the definition",
        Rule::S6 => "there are at most 64 conditions, with distinct names that aren't empty",
        Rule::S7 =>
            "there are at most 64 mask types, with distinct names that aren't empty, and the parts for masks and filters name access types and levels of the definition",
        Rule::S8 => "a definition named tag has the one level tag",
        Rule::C1 => "what its services have passes under the new definition",
        Rule::C2 => "the name has 1 to 256 characters and no service has it",
        Rule::C3 => "the tag service is one of definition tag, and the service itself isn't",
        Rule::C4 => "the definition is as before",
        Rule::C5 => "the service isn't the plugin's and nothing names it",
        Rule::C6 => "the plugin's service isn't of definition tag",
        Rule::V1 => "the name has 1 to 256 characters",
        Rule::V2 => "no other policy of the service and zone has the name",
        Rule::V3 => "the type is 0, 1 or 2, and the definition has masks for 1 and filters for 2",
        Rule::V4 => "the priority is 0 or 1",
        Rule::V5 =>
            "each of at most 16 resource maps names levels of the definition, distinct and on one path, with the mandatory ones above them, and for masks or filters levels of that part",
        Rule::V6 =>
            "each level has a value, each value is a pattern, and isExcludes and isRecursive stand only where the level supports them",
        Rule::V7 => "items and isDenyAllElse fit the type",
        Rule::V8 =>
            "each item has an access type, and each is one of the definition, or of the part for masks or filters",
        Rule::V9 => "each condition is supported and has fitting values",
        Rule::V10 => "each item names a user, group or role, and each role exists",
        Rule::V11 => "each mask and each filter is whole",
        Rule::V12 => "each schedule reads and isn't recurring",
        Rule::V13 => "no other enabled policy has the same resources",
        Rule::V14 => "the zone exists and lists the service",
        Rule::A1 => "the actor is an administrator",
        Rule::A2 => "the actor may administer the policy",
        Rule::A3 => "the actor may administer the policy as it was",
        Rule::A4 => "the actor may administer the policy as it becomes",
        Rule::A5 => "the actor may see the policy",
        Rule::O1 => "the name has 1 to 256 characters",
        Rule::O2 => "each role that it names exists",
        Rule::O3 => "no role holds itself",
        Rule::O4 => "nothing names the role",
        Rule::Z1 => "the name has 1 to 256 characters",
        Rule::Z2 =>
            "each service exists and isn't of definition tag, each tag service exists and is, and none is listed twice",
        Rule::Z3 =>
            "each service has resources, whose levels are distinct, of the definition and on one path",
        Rule::Z4 => "each level has a value, and each value is a pattern without {USER}",
        Rule::Z5 => "each role exists",
        Rule::Z6 => "no two zones overlap",
        Rule::Z7 => "the zone's policies are of its services",
        Rule::Z8 => "no policy is of the zone",
        Rule::G1 => "the service isn't of definition tag",
        Rule::G2 =>
            "the levels are distinct, of the definition and on one path, each has a value, each value is a pattern without {USER}, and isExcludes and isRecursive stand only where the level supports them",
        Rule::G3 => "there are at most 64 tags, and each type has 1 to 256 characters",
        Rule::G4 => "the id is at least 1 and no row of another service has it",
        Rule::U1 => "the name and each group have 1 to 256 characters",
        Rule::U2 => "the rule of the time zone reads",
    }
}
