// Laws of matching, each the contract of a function that does nothing.
ghost use Rattle.std.specs.Prelude.{◌≡◌, ◌↔◌, ℕ, List, None, IsTrue, false, true};
ghost use Rattle.std.specs.List.{Contains};
ghost use Rattle.rg_defs.specs.declared.service_def.Level.{Level};
ghost use Rattle.rg_defs.specs.declared.service_def.ServiceDef.{ServiceDef};
ghost use Rattle.rg_defs.specs.Rules.{def_fault};
ghost use Rattle.rg_policy.specs.Maps.{maps_of};
ghost use Rattle.rg_policy.specs.declared.policy.Policy.{Policy};
ghost use Rattle.rg_policy.specs.declared.policy.PolicyResource.{PolicyResource};
ghost use Rattle.rg_policy.specs.declared.policy.ResourceMap.{ResourceMap};
ghost use Rattle.rg_policy.specs.declared.request.Element.{Element};
ghost use Rattle.rg_resmatch.specs.declared.reach.Reach.{Reach};
ghost use Rattle.rg_resmatch.specs.Lies.{Hit, Lies, SomeLies};
ghost use Rattle.rg_resmatch.specs.Rules.{all_levels_fit, policy_levels_fit};
ghost use Rattle.rg_resmatch.specs.Tests.{hit, lies, some_lies};

use rg_defs::paths_are_all;
use rg_pattern::stands_is_decided;

/// The test of a level decides whether it is hit.
pub fn hit_is_decided()
    ensures { (level : Level) (r : PolicyResource) (user v : List ℕ)
        → IsTrue (hit level r user v) ↔ Hit level r user v }
{
    stands_is_decided();
}

/// The test of resources decides whether they lie on those of a request, for a definition that passes its rules.
pub fn lies_is_decided()
    ensures { (def : ServiceDef) → def_fault def ≡ None → (resources : List PolicyResource)
        (reach : Reach) (elements : List Element) (user : List ℕ)
        → IsTrue (lies def resources reach elements user) ↔ Lies def resources reach elements user }
{
    paths_are_all();
    stands_is_decided();
}

/// The test of several maps decides whether some map lies on a request's resource.
pub fn some_lies_is_decided()
    ensures { (def : ServiceDef) → def_fault def ≡ None
        → (maps : List ResourceMap) (reach : Reach) (elements : List Element) (user : List ℕ)
        → IsTrue (some_lies def maps reach elements user) ↔ SomeLies def maps reach elements user }
{
    paths_are_all();
    stands_is_decided();
}

/// The order of the maps, and how often one is there, change no answer.
pub fn same_maps_lie_alike()
    ensures { (def : ServiceDef) (maps others : List ResourceMap)
        → ((m : ResourceMap) → Contains maps m ↔ Contains others m)
        → (reach : Reach) (elements : List Element) (user : List ℕ) → some_lies def maps reach elements user ≡ some_lies def others reach elements user }
{}

/// The maps of a policy that passes rule V5 fit without their mandatory levels too, as a matcher needs it.
pub fn fitting_policy_matches()
    ensures { (def : ServiceDef) (policy : Policy)
        → policy_levels_fit def policy ≡ true → all_levels_fit def false (maps_of policy) ≡ true }
{}
