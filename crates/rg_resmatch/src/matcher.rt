// The matching of the resource of a request.
ghost use Rattle.std.specs.Prelude.{◌≡◌, ◌++◌, ◌∷◌, [], IfOk, None, false, true};
ghost use Rattle.std.specs.Str.{chars};
ghost use Rattle.rg_base.specs.Counts.{one_try};
ghost use Rattle.rg_policy.specs.Maps.{maps_of};
ghost use Rattle.rg_resmatch.specs.Compiled.{Answers, map_forms, some_form_lies, written_maps};
ghost use Rattle.rg_resmatch.specs.Rules.{all_levels_fit, all_values_fit, levels_fit, values_fit};
ghost use Rattle.rg_resmatch.specs.Tests.{some_lies, tag_elements};

use crate::map::CompiledMap;
use crate::reach::Reach;
use rg_base::{Ledger, NoMemory, Seq, Steps};
use rg_defs::ServiceDef;
use rg_policy::{Element, Policy, PolicyResource, Resource, ResourceMap};
use std::alloc::Global;
use std::marker::Model;
use std::snapshot::Snapshot;

/// Resource maps, compiled. Contracts see what they were compiled from.
pub struct Matcher {
    maps: Vec<CompiledMap>,
    /// Which only contracts see.
    def: Snapshot<ServiceDef>,
    reach: Snapshot<Reach>,
}

impl Drop for Matcher {
    fn drop(self) {
        let Self {
            maps: _,
            def: _,
            reach: _,
        } = self;
    }
}

impl Model for Matcher {
    ghost use Rattle.rg_resmatch.specs.Compiled.{Answers, written_maps};
    ghost use Rattle.rg_resmatch.specs.Matching.{Matching};

    ghost Value = { Matching };

    ghost view = { λ m. record {
      def = m.def.value;
      maps = written_maps m.maps.items;
      reach = m.reach.value;
    } };

    ghost invariant = { λ m. Answers m.maps.items m.def.value m.reach.value };
}

/// These maps after those that are compiled.
fn with_maps(
    alloc: Global,
    mut compiled: Vec<CompiledMap>,
    def: &ServiceDef,
    maps: &[ResourceMap],
    reach: Reach,
) -> Result<Vec<CompiledMap>, NoMemory>
    requires values { all_values_fit def.now maps.now ≡ true }
    ensures { IfOk result (λ v. v.items ≡ compiled.items ++ map_forms def.now reach maps.now) }
{
    for map in maps {
        let form = CompiledMap::compile(alloc, def, &map.levels, reach)?;
        compiled.push(form)?;
    }
    Ok(compiled)
}

/// The one map with these resources.
fn one_map(
    alloc: Global,
    def: &ServiceDef,
    resources: &Seq<PolicyResource>,
    reach: Reach,
) -> Result<Vec<CompiledMap>, NoMemory>
    requires values { values_fit def.now resources.now.items ≡ true }
    ensures { IfOk result
        (λ v. v.items ≡ map_forms def.now reach (record { levels = resources.now } ∷ [])) }
{
    let form = CompiledMap::compile(alloc, def, resources, reach)?;
    let mut compiled = Vec::new(alloc);
    compiled.push(form)?;
    Ok(compiled)
}

fn any_lies(maps: &[CompiledMap], elements: &[Element], user: &str) -> bool
    ensures { result ≡ some_form_lies maps.now elements.now (chars user.now) }
{
    maps.iter().any(|map| map.lies(elements, user))
}

fn any_lies_on_tag(maps: &[CompiledMap], tag: &str, user: &str) -> bool
    ensures { result ≡ some_form_lies maps.now (tag_elements (chars tag.now)) (chars user.now) }
{
    maps.iter().any(|map| map.lies_on_tag(tag, user))
}

impl Matcher {
    fn from_compiled(maps: Vec<CompiledMap>, def: &ServiceDef, reach: Reach) -> Matcher
        requires { Answers maps.items def.now reach }
        ensures { result ≡ record { def = def.now; maps = written_maps maps.items; reach = reach } }
    {
        Matcher {
            maps,
            def: Snapshot::of(def),
            reach: Snapshot::of(&reach),
        }
    }

    /// A matcher of these maps, with each value read once. The definition and the maps pass their rules, which need
    /// not ask for mandatory levels.
    pub fn compile(
        alloc: Global,
        def: &ServiceDef,
        maps: &[ResourceMap],
        reach: Reach,
    ) -> Result<Matcher, NoMemory>
        requires levels { all_levels_fit def.now false maps.now ≡ true }
        requires values { all_values_fit def.now maps.now ≡ true }
        ensures { IfOk result (λ m. m ≡ record { def = def.now; maps = maps.now; reach = reach }) }
    {
        let compiled = with_maps(alloc, Vec::new(alloc), def, maps, reach)?;
        Ok(Matcher::from_compiled(compiled, def, reach))
    }

    /// As `compile`, for the one map with these resources.
    pub fn of_resources(
        alloc: Global,
        def: &ServiceDef,
        resources: &Seq<PolicyResource>,
        reach: Reach,
    ) -> Result<Matcher, NoMemory>
        requires levels { levels_fit def.now false resources.now.items ≡ true }
        requires values { values_fit def.now resources.now.items ≡ true }
        ensures { IfOk result (λ m. m ≡ record {
          def = def.now;
          maps = record { levels = resources.now } ∷ [];
          reach = reach;
        }) }
    {
        let compiled = one_map(alloc, def, resources, reach)?;
        Ok(Matcher::from_compiled(compiled, def, reach))
    }

    /// As `compile`, for the maps of a policy.
    pub fn of_policy(
        alloc: Global,
        def: &ServiceDef,
        policy: &Policy,
        reach: Reach,
    ) -> Result<Matcher, NoMemory>
        requires levels { all_levels_fit def.now false (maps_of policy.now) ≡ true }
        requires values { all_values_fit def.now (maps_of policy.now) ≡ true }
        ensures { IfOk result
            (λ m. m ≡ record { def = def.now; maps = maps_of policy.now; reach = reach }) }
    {
        let first = one_map(alloc, def, &policy.resources, reach)?;
        let compiled = with_maps(alloc, first, def, policy.additional.as_slice(), reach)?;
        Ok(Matcher::from_compiled(compiled, def, reach))
    }

    /// Whether some map lies on the resource of a request of this user. One try is counted. It takes no memory.
    pub fn matches<L: Ledger>(&self, resource: &Resource, user: &str, steps: &mut Steps<L>) -> bool
        ensures answer { result ≡ some_lies
            self.now.def self.now.maps self.now.reach resource.now.elements.items (chars user.now) }
        ensures tries { steps.new ≡ one_try steps.old }
    {
        steps.attempt();
        any_lies(&self.maps, resource.elements.as_slice(), user)
    }

    /// As `matches`, for a resource whose one element has the level `tag` and this value.
    pub fn matches_tag<L: Ledger>(&self, tag: &str, user: &str, steps: &mut Steps<L>) -> bool
        ensures answer { result ≡ some_lies self.now.def self.now.maps self.now.reach
            (tag_elements (chars tag.now)) (chars user.now) }
        ensures tries { steps.new ≡ one_try steps.old }
    {
        steps.attempt();
        any_lies_on_tag(&self.maps, tag, user)
    }
}
