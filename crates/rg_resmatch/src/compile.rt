// How a resource map is compiled.
ghost use Rattle.std.specs.Prelude.{◌≡◌, ◌++◌, IfOk, None, map, option_map, option_to_list, true};
ghost use Rattle.std.specs.List.{slice_get};
ghost use Rattle.rg_base.specs.Listed.{listed};
ghost use Rattle.rg_defs.specs.declared.service_def.Level.{Level};
ghost use Rattle.rg_defs.specs.PathTests.{paths_of};
ghost use Rattle.rg_resmatch.specs.Compiled.{level_form, map_form, named_paths, path_names, paths_for};
ghost use Rattle.rg_resmatch.specs.Rules.{are_written, values_fit};

use crate::level::CompiledLevel;
use crate::map::CompiledMap;
use crate::reach::Reach;
use rg_base::{NoMemory, Seq, Text, TryCopy};
use rg_defs::{Level, Paths, ServiceDef};
use rg_policy::PolicyResource;
use std::alloc::Global;
use std::snapshot::Snapshot;

fn levels_of(
    alloc: Global,
    def: &ServiceDef,
    resources: &[PolicyResource],
) -> Result<Vec<CompiledLevel>, NoMemory>
    requires { are_written resources.now ≡ true }
    ensures { IfOk result (λ v. v.items ≡ map (level_form def.now) resources.now) }
{
    let mut levels = Vec::new(alloc);
    for resource in resources {
        let level = CompiledLevel::compile(alloc, def, resource)?;
        levels.push(level)?;
    }
    Ok(levels)
}

fn name_at<'a>(levels: &'a [Level], place: usize) -> Option<&'a Text>
    ensures { option_map (λ t. t.now) result
        ≡ option_map (λ (l : Level). l.name) (slice_get levels.now place) }
{
    match levels.get(place) {
        Some(level) => Some(&level.name),
        None => None,
    }
}

/// The names, and this one after them where it is given.
#[tactic(auto, using(crate::proofs::Names::no_name))]
fn with_name(
    alloc: Global,
    mut names: Seq<Text>,
    name: Option<&Text>,
) -> Result<Seq<Text>, NoMemory>
    requires { names ≡ listed names.items }
    ensures { IfOk result (λ longer. longer
        ≡ listed (names.items ++ option_to_list (option_map (λ t. t.now) name.entry))) }
{
    let Some(name) = name else {
        return Ok(names);
    };
    let copy = name.try_copy(alloc)?;
    names.add(copy)?;
    Ok(names)
}

fn path_names(alloc: Global, levels: &[Level], path: &[u32]) -> Result<Seq<Text>, NoMemory>
    ensures { IfOk result (λ names. names ≡ listed (path_names levels.now path.now)) }
{
    let mut names = Seq::new(alloc);
    for place in path {
        names = with_name(alloc, names, name_at(levels, *place as usize))?;
    }
    Ok(names)
}

/// The names on each of the paths on which the resources lie.
fn names_on_paths(
    alloc: Global,
    paths: &Paths,
    resources: &[PolicyResource],
) -> Result<Vec<Seq<Text>>, NoMemory>
    ensures { IfOk result
        (λ v. v.items ≡ named_paths paths.now resources.now (map listed (paths_of paths.now))) }
{
    let mut named = Vec::new(alloc);
    let all = paths.as_slice();
    for path in all {
        if paths.all_lie_on(path.as_slice(), resources) {
            let names = path_names(alloc, paths.levels(), path.as_slice())?;
            named.push(names)?;
        }
    }
    Ok(named)
}

fn paths_for(
    alloc: Global,
    def: &ServiceDef,
    resources: &[PolicyResource],
    reach: Reach,
) -> Result<Option<Vec<Seq<Text>>>, NoMemory>
    ensures { IfOk result
        (λ p. option_map (λ v. v.items) p ≡ paths_for reach def.now.levels.items resources.now) }
{
    match reach {
        Reach::Exact => Ok(None),
        Reach::Down => {
            let paths = Paths::of(alloc, def)?;
            let named = names_on_paths(alloc, &paths, resources)?;
            Ok(Some(named))
        }
    }
}

impl CompiledMap {
    /// The map with these resources, which have patterns as values.
    #[tactic(auto, using(crate::proofs::Names::written))]
    pub(crate) fn compile(
        alloc: Global,
        def: &ServiceDef,
        resources: &Seq<PolicyResource>,
        reach: Reach,
    ) -> Result<CompiledMap, NoMemory>
        requires values { values_fit def.now resources.now.items ≡ true }
        ensures { IfOk result (λ m. m ≡ map_form def.now reach resources.now) }
    {
        let levels = levels_of(alloc, def, resources.as_slice())?;
        let paths = paths_for(alloc, def, resources.as_slice(), reach)?;
        let written = Snapshot::of(resources);
        Ok(CompiledMap {
            levels,
            paths,
            written,
        })
    }
}
