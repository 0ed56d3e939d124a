// What is wrong with definitions.
ghost use Rattle.std.specs.Prelude.{◌≡◌, ◌++◌, IfOk, OnOk, option_map};
ghost use Rattle.rg_defs.specs.Rules.{def_fault};
ghost use Rattle.rg_facts.specs.Sound.{is_tag_def};
ghost use Rattle.rg_facts_check.specs.Causes.{def_causes, present, tag_def_causes};
ghost use Rattle.rg_facts_check.specs.declared.unsound.Unsound.TheVariants as unsound;

use crate::noting::{note, unless};
use crate::unsound::Unsound;
use rg_base::{NoMemory, same_text};
use rg_defs::{DefFault, ServiceDef, check_def, tag_name};
use rg_facts::Facts;
use std::alloc::Global;

/// The first rule that the definition fails.
fn def_rule(alloc: Global, def: &ServiceDef) -> Result<Option<u8>, NoMemory>
    ensures { IfOk result (λ rule. rule ≡ def_fault def.now) }
{
    match check_def(alloc, def) {
        Ok(()) => Ok(None),
        Err(DefFault::Rule(rule)) => Ok(Some(rule)),
        Err(DefFault::NoMemory) => Err(NoMemory),
    }
}

pub(crate) fn is_tag_def(def: &ServiceDef) -> bool
    ensures { result ≡ is_tag_def def.now }
{
    same_text(def.name.as_str(), tag_name())
}

/// The first rule that the service definition fails.
fn def_cause(alloc: Global, def: &ServiceDef) -> Result<Option<Unsound>, NoMemory>
    ensures { IfOk result (λ cause. cause ≡ option_map unsound.Definition (def_fault def.now)) }
{
    match def_rule(alloc, def)? {
        Some(rule) => Ok(Some(Unsound::Definition(rule))),
        None => Ok(None),
    }
}

/// The first rule that the tag definition fails.
fn tag_def_cause(alloc: Global, def: &ServiceDef) -> Result<Option<Unsound>, NoMemory>
    ensures { IfOk result (λ cause. cause ≡ option_map unsound.TagDefinition (def_fault def.now)) }
{
    match def_rule(alloc, def)? {
        Some(rule) => Ok(Some(Unsound::TagDefinition(rule))),
        None => Ok(None),
    }
}

/// Adds what is wrong with the tag definition.
fn add_tag_def_causes(
    alloc: Global,
    def: Option<&ServiceDef>,
    causes: &mut Vec<Unsound>,
) -> Result<(), NoMemory>
    ensures { OnOk result (causes.new.items
        ≡ causes.old.items ++ present (tag_def_causes (option_map (λ d. d.now) def.entry))) }
{
    let Some(def) = def else {
        return Ok(());
    };
    note(causes, tag_def_cause(alloc, def)?)?;
    note(causes, unless(is_tag_def(def), Unsound::TagName))
}

/// What is wrong with the definitions.
pub(crate) fn def_causes(alloc: Global, facts: &Facts) -> Result<Vec<Unsound>, NoMemory>
    ensures { IfOk result (λ causes. causes.items ≡ present (def_causes facts.now)) }
{
    let mut causes = Vec::new(alloc);
    note(&mut causes, def_cause(alloc, &facts.def)?)?;
    add_tag_def_causes(alloc, facts.tag_def.as_ref(), &mut causes)?;
    Ok(causes)
}
