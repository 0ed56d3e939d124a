// The records of a service definition, printed.
ghost use Rattle.std.specs.Prelude.{◌≡◌, IfOk, map};
ghost use Rattle.serde_json.specs.View.{view};
ghost use Rattle.rg_json.specs.Printing.{list_data};
ghost use Rattle.rg_cmd_wire.specs.PrintedRows.{filter_part_data, mask_part_data, named_data, options_data, pairs_data};

use crate::maps::map_json;
use crate::reply_key::ReplyKey::{self, Wire};
use rg_base::{NoMemory, Pair, Seq, Text};
use rg_defs::{AccessType, ConditionDef, Level, MaskType, ServiceDef};
use rg_json::{Name, ToJson, put, put_value};
use rg_wire::Key;
use serde_json::{Map, Value};
use std::alloc::Global;

impl ToJson<ReplyKey> for Pair {
    ghost use Rattle.rg_cmd_wire.specs.PrintedRows.{pair_data};

    ghost printing = { pair_data };

    fn json(&self, alloc: Global) -> Result<Value, NoMemory> {
        <Text as ToJson<ReplyKey>>::json(&self.value, alloc)
    }
}

/// The pairs as a map by their keys.
#[tactic(auto, unfolding(crate::specs::PrintedRows::pairs_data))]
pub(crate) fn pairs_json(alloc: Global, pairs: &Seq<Pair>) -> Result<Value, NoMemory>
    ensures { IfOk result (λ v. view v ≡ pairs_data pairs.now) }
{
    map_json(alloc, pairs)
}

/// The matcher options as one map within another.
#[tactic(auto, unfolding(crate::specs::PrintedRows::options_data))]
fn options_json(alloc: Global, level: &Level) -> Result<Value, NoMemory>
    ensures { IfOk result (λ v. view v ≡ options_data level.now) }
{
    let mut members = Map::new(alloc);
    put(alloc, &mut members, Wire(Key::WildCard), &level.wild)?;
    put(alloc, &mut members, Wire(Key::IgnoreCase), &level.fold)?;
    Ok(Value::Object(members))
}

impl ToJson<ReplyKey> for Level {
    ghost use Rattle.rg_cmd_wire.specs.PrintedRows.{level_data};

    ghost printing = { level_data };

    #[tactic(auto, unfolding(crate::specs::PrintedRows::level_data))]
    fn json(&self, alloc: Global) -> Result<Value, NoMemory> {
        let mut members = Map::new(alloc);
        put(alloc, &mut members, Wire(Key::Name), &self.name)?;
        put(alloc, &mut members, Wire(Key::Level), &self.level)?;
        put(alloc, &mut members, Wire(Key::Parent), &self.parent)?;
        put(alloc, &mut members, Wire(Key::Mandatory), &self.mandatory)?;
        let recursive = &self.recursive;
        put(
            alloc,
            &mut members,
            Wire(Key::RecursiveSupported),
            recursive,
        )?;
        let excludes = &self.excludes;
        put(alloc, &mut members, Wire(Key::ExcludesSupported), excludes)?;
        let options = options_json(alloc, self)?;
        put_value(
            alloc,
            &mut members,
            Wire(Key::MatcherOptions).name(),
            options,
        )?;
        Ok(Value::Object(members))
    }
}

impl ToJson<ReplyKey> for AccessType {
    ghost use Rattle.rg_cmd_wire.specs.PrintedRows.{access_type_data};

    ghost printing = { access_type_data };

    #[tactic(auto, unfolding(crate::specs::PrintedRows::access_type_data))]
    fn json(&self, alloc: Global) -> Result<Value, NoMemory> {
        let mut members = Map::new(alloc);
        put(alloc, &mut members, Wire(Key::Name), &self.name)?;
        put(alloc, &mut members, Wire(Key::ImpliedGrants), &self.implied)?;
        Ok(Value::Object(members))
    }
}

impl ToJson<ReplyKey> for ConditionDef {
    ghost use Rattle.rg_cmd_wire.specs.PrintedRows.{condition_def_data};

    ghost printing = { condition_def_data };

    #[tactic(auto, unfolding(crate::specs::PrintedRows::condition_def_data))]
    fn json(&self, alloc: Global) -> Result<Value, NoMemory> {
        let mut members = Map::new(alloc);
        put(alloc, &mut members, Wire(Key::Name), &self.name)?;
        put(alloc, &mut members, Wire(Key::Evaluator), &self.evaluator)?;
        let options = pairs_json(alloc, &self.options)?;
        put_value(
            alloc,
            &mut members,
            Wire(Key::EvaluatorOptions).name(),
            options,
        )?;
        Ok(Value::Object(members))
    }
}

impl ToJson<ReplyKey> for MaskType {
    ghost use Rattle.rg_cmd_wire.specs.PrintedRows.{mask_type_data};

    ghost printing = { mask_type_data };

    #[tactic(auto, unfolding(crate::specs::PrintedRows::mask_type_data))]
    fn json(&self, alloc: Global) -> Result<Value, NoMemory> {
        let mut members = Map::new(alloc);
        put(alloc, &mut members, Wire(Key::Name), &self.name)?;
        put(
            alloc,
            &mut members,
            Wire(Key::Transformer),
            &self.transformer,
        )?;
        Ok(Value::Object(members))
    }
}

/// What is kept by its name alone.
#[tactic(auto, unfolding(crate::specs::PrintedRows::named_data))]
fn named_json(alloc: Global, name: &Text) -> Result<Value, NoMemory>
    ensures { IfOk result (λ v. view v ≡ named_data name.now) }
{
    let mut members = Map::new(alloc);
    put(alloc, &mut members, Wire(Key::Name), name)?;
    Ok(Value::Object(members))
}

/// A map for each name.
fn each_named(alloc: Global, names: &[Text]) -> Result<Vec<Value>, NoMemory>
    ensures { IfOk result (λ vs. map view vs.items ≡ map named_data names.now) }
{
    let mut made = Vec::new(alloc);
    for name in names {
        made.push(named_json(alloc, name)?)?;
    }
    Ok(made)
}

/// A list that is kept as the name of each.
#[tactic(auto, unfolding(rg_json::specs::Printing::list_data))]
fn names_json(alloc: Global, names: &Seq<Text>) -> Result<Value, NoMemory>
    ensures { IfOk result (λ v. view v ≡ list_data named_data names.now) }
{
    Ok(Value::Array(each_named(alloc, names.as_slice())?))
}

#[tactic(auto, unfolding(crate::specs::PrintedRows::mask_part_data))]
fn mask_part_json(alloc: Global, def: &ServiceDef) -> Result<Value, NoMemory>
    ensures { IfOk result (λ v. view v ≡ mask_part_data def.now) }
{
    let mut members = Map::new(alloc);
    put(alloc, &mut members, Wire(Key::MaskTypes), &def.masks)?;
    let access_types = names_json(alloc, &def.mask_access)?;
    put_value(
        alloc,
        &mut members,
        Wire(Key::AccessTypes).name(),
        access_types,
    )?;
    let levels = names_json(alloc, &def.mask_levels)?;
    put_value(alloc, &mut members, Wire(Key::Resources).name(), levels)?;
    Ok(Value::Object(members))
}

#[tactic(auto, unfolding(crate::specs::PrintedRows::filter_part_data))]
fn filter_part_json(alloc: Global, def: &ServiceDef) -> Result<Value, NoMemory>
    ensures { IfOk result (λ v. view v ≡ filter_part_data def.now) }
{
    let mut members = Map::new(alloc);
    let access_types = names_json(alloc, &def.filter_access)?;
    put_value(
        alloc,
        &mut members,
        Wire(Key::AccessTypes).name(),
        access_types,
    )?;
    let levels = names_json(alloc, &def.filter_levels)?;
    put_value(alloc, &mut members, Wire(Key::Resources).name(), levels)?;
    Ok(Value::Object(members))
}

impl ToJson<ReplyKey> for ServiceDef {
    ghost use Rattle.rg_cmd_wire.specs.PrintedRows.{def_data};

    ghost printing = { def_data };

    #[tactic(auto, unfolding(crate::specs::PrintedRows::def_data))]
    fn json(&self, alloc: Global) -> Result<Value, NoMemory> {
        let mut members = Map::new(alloc);
        put(alloc, &mut members, Wire(Key::Name), &self.name)?;
        put(alloc, &mut members, Wire(Key::Resources), &self.levels)?;
        let access_types = &self.access_types;
        put(alloc, &mut members, Wire(Key::AccessTypes), access_types)?;
        let conditions = &self.conditions;
        put(alloc, &mut members, Wire(Key::PolicyConditions), conditions)?;
        let masks = mask_part_json(alloc, self)?;
        put_value(alloc, &mut members, Wire(Key::DataMaskDef).name(), masks)?;
        let filters = filter_part_json(alloc, self)?;
        put_value(alloc, &mut members, Wire(Key::RowFilterDef).name(), filters)?;
        Ok(Value::Object(members))
    }
}
