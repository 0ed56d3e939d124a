// The records of a service definition, read.
use crate::key::Key;
use crate::wire::{Members, Wire};
use rg_base::NoMemory;
use rg_defs::{AccessType, ConditionDef, Level, MaskType, ServiceDef};
use rg_json::{Reader, bool_at, find_or, i64_at, list_at, map_at, text_at, truth_word_at};
use serde_json::Value;
use std::alloc::Global;

impl Reader<Level> for Wire {
    ghost use Rattle.rg_json.specs.Own.{Whatever};
    ghost use Rattle.rg_wire.specs.Records.{level_of};

    ghost reading = { λ w. level_of };

    ghost owned = { Whatever };

    #[tactic(auto, unfolding(crate::specs::Records::level_of))]
    fn read(&self, alloc: Global, value: &Value) -> Result<Level, NoMemory> {
        let null = Value::Null;
        let options = find_or(value, Key::MatcherOptions, &null);
        Ok(Level {
            name: text_at(alloc, value, Key::Name)?,
            level: i64_at(value, Key::Level, 0),
            parent: text_at(alloc, value, Key::Parent)?,
            mandatory: bool_at(value, Key::Mandatory, false),
            recursive: bool_at(value, Key::RecursiveSupported, false),
            excludes: bool_at(value, Key::ExcludesSupported, false),
            wild: truth_word_at(options, Key::WildCard, true),
            fold: truth_word_at(options, Key::IgnoreCase, true),
        })
    }
}

impl Reader<AccessType> for Wire {
    ghost use Rattle.rg_json.specs.Own.{Whatever};
    ghost use Rattle.rg_wire.specs.Records.{access_type_of};

    ghost reading = { λ w. access_type_of };

    ghost owned = { Whatever };

    #[tactic(auto, unfolding(crate::specs::Records::access_type_of))]
    fn read(&self, alloc: Global, value: &Value) -> Result<AccessType, NoMemory> {
        Ok(AccessType {
            name: text_at(alloc, value, Key::Name)?,
            implied: list_at(alloc, self, value, Key::ImpliedGrants)?,
        })
    }
}

impl Reader<ConditionDef> for Wire {
    ghost use Rattle.rg_json.specs.Own.{Whatever};
    ghost use Rattle.rg_wire.specs.Records.{condition_def_of};

    ghost reading = { λ w. condition_def_of };

    ghost owned = { Whatever };

    #[tactic(auto, unfolding(crate::specs::Records::condition_def_of))]
    fn read(&self, alloc: Global, value: &Value) -> Result<ConditionDef, NoMemory> {
        Ok(ConditionDef {
            name: text_at(alloc, value, Key::Name)?,
            evaluator: text_at(alloc, value, Key::Evaluator)?,
            options: map_at(alloc, self, value, Key::EvaluatorOptions)?,
        })
    }
}

impl Reader<MaskType> for Wire {
    ghost use Rattle.rg_json.specs.Own.{Whatever};
    ghost use Rattle.rg_wire.specs.Records.{mask_type_of};

    ghost reading = { λ w. mask_type_of };

    ghost owned = { Whatever };

    #[tactic(auto, unfolding(crate::specs::Records::mask_type_of))]
    fn read(&self, alloc: Global, value: &Value) -> Result<MaskType, NoMemory> {
        Ok(MaskType {
            name: text_at(alloc, value, Key::Name)?,
            transformer: text_at(alloc, value, Key::Transformer)?,
        })
    }
}

impl Reader<ServiceDef> for Wire {
    ghost use Rattle.rg_json.specs.Own.{Whatever};
    ghost use Rattle.rg_wire.specs.Records.{service_def_of};

    ghost reading = { λ w. service_def_of };

    ghost owned = { Whatever };

    #[tactic(auto, unfolding(crate::specs::Records::service_def_of))]
    fn read(&self, alloc: Global, value: &Value) -> Result<ServiceDef, NoMemory> {
        let null = Value::Null;
        let mask = find_or(value, Key::DataMaskDef, &null);
        let filter = find_or(value, Key::RowFilterDef, &null);
        Ok(ServiceDef {
            name: text_at(alloc, value, Key::Name)?,
            levels: list_at(alloc, self, value, Key::Resources)?,
            access_types: list_at(alloc, self, value, Key::AccessTypes)?,
            conditions: list_at(alloc, self, value, Key::PolicyConditions)?,
            masks: list_at(alloc, self, mask, Key::MaskTypes)?,
            mask_access: list_at(alloc, &Members, mask, Key::AccessTypes)?,
            mask_levels: list_at(alloc, &Members, mask, Key::Resources)?,
            filter_access: list_at(alloc, &Members, filter, Key::AccessTypes)?,
            filter_levels: list_at(alloc, &Members, filter, Key::Resources)?,
        })
    }
}
