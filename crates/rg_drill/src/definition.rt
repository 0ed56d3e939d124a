// The service definition of the drill, and the configuration that its administration starts from.
ghost use Rattle.std.specs.Prelude.{◌≡◌, ◌∷◌, [], IfOk, map, Option, Some, None};
ghost use Rattle.rg_base.specs.Listed.{listed};
ghost use Rattle.rg_drill.specs.Hive.{access_of, condition_of, drill_config, hive, hive_accesses, hive_conditions, hive_levels, hive_masks, hive_service, level_of, mask_of, text_or_empty, texts_of, url_level};

use crate::word::{Word, texts};
use rg_base::{NoMemory, Seq, Text};
use rg_cmd::{Config, ServiceRow};
use rg_defs::{AccessType, ConditionDef, Level, MaskType, ServiceDef};
use std::alloc::Global;

fn text_or_empty(alloc: Global, word: Option<Word>) -> Result<Text, NoMemory>
    ensures { IfOk result (λ t. t ≡ text_or_empty word) }
{
    match word {
        Some(word) => word.text(alloc),
        None => Ok(Text::empty(alloc)),
    }
}

/// A level whose policies may exclude.
fn level(alloc: Global, name: Word, number: i64, parent: Option<Word>) -> Result<Level, NoMemory>
    ensures { IfOk result (λ l. l ≡ level_of name number parent) }
{
    Ok(Level {
        name: name.text(alloc)?,
        level: number,
        parent: text_or_empty(alloc, parent)?,
        mandatory: false,
        recursive: false,
        excludes: true,
        wild: true,
        fold: true,
    })
}

fn url_level(alloc: Global) -> Result<Level, NoMemory>
    ensures { IfOk result (λ l. l ≡ url_level) }
{
    Ok(Level {
        name: Word::Url.text(alloc)?,
        level: 10,
        parent: Text::empty(alloc),
        mandatory: false,
        recursive: true,
        excludes: false,
        wild: true,
        fold: false,
    })
}

#[tactic(auto, unfolding(crate::specs::Hive::hive_levels))]
fn levels(alloc: Global) -> Result<Seq<Level>, NoMemory>
    ensures { IfOk result (λ list. list ≡ listed hive_levels) }
{
    let mut list = Seq::new(alloc);
    list.add(level(alloc, Word::Database, 10, None)?)?;
    list.add(url_level(alloc)?)?;
    list.add(level(alloc, Word::Table, 20, Some(Word::Database))?)?;
    list.add(level(alloc, Word::Udf, 20, Some(Word::Database))?)?;
    list.add(level(alloc, Word::Column, 30, Some(Word::Table))?)?;
    Ok(list)
}

fn access_type(alloc: Global, name: Word, implied: &[Word]) -> Result<AccessType, NoMemory>
    ensures { IfOk result (λ t. t ≡ access_of name implied.now) }
{
    Ok(AccessType {
        name: name.text(alloc)?,
        implied: texts(alloc, implied)?,
    })
}

#[tactic(auto, unfolding(crate::specs::Hive::hive_accesses))]
fn access_types(alloc: Global) -> Result<Seq<AccessType>, NoMemory>
    ensures { IfOk result (λ list. list ≡ listed hive_accesses) }
{
    let mut list = Seq::new(alloc);
    list.add(access_type(alloc, Word::Select, &[])?)?;
    list.add(access_type(alloc, Word::Update, &[])?)?;
    list.add(access_type(alloc, Word::Create, &[])?)?;
    list.add(access_type(alloc, Word::Drop, &[])?)?;
    list.add(access_type(alloc, Word::Alter, &[])?)?;
    let others = [
        Word::Select,
        Word::Update,
        Word::Create,
        Word::Drop,
        Word::Alter,
    ];
    list.add(access_type(alloc, Word::All, &others)?)?;
    Ok(list)
}

fn condition(alloc: Global, name: Word, evaluator: Word) -> Result<ConditionDef, NoMemory>
    ensures { IfOk result (λ c. c ≡ condition_of name evaluator) }
{
    Ok(ConditionDef {
        name: name.text(alloc)?,
        evaluator: evaluator.text(alloc)?,
        options: Seq::new(alloc),
    })
}

#[tactic(auto, unfolding(crate::specs::Hive::hive_conditions))]
fn conditions(alloc: Global) -> Result<Seq<ConditionDef>, NoMemory>
    ensures { IfOk result (λ list. list ≡ listed hive_conditions) }
{
    let mut list = Seq::new(alloc);
    list.add(condition(
        alloc,
        Word::AccessedTogether,
        Word::AccessedTogetherCondition,
    )?)?;
    list.add(condition(alloc, Word::IpRange, Word::IpRange)?)?;
    Ok(list)
}

fn mask(alloc: Global, name: Word, transformer: Option<Word>) -> Result<MaskType, NoMemory>
    ensures { IfOk result (λ m. m ≡ mask_of name transformer) }
{
    Ok(MaskType {
        name: name.text(alloc)?,
        transformer: text_or_empty(alloc, transformer)?,
    })
}

#[tactic(auto, unfolding(crate::specs::Hive::hive_masks))]
fn masks(alloc: Global) -> Result<Seq<MaskType>, NoMemory>
    ensures { IfOk result (λ list. list ≡ listed hive_masks) }
{
    let mut list = Seq::new(alloc);
    list.add(mask(alloc, Word::Mask, Some(Word::MaskColumn))?)?;
    list.add(mask(alloc, Word::MaskShowLast4, Some(Word::MaskLastColumn))?)?;
    list.add(mask(alloc, Word::MaskNone, None)?)?;
    list.add(mask(alloc, Word::Custom, None)?)?;
    Ok(list)
}

/// The definition `hive` of the drill: five levels, six access types, two conditions and four mask types.
#[tactic(auto, unfolding(crate::specs::Hive::hive))]
pub fn hive(alloc: Global) -> Result<ServiceDef, NoMemory>
    ensures { IfOk result (λ def. def ≡ hive) }
{
    Ok(ServiceDef {
        name: Word::Hive.text(alloc)?,
        levels: levels(alloc)?,
        access_types: access_types(alloc)?,
        conditions: conditions(alloc)?,
        masks: masks(alloc)?,
        mask_access: texts(alloc, &[Word::Select])?,
        mask_levels: texts(alloc, &[Word::Database, Word::Table, Word::Column])?,
        filter_access: texts(alloc, &[Word::Select])?,
        filter_levels: texts(alloc, &[Word::Database, Word::Table])?,
    })
}

#[tactic(auto, unfolding(crate::specs::Hive::hive_service))]
fn service(alloc: Global) -> Result<ServiceRow, NoMemory>
    ensures { IfOk result (λ row. row ≡ hive_service) }
{
    Ok(ServiceRow {
        name: Word::Hive1.text(alloc)?,
        def: Word::Hive.text(alloc)?,
        tag_service: Text::empty(alloc),
        fallback: false,
    })
}

fn definitions(alloc: Global) -> Result<Seq<ServiceDef>, NoMemory>
    ensures { IfOk result (λ list. list ≡ listed (hive ∷ [])) }
{
    let mut list = Seq::new(alloc);
    list.add(hive(alloc)?)?;
    Ok(list)
}

fn services(alloc: Global) -> Result<Seq<ServiceRow>, NoMemory>
    ensures { IfOk result (λ list. list ≡ listed (hive_service ∷ [])) }
{
    let mut list = Seq::new(alloc);
    list.add(service(alloc)?)?;
    Ok(list)
}

/// The configuration of the drill: the definition `hive`, its service `hive1`, whose plugin this is, and the
/// administrator `root`.
#[tactic(auto, unfolding(crate::specs::Hive::drill_config))]
pub fn drill_config(alloc: Global) -> Result<Config, NoMemory>
    ensures { IfOk result (λ config. config ≡ drill_config) }
{
    Ok(Config {
        admins: texts(alloc, &[Word::Root])?,
        users: Seq::new(alloc),
        time_zones: Seq::new(alloc),
        defs: definitions(alloc)?,
        services: services(alloc)?,
        plugin: Word::Hive1.text(alloc)?,
    })
}
