// The texts of the workload.
ghost use Rattle.std.specs.Prelude.{◌≡◌, ◌++◌, IfOk, OnOk, OnErr, List, map, decimal, string_bytes};
ghost use Rattle.std.specs.Str.{chars};
ghost use Rattle.rg_base.specs.Listed.{listed};
ghost use Rattle.rg_drill.specs.Words.{numbered, spelled, text_of};

use rg_base::{NoMemory, Seq, Text};
use std::alloc::Global;

/// A text that the workload or its definition holds.
#[derive(Clone, Copy)]
pub(crate) enum Word {
    // definition and service
    Hive,
    Hive1,
    Root,
    // levels
    Database,
    Url,
    Table,
    Udf,
    Column,
    // access types
    Select,
    Update,
    Create,
    Drop,
    Alter,
    All,
    // conditions and their evaluators
    AccessedTogether,
    AccessedTogetherCondition,
    IpRange,
    // mask types and their transformers
    Mask,
    MaskColumn,
    MaskShowLast4,
    MaskLastColumn,
    MaskNone,
    Custom,
    // what policies and requests name
    PolicyPrefix,
    UserPrefix,
    DatabasePrefix,
    TablePrefix,
    AColumn,
    Star,
}

impl Word {
    /// Its letters.
    #[tactic(auto, unfolding(crate::specs::Words::spelled))]
    pub(crate) fn letters(self) -> &'static str
        ensures { result.now ≡ spelled self }
    {
        match self {
            Word::Hive => "hive",
            Word::Hive1 => "hive1",
            Word::Root => "root",
            Word::Database => "database",
            Word::Url => "url",
            Word::Table => "table",
            Word::Udf => "udf",
            Word::Column => "column",
            Word::Select => "select",
            Word::Update => "update",
            Word::Create => "create",
            Word::Drop => "drop",
            Word::Alter => "alter",
            Word::All => "all",
            Word::AccessedTogether => "resources-accessed-together",
            Word::AccessedTogetherCondition => "RangerHiveResourcesAccessedTogetherCondition",
            Word::IpRange => "ip-range",
            Word::Mask => "MASK",
            Word::MaskColumn => "mask({col})",
            Word::MaskShowLast4 => "MASK_SHOW_LAST_4",
            Word::MaskLastColumn => "mask_show_last_n({col}, 4, 'x', 'x', 'x', -1, '1')",
            Word::MaskNone => "MASK_NONE",
            Word::Custom => "CUSTOM",
            Word::PolicyPrefix => "p",
            Word::UserPrefix => "u",
            Word::DatabasePrefix => "db",
            Word::TablePrefix => "t",
            Word::AColumn => "c",
            Word::Star => "*",
        }
    }

    /// The word as a text.
    #[tactic(auto, unfolding(crate::specs::Words::text_of))]
    pub(crate) fn text(self, alloc: Global) -> Result<Text, NoMemory>
        ensures { IfOk result (λ t. t ≡ text_of self) }
    {
        Text::copy_of(alloc, self.letters())
    }
}

/// The word and, right behind it, a number.
#[tactic(auto, unfolding(crate::specs::Words::numbered))]
pub(crate) fn numbered(alloc: Global, word: Word, number: u64) -> Result<Text, NoMemory>
    ensures { IfOk result (λ t. t ≡ numbered word number) }
{
    let letters = word.letters();
    let held = format!(in alloc; "{letters}{number}")?;
    Ok(Text::of(held))
}

/// These words as texts.
pub(crate) fn texts(alloc: Global, words: &[Word]) -> Result<Seq<Text>, NoMemory>
    ensures { IfOk result (λ list. list ≡ listed (map text_of words.now)) }
{
    let mut list = Seq::new(alloc);
    for word in words {
        list.add(word.text(alloc)?)?;
    }
    Ok(list)
}
