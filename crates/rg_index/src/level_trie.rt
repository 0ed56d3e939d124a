// One level of an index: the entries of all forms there.
ghost use Rattle.std.specs.Prelude.{◌≡◌, ◌++◌, ◌+◌, [], IfOk, Option, length, map, option_map, true};
ghost use Rattle.std.specs.List.{flat_map, list_all, sum_by};
ghost use Rattle.std.specs.Arc.{arc_value};
ghost use Rattle.rg_index.specs.Candidates.{in_order};
ghost use Rattle.rg_index.specs.Filing.{EditsWithin, numbered};
ghost use Rattle.rg_index.specs.Kept.{built, edited, given_keys, given_level_pairs, is_given_written, is_written, level_keys, level_pairs, with_all, without_all};
ghost use Rattle.rg_index.specs.declared.form.Form.{Form};

use crate::form::Form;
use crate::keys::level_keys;
use rg_base::{Ledger, Named, NoMemory, Steps, Text, TryCopy};
use rg_defs::Level;
use rg_trie::{Filed, Trie};
use std::alloc::Global;
use std::marker::Model;
use std::sync::Arc;

/// A level of the definition, and the ids that are filed there.
#[derive(Drop)]
pub(crate) struct LevelTrie {
    pub(crate) level: Arc<Level>,
    pub(crate) trie: Arc<Trie>,
}

impl Model for LevelTrie {
    ghost use Rattle.std.specs.Arc.{arc_value};
    ghost use Rattle.rg_index.specs.Kept.{LevelPairs};

    ghost Value = { LevelPairs };

    ghost view = { λ t. record { level = arc_value t.level; held = arc_value t.trie } };
}

impl Named for LevelTrie {
    ghost named = { λ t. t.level.name };

    fn name(&self) -> &str {
        self.level.name.as_str()
    }
}

/// The place of the value that a key is of.
fn entry_of(id: i64, place: usize) -> Result<Filed, NoMemory>
    ensures { IfOk result (λ e. e ≡ record { id = id; place = place }) }
{
    let Ok(place) = u32::try_from(place) else {
        return Err(NoMemory);
    };
    Ok(Filed { id, place })
}

/// The trie with the id under each of the keys. More keys than have places of 32 bits are want of memory.
fn with_keys<L: Ledger>(
    alloc: Global,
    mut trie: Arc<Trie>,
    id: i64,
    keys: &[Text],
    steps: &mut Steps<L>,
) -> Result<Arc<Trie>, NoMemory>
    ensures filed { IfOk result
        (λ t. arc_value t ≡ with_all (arc_value trie) (numbered id 0 keys.now)) }
    ensures steps { EditsWithin (length keys.now) steps.old steps.new }
{
    for (place, key) in keys.iter().enumerate() {
        let entry = entry_of(id, place)?;
        let next = trie.insert(alloc, key.as_str(), entry, steps)?;
        trie = Arc::new(alloc, next)?;
    }
    Ok(trie)
}

/// The trie without the id under each of the keys.
fn without_keys<L: Ledger>(
    alloc: Global,
    mut trie: Arc<Trie>,
    id: i64,
    keys: &[Text],
    steps: &mut Steps<L>,
) -> Result<Arc<Trie>, NoMemory>
    ensures taken { IfOk result
        (λ t. arc_value t ≡ without_all (arc_value trie) (numbered id 0 keys.now)) }
    ensures steps { EditsWithin (length keys.now) steps.old steps.new }
{
    for (place, key) in keys.iter().enumerate() {
        let entry = entry_of(id, place)?;
        let next = trie.remove(alloc, key.as_str(), entry, steps)?;
        trie = Arc::new(alloc, next)?;
    }
    Ok(trie)
}

fn with_form<L: Ledger>(
    alloc: Global,
    trie: Arc<Trie>,
    level: &Level,
    form: &Form,
    steps: &mut Steps<L>,
) -> Result<Arc<Trie>, NoMemory>
    requires { is_written form.now ≡ true }
    ensures filed { IfOk result
        (λ t. arc_value t ≡ with_all (arc_value trie) (level_pairs level.now form.now)) }
    ensures steps { EditsWithin (length (level_keys level.now form.now)) steps.old steps.new }
{
    let keys = level_keys(alloc, level, form)?;
    with_keys(alloc, trie, form.id, keys.as_slice(), steps)
}

fn without_form<L: Ledger>(
    alloc: Global,
    trie: Arc<Trie>,
    level: &Level,
    form: &Form,
    steps: &mut Steps<L>,
) -> Result<Arc<Trie>, NoMemory>
    requires { is_written form.now ≡ true }
    ensures taken { IfOk result
        (λ t. arc_value t ≡ without_all (arc_value trie) (level_pairs level.now form.now)) }
    ensures steps { EditsWithin (length (level_keys level.now form.now)) steps.old steps.new }
{
    let keys = level_keys(alloc, level, form)?;
    without_keys(alloc, trie, form.id, keys.as_slice(), steps)
}

fn with_forms<L: Ledger>(
    alloc: Global,
    mut trie: Arc<Trie>,
    level: &Level,
    forms: &[Form],
    steps: &mut Steps<L>,
) -> Result<Arc<Trie>, NoMemory>
    requires { list_all is_written forms.now ≡ true }
    ensures filed { IfOk result (λ t. arc_value t
        ≡ with_all (arc_value trie) (flat_map (level_pairs level.now) forms.now)) }
    ensures steps { EditsWithin (sum_by
        (λ f. length (level_keys level.now f)) forms.now) steps.old steps.new }
{
    for form in forms {
        trie = with_form(alloc, trie, level, form, steps)?;
    }
    Ok(trie)
}

impl LevelTrie {
    /// The level with all these forms.
    pub(crate) fn build<L: Ledger>(
        alloc: Global,
        level: &Level,
        forms: &[Form],
        steps: &mut Steps<L>,
    ) -> Result<LevelTrie, NoMemory>
        requires { list_all is_written forms.now ≡ true }
        ensures built { IfOk result (λ t. t ≡ built forms.now level.now) }
        ensures steps { EditsWithin (sum_by
            (λ f. length (level_keys level.now f)) forms.now) steps.old steps.new }
    {
        let copy = Arc::new(alloc, level.try_copy(alloc)?)?;
        let empty = Arc::new(alloc, Trie::empty(alloc))?;
        let trie = with_forms(alloc, empty, level, forms, steps)?;
        Ok(LevelTrie { level: copy, trie })
    }

    fn without<L: Ledger>(
        &self,
        alloc: Global,
        old: Option<&Form>,
        steps: &mut Steps<L>,
    ) -> Result<Arc<Trie>, NoMemory>
        requires { is_given_written (option_map (λ f. f.now) old) ≡ true }
        ensures taken { IfOk result (λ t. arc_value t ≡ without_all self.now.held
            (given_level_pairs self.now.level (option_map (λ f. f.now) old.entry))) }
        ensures steps { EditsWithin (length (given_keys self.now.level
            (option_map (λ f. f.now) old.entry))) steps.old steps.new }
    {
        let trie = Arc::try_clone(&self.trie)?;
        match old {
            Some(form) => without_form(alloc, trie, &self.level, form, steps),
            None => Ok(trie),
        }
    }

    /// The level without the old form and with the new one.
    pub(crate) fn edited<L: Ledger>(
        &self,
        alloc: Global,
        old: Option<&Form>,
        new: Option<&Form>,
        steps: &mut Steps<L>,
    ) -> Result<LevelTrie, NoMemory>
        requires old { is_given_written (option_map (λ f. f.now) old) ≡ true }
        requires new { is_given_written (option_map (λ f. f.now) new) ≡ true }
        ensures edited { IfOk result (λ t. t ≡ edited
            (option_map (λ f. f.now) old.entry) (option_map (λ f. f.now) new.entry) self.now) }
        ensures steps { EditsWithin (length
            (given_keys self.now.level (option_map (λ f. f.now) old.entry)) + length (given_keys
            self.now.level (option_map (λ f. f.now) new.entry))) steps.old steps.new }
    {
        let level = Arc::try_clone(&self.level)?;
        let taken = self.without(alloc, old, steps)?;
        let trie = match new {
            Some(form) => with_form(alloc, taken, &self.level, form, steps)?,
            None => taken,
        };
        Ok(LevelTrie { level, trie })
    }
}
