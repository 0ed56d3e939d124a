// The index: one trie for each level of a definition.
ghost use Rattle.std.specs.Prelude.{◌≡◌, ◌+◌, [], ℕ, List, None, Option, IfOk, length, map, option_map, true, unwrap_or};
ghost use Rattle.std.specs.List.{Contains, list_all, sum_by};
ghost use Rattle.std.specs.Str.{chars};
ghost use Rattle.rg_defs.specs.Rules.{def_fault};
ghost use Rattle.rg_index.specs.Candidates.{bound, candidates, fewest, filed_number, in_order};
ghost use Rattle.rg_index.specs.Changes.{IsAmong, changed, forms_fit, given_fits, given_pairs, ids_differ, is_free};
ghost use Rattle.rg_index.specs.Filing.{EditsWithin, filed, pairs};
ghost use Rattle.rg_index.specs.Kept.{LevelPairs, built, edited, entries_of, given_keys, is_given_written, is_written, lesser, level_keys};
ghost use Rattle.rg_defs.specs.declared.service_def.Level.{Level};
ghost use Rattle.rg_index.specs.declared.form.Form.{Form};
ghost use Rattle.rg_policy.specs.declared.request.Element.{Element};
ghost use Rattle.rg_resmatch.specs.Tests.{some_lies, tag_elements, value_at};

use crate::candidates::Candidates;
use crate::form::Form;
use crate::laws::lying_forms_are_candidates;
use crate::level_trie::LevelTrie;
use crate::origin::Origin;
use crate::seen::Seen;
use rg_base::{Ledger, NoMemory, Steps, find_named};
use rg_defs::{Level, ServiceDef, tag_name};
use rg_policy::{Element, Resource};
use rg_trie::{Trie, Walk};
use std::alloc::Global;
use std::marker::Model;

/// Forms, filed at the levels of a service definition. Contracts see the definition and the forms.
///
/// A change leaves the index as it is and gives a new one, which shares with it what the change doesn't touch.
#[derive(Drop)]
pub struct Index {
    /// The levels of the definition, in its order.
    levels: Vec<LevelTrie>,
    /// Where nothing is filed: what an unknown level has.
    nothing: Trie,
    /// Which only contracts see.
    seen: Seen,
}

impl Model for Index {
    ghost use Rattle.std.specs.Prelude.{◌≡◌, []};
    ghost use Rattle.rg_index.specs.Indexed.{Indexed};
    ghost use Rattle.rg_index.specs.Kept.{IsIndexed};

    ghost Value = { Indexed };

    ghost view = { λ x. x.seen.value };

    ghost invariant = { λ x. (x.nothing ≡ [])
        × IsIndexed x.seen.value.def x.seen.value.forms x.levels.items };
}

/// All levels with these forms.
fn build_levels<L: Ledger>(
    alloc: Global,
    levels: &[Level],
    forms: &[Form],
    steps: &mut Steps<L>,
) -> Result<Vec<LevelTrie>, NoMemory>
    requires { list_all is_written forms.now ≡ true }
    ensures built { IfOk result (λ v. v.items ≡ map (built forms.now) levels.now) }
    ensures steps { EditsWithin (sum_by (λ (l : Level). sum_by
        (λ f. length (level_keys l f)) forms.now) levels.now) steps.old steps.new }
{
    let mut list = Vec::new(alloc);
    for level in levels {
        let built = LevelTrie::build(alloc, level, forms, steps)?;
        list.push(built)?;
    }
    Ok(list)
}

/// All levels without the old form and with the new one.
fn edit_levels<L: Ledger>(
    alloc: Global,
    levels: &[LevelTrie],
    old: Option<&Form>,
    new: Option<&Form>,
    steps: &mut Steps<L>,
) -> Result<Vec<LevelTrie>, NoMemory>
    requires old { is_given_written (option_map (λ f. f.now) old) ≡ true }
    requires new { is_given_written (option_map (λ f. f.now) new) ≡ true }
    ensures edited { IfOk result (λ v. v.items ≡ map (edited (option_map (λ f. f.now) old.entry)
        (option_map (λ f. f.now) new.entry)) levels.now) }
    ensures steps { EditsWithin (sum_by (λ (t : LevelPairs).
        length (given_keys t.level (option_map (λ f. f.now) old.entry)) + length (given_keys
        t.level (option_map (λ f. f.now) new.entry))) levels.now) steps.old steps.new }
{
    let mut list = Vec::new(alloc);
    for level in levels {
        let edited = level.edited(alloc, old, new, steps)?;
        list.push(edited)?;
    }
    Ok(list)
}

impl Index {
    /// An index of these forms. The definition passes its rules, and the values of each map of each form pass rule V6.
    pub fn build<L: Ledger>(
        alloc: Global,
        def: &ServiceDef,
        forms: &[Form],
        steps: &mut Steps<L>,
    ) -> Result<Index, NoMemory>
        requires lawful { def_fault def.now ≡ None }
        requires apart { ids_differ forms.now ≡ true }
        requires fit { forms_fit def.now forms.now ≡ true }
        ensures made { IfOk result (λ x. x ≡ record { def = def.now; forms = forms.now }) }
        ensures steps { EditsWithin (sum_by (pairs def.now) forms.now) steps.old steps.new }
    {
        let levels = build_levels(alloc, def.levels.as_slice(), forms, steps)?;
        Ok(Index {
            levels,
            nothing: Trie::empty(alloc),
            seen: Seen::of(&Origin::Built(def, forms)),
        })
    }

    /// The index with the new form in the place of the old one, with it at the end where no old one is given, or without
    /// the old one where no new one is given. The definition is that of the index.
    pub fn apply<L: Ledger>(
        &self,
        alloc: Global,
        def: &ServiceDef,
        old: Option<&Form>,
        new: Option<&Form>,
        steps: &mut Steps<L>,
    ) -> Result<Index, NoMemory>
        requires same { def.now ≡ self.now.def }
        requires old { IsAmong self.now.forms (option_map (λ f. f.now) old) }
        requires free { is_free self.now.forms
            (option_map (λ f. f.now) old) (option_map (λ f. f.now) new) ≡ true }
        requires fit { given_fits def.now (option_map (λ f. f.now) new) ≡ true }
        ensures made { IfOk result (λ x. x ≡ record {
          def = def.now;
          forms = changed self.now.forms
              (option_map (λ f. f.now) old.entry) (option_map (λ f. f.now) new.entry);
        }) }
        ensures steps { EditsWithin (given_pairs def.now (option_map (λ f. f.now) old.entry)
            + given_pairs def.now (option_map (λ f. f.now) new.entry)) steps.old steps.new }
    {
        let levels = edit_levels(alloc, &self.levels, old, new, steps)?;
        Ok(Index {
            levels,
            nothing: Trie::empty(alloc),
            seen: Seen::of(&Origin::Changed(&self.seen, old, new)),
        })
    }

    /// The law of forms: no two have one id, and they fit the definition, which passes its rules. The call does nothing.
    pub fn law_of_forms(&self)
        ensures lawful { def_fault self.now.def ≡ None }
        ensures apart { ids_differ self.now.forms ≡ true }
        ensures fit { forms_fit self.now.def self.now.forms ≡ true }
    {
        let _levels = &self.levels;
    }

    /// A walk over what is filed at the level of this name for the value.
    fn walk<'a>(&'a self, name: &str, value: &'a str) -> Walk<'a>
        ensures { result ≡ entries_of
            (in_order (filed self.now.def self.now.forms (chars name.now) (chars value.now))) }
    {
        match find_named(&self.levels, name) {
            Some(level) => level.trie.walk(value, level.level.fold),
            None => self.nothing.walk(value, false),
        }
    }

    /// How much is filed there.
    fn count(&self, name: &str, value: &str) -> usize
        ensures { result
            ≡ length (filed self.now.def self.now.forms (chars name.now) (chars value.now)) }
    {
        match find_named(&self.levels, name) {
            Some(level) => level.trie.count(value, level.level.fold),
            None => 0,
        }
    }

    /// How much is filed for the value that the resource has at the element's level.
    fn count_for(&self, elements: &[Element], element: &Element) -> usize
        ensures { result ≡ filed_number self.now.def self.now.forms elements.now element.now }
    {
        let name = element.level.as_str();
        self.count(name, value_for(elements, name))
    }

    /// The first element at whose level fewest are filed.
    fn fewest<'a>(&self, elements: &'a [Element]) -> Option<&'a Element>
        ensures { option_map (λ e. e.now) result ≡ fewest self.now.def self.now.forms elements.now }
    {
        let mut best = None;
        for element in elements {
            best = lesser(best, element, self.count_for(elements, element));
        }
        element_of(best)
    }

    /// The ids of the forms that are filed at the level of the resource at which fewest are, the first of such: those
    /// with the shorter prefixes first, then by id and place, so an id comes as often as a value of its form is filed
    /// there. Every form that lies on the resource is among them. They are counted at each level, and nothing is copied.
    pub fn candidates<'a>(&'a self, resource: &'a Resource) -> Candidates<'a>
        ensures exact { result
            ≡ candidates self.now.def self.now.forms resource.now.elements.items }
        ensures bounded { length result
            ≡ bound self.now.def self.now.forms resource.now.elements.items }
        ensures all { (form : Form) (user : List ℕ) → Contains self.now.forms form
            → some_lies self.now.def form.maps.items form.reach resource.now.elements.items user ≡ true → Contains result form.id }
    {
        lying_forms_are_candidates();
        self.law_of_forms();
        let elements = resource.elements.as_slice();
        match self.fewest(elements) {
            Some(element) => {
                let name = element.level.as_str();
                Candidates::of(self.walk(name, value_for(elements, name)))
            }
            None => Candidates::of(self.nothing.walk("", false)),
        }
    }

    /// As `candidates`, for a resource whose one element has the level `tag` and this value.
    pub fn candidates_tag<'a>(&'a self, tag: &'a str) -> Candidates<'a>
        ensures exact { result
            ≡ candidates self.now.def self.now.forms (tag_elements (chars tag.now)) }
        ensures bounded { length result
            ≡ bound self.now.def self.now.forms (tag_elements (chars tag.now)) }
        ensures all { (form : Form) (user : List ℕ) → Contains self.now.forms form
            → some_lies self.now.def form.maps.items form.reach (tag_elements (chars tag.now)) user ≡ true → Contains result form.id }
    {
        lying_forms_are_candidates();
        self.law_of_forms();
        Candidates::of(self.walk(tag_name(), tag))
    }
}

/// The element with its count, where that is less than the count of the best so far.
fn lesser<'a>(
    best: Option<(&'a Element, usize)>,
    element: &'a Element,
    count: usize,
) -> Option<(&'a Element, usize)>
    ensures { option_map (λ p. (p.0.now, p.1)) result
        ≡ lesser (option_map (λ p. (p.0.now, p.1)) best.entry) element.now count }
{
    match best {
        Some((held, least)) => {
            if count < least {
                Some((element, count))
            } else {
                Some((held, least))
            }
        }
        None => Some((element, count)),
    }
}

fn element_of<'a>(best: Option<(&'a Element, usize)>) -> Option<&'a Element>
    ensures { option_map (λ e. e.now) result
        ≡ option_map (λ (p : Element × ℕ). p.0) (option_map (λ p. (p.0.now, p.1)) best.entry) }
{
    match best {
        Some((element, _)) => Some(element),
        None => None,
    }
}

/// The value that the resource has for the level, the empty one where it has none.
fn value_for<'a>(elements: &'a [Element], name: &str) -> &'a str
    ensures { chars result.now ≡ unwrap_or (value_at elements.now (chars name.now)) [] }
{
    match find_named(elements, name) {
        Some(element) => element.value.as_str(),
        None => "",
    }
}
