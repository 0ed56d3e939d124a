// The matching of one resource map.
ghost use Rattle.std.specs.Prelude.{◌≡◌, ℕ, List, Option, option_map};
ghost use Rattle.std.specs.List.{list_all, list_any};
ghost use Rattle.std.specs.Str.{chars};
ghost use Rattle.rg_base.specs.Listed.{Listed};
ghost use Rattle.rg_base.specs.Texts.{is_among};
ghost use Rattle.rg_defs.specs.Rules.{tag_name};
ghost use Rattle.rg_policy.specs.declared.request.Element.{Element};
ghost use Rattle.rg_resmatch.specs.Compiled.{LevelForm, form_lies, form_meets, in_reach, names_form};
ghost use Rattle.rg_resmatch.specs.Tests.{tag_elements, value_at};

use crate::level::CompiledLevel;
use rg_base::{Named, Seq, Text, find_named, is_among, is_named, same_text};
use rg_defs::tag_name;
use rg_policy::{Element, PolicyResource};
use std::marker::Model;
use std::snapshot::Snapshot;

/// One resource map, its values read once.
pub(crate) struct CompiledMap {
    pub(crate) levels: Vec<CompiledLevel>,
    /// Where the reach is down, the names of the levels on each path on which a request may lie.
    pub(crate) paths: Option<Vec<Seq<Text>>>,
    /// The resources as they were written, which only contracts see.
    pub(crate) written: Snapshot<Seq<PolicyResource>>,
}

impl Drop for CompiledMap {
    fn drop(self) {
        let Self {
            levels: _,
            paths: _,
            written: _,
        } = self;
    }
}

impl Model for CompiledMap {
    ghost use Rattle.std.specs.Prelude.{option_map, Vec, List, ℕ};
    ghost use Rattle.rg_base.specs.Listed.{Listed};
    ghost use Rattle.rg_resmatch.specs.Compiled.{MapForm};

    ghost Value = { MapForm };

    ghost view = { λ m. record {
      levels = m.levels.items;
      paths = option_map (λ v. v.items) m.paths;
      written = m.written.value;
    } };
}

/// The value that the request has for this level.
fn value_at<'a>(elements: &'a [Element], name: &str) -> Option<&'a str>
    ensures { option_map (λ v. chars v.now) result ≡ value_at elements.now (chars name.now) }
{
    match find_named(elements, name) {
        Some(element) => Some(element.value.as_str()),
        None => None,
    }
}

fn all_met(levels: &[CompiledLevel], elements: &[Element], user: &str) -> bool
    ensures { result ≡ list_all (λ (l : LevelForm).
        form_meets (chars user.now) l (value_at elements.now l.name)) levels.now }
{
    levels.iter().all(|level| level.meets(value_at(elements, level.name()), user))
}

fn all_named(levels: &[CompiledLevel], elements: &[Element]) -> bool
    ensures { result ≡ list_all (λ (e : Element). names_form levels.now e.level) elements.now }
{
    elements
        .iter()
        .all(|element| is_named(levels, element.level.as_str()))
}

fn lie_on(path: &[Text], elements: &[Element]) -> bool
    ensures { result ≡ list_all (λ (e : Element). is_among e.level path.now) elements.now }
{
    elements
        .iter()
        .all(|element| is_among(element.level.as_str(), path))
}

fn on_some_path(paths: &[Seq<Text>], elements: &[Element]) -> bool
    ensures { result ≡ list_any (λ (names : Listed (List ℕ)). list_all
        (λ (e : Element). is_among e.level names.items) elements.now) paths.now }
{
    paths.iter().any(|path| lie_on(path.as_slice(), elements))
}

fn tag_value<'a>(name: &str, tag: &'a str) -> Option<&'a str>
    ensures { option_map (λ v. chars v.now) result
        ≡ value_at (tag_elements (chars tag.now)) (chars name.now) }
{
    if same_text(tag_name(), name) {
        Some(tag)
    } else {
        None
    }
}

fn all_met_by_tag(levels: &[CompiledLevel], tag: &str, user: &str) -> bool
    ensures { result ≡ list_all (λ (l : LevelForm). form_meets
        (chars user.now) l (value_at (tag_elements (chars tag.now)) l.name)) levels.now }
{
    levels
        .iter()
        .all(|level| level.meets(tag_value(level.name(), tag), user))
}

fn has_tag(paths: &[Seq<Text>]) -> bool
    ensures { result
        ≡ list_any (λ (names : Listed (List ℕ)). is_among tag_name names.items) paths.now }
{
    paths
        .iter()
        .any(|path| is_among(tag_name(), path.as_slice()))
}

impl CompiledMap {
    fn reaches(&self, elements: &[Element]) -> bool
        ensures { result ≡ in_reach self.now.levels elements.now self.now.paths }
    {
        match &self.paths {
            Some(paths) => on_some_path(paths, elements),
            None => all_named(&self.levels, elements),
        }
    }

    /// Whether the map lies on the resource with these elements.
    pub(crate) fn lies(&self, elements: &[Element], user: &str) -> bool
        ensures { result ≡ form_lies self.now elements.now (chars user.now) }
    {
        match elements {
            [] => false,
            _ => all_met(&self.levels, elements, user) && self.reaches(elements),
        }
    }

    fn reaches_tag(&self, _tag: &str) -> bool
        ensures { result ≡ in_reach self.now.levels (tag_elements (chars _tag.now)) self.now.paths }
    {
        match &self.paths {
            Some(paths) => has_tag(paths),
            None => is_named(&self.levels, tag_name()),
        }
    }

    /// As `lies`, for a resource whose one element has the level `tag` and this value.
    pub(crate) fn lies_on_tag(&self, tag: &str, user: &str) -> bool
        ensures { result ≡ form_lies self.now (tag_elements (chars tag.now)) (chars user.now) }
    {
        all_met_by_tag(&self.levels, tag, user) && self.reaches_tag(tag)
    }
}
