// The texts of a decision.
ghost use Rattle.std.specs.Prelude.{◌≡◌, IfOk, [], map, option_and_then, option_map, unwrap_or};
ghost use Rattle.rg_defs.specs.PathTests.{path_for};
ghost use Rattle.rg_policy.specs.declared.request.Element.{Element};
ghost use Rattle.rg_facts.specs.Choices.{filter_of};
ghost use Rattle.rg_facts.specs.Texts.{column_of, decision_of, def_on, mask_text, path_text, published};

use crate::choice::Choice;
use crate::decision::{Decision, MaskText};
use crate::facts::Facts;
use crate::masks::masked;
use crate::outcome::Outcome;
use crate::paths::{deepest, joined};
use rg_base::{NoMemory, Serial, Text, TryCopy, Version};
use rg_defs::{Paths, ServiceDef};
use rg_evalr::Side;
use rg_policy::{AccessRequest, Element};
use std::alloc::Global;
use std::marker::Model;

/// What is published with a decision: the definitions, the paths of the service's, the versions and the serial.
#[derive(Drop)]
pub struct Published<'a> {
    pub def: &'a ServiceDef,
    pub tag_def: Option<&'a ServiceDef>,
    pub paths: &'a Paths,
    pub serial: Serial,
    pub policy_version: Version,
    pub tag_version: Version,
    pub role_version: Version,
}

impl<'a> Model for Published<'a> {
    ghost use Rattle.std.specs.Prelude.{◌≡◌, option_map};
    ghost use Rattle.rg_facts.specs.Texts.{Published as Seen};

    ghost Value = { Seen };

    ghost view = { λ p. record {
      def = p.def.now;
      tag_def = option_map (λ d. d.now) p.tag_def;
      serial = p.serial;
      policy_version = p.policy_version;
      tag_version = p.tag_version;
      role_version = p.role_version;
    } };

    ghost invariant = { λ p. p.paths.now ≡ p.def.now.levels.items };
}

fn filter_text(alloc: Global, choice: &Option<Choice>) -> Result<Option<Text>, NoMemory>
    ensures { IfOk result (λ text. text ≡ option_and_then filter_of choice.now) }
{
    let Some(choice) = choice else {
        return Ok(None);
    };
    match choice.filter() {
        Some(filter) => Ok(Some(filter.try_copy(alloc)?)),
        None => Ok(None),
    }
}

impl<'a> Published<'a> {
    /// What these facts publish under a serial. The paths are those of their definition.
    pub fn of(facts: &'a Facts, paths: &'a Paths, serial: Serial) -> Published<'a>
        requires { paths.now ≡ facts.now.def.levels.items }
        ensures { result ≡ published facts.now serial }
    {
        Published {
            def: &facts.def,
            tag_def: facts.tag_def.as_ref(),
            paths,
            serial,
            policy_version: facts.policy_version,
            tag_version: facts.tag_version,
            role_version: facts.role_version,
        }
    }

    /// The definition of the policies of a side.
    fn def_on(&self, side: Side) -> &'a ServiceDef
        ensures { result.now ≡ def_on self.now side }
    {
        match side {
            Side::Resource => self.def,
            Side::Tag => match self.tag_def {
                Some(def) => def,
                None => self.def,
            },
        }
    }

    /// The first path on which the levels of all elements lie.
    fn path_for(&self, elements: &[Element]) -> Option<&'a [u32]>
        ensures { option_map (λ p. p.now) result
            ≡ path_for self.now.def.levels.items (map (λ (e : Element). e.level) elements.now) }
    {
        self.paths.path_for(elements)
    }

    fn column<'e>(&self, elements: &'e [Element]) -> Option<&'e Text>
        ensures { unwrap_or (option_map (λ t. t.now) result) []
            ≡ column_of self.now.def elements.now }
    {
        deepest(
            self.def.levels.as_slice(),
            elements,
            self.path_for(elements),
        )
    }

    fn mask_text(
        &self,
        alloc: Global,
        elements: &[Element],
        choice: &Option<Choice>,
    ) -> Result<Option<MaskText>, NoMemory>
        ensures { IfOk result
            (λ text. text ≡ option_and_then (mask_text self.now elements.now) choice.now) }
    {
        let Some(choice) = choice else {
            return Ok(None);
        };
        let column = self.column(elements);
        match choice.mask() {
            Some(mask) => Ok(Some(masked(alloc, self.def_on(choice.side), column, mask)?)),
            None => Ok(None),
        }
    }

    fn path_text(&self, alloc: Global, elements: &[Element]) -> Result<Text, NoMemory>
        ensures { IfOk result (λ t. t ≡ path_text self.now.def elements.now) }
    {
        let path = self.path_for(elements);
        joined(alloc, self.def.levels.as_slice(), elements, path)
    }
}

impl<'a> Outcome<'a> {
    /// The outcome with its texts. It takes memory for these alone.
    pub fn decision(
        &self,
        alloc: Global,
        published: &Published,
        request: &AccessRequest,
    ) -> Result<Decision, NoMemory>
        ensures { IfOk result (λ d. d ≡ decision_of published.now request.now self.now) }
    {
        let verdict = self.verdict();
        let elements = request.resource.elements.as_slice();
        let filter = filter_text(alloc, &self.filter)?;
        let mask = published.mask_text(alloc, elements, &self.mask)?;
        let path = published.path_text(alloc, elements)?;
        Ok(Decision {
            access: verdict.access,
            policy: verdict.policy,
            audited: verdict.audited,
            filter,
            mask,
            serial: published.serial,
            policy_version: published.policy_version,
            tag_version: published.tag_version,
            role_version: published.role_version,
            path,
        })
    }
}
