// The explainer of the requests of one service.
ghost use Rattle.std.specs.Prelude.{◌≡◌, ◌++◌, IfOk, List, flat_map, option_map, true};
ghost use Rattle.rg_base.specs.Listed.{listed};
ghost use Rattle.rg_tags.specs.declared.row.TagRow.{TagRow};
ghost use Rattle.rg_facts.specs.Candidates.{resource_candidates, tag_candidates, zone_at};
ghost use Rattle.rg_facts.specs.Sound.{sound};
ghost use Rattle.rg_explain.specs.Explaining.{explanation, told_all};
ghost use Rattle.rg_explain.specs.Parts.{access_asked, resource_asked, setting_with, tag_asked};
ghost use Rattle.rg_resmatch.specs.Tests.{tag_elements};

use crate::cells::first_filled;
use crate::explanation::{Explanation, Told};
use crate::parts::{
    roles_holding, roles_of, rows_lying, rows_told, tag_access, tag_def_of, tag_elements, zones_of,
};
use crate::telling::with_policies;
use crate::zoning::in_zone;
use rg_base::{NoMemory, Seq, Serial, Text};
use rg_defs::Paths;
use rg_evalr::{Frame, Side};
use rg_facts::{Facts, frame_of};
use rg_plain_engine::Plain;
use rg_policy::{AccessRequest, Element, Tag};
use rg_roles::Roles;
use rg_standing::Question;
use rg_tags::TagRow;
use rg_zone_rules::ZoneRow;
use rg_zones::ZoneMap;
use std::alloc::Global;
use std::marker::Model;

/// Explains requests over sound facts. Contracts see its facts.
pub struct Explainer {
    engine: Plain,
    frame: Frame,
    roles: Roles,
    zones: ZoneMap,
    paths: Paths,
    tag_paths: Paths,
}

impl Drop for Explainer {
    fn drop(self) {
        let Self {
            engine: _,
            frame: _,
            roles: _,
            zones: _,
            paths: _,
            tag_paths: _,
        } = self;
    }
}

impl Model for Explainer {
    ghost use Rattle.std.specs.Prelude.{◌≡◌};
    ghost use Rattle.rg_evalr.specs.Frames.{def_of};
    ghost use Rattle.rg_evalr.specs.declared.frame.Side.TheVariants.{Tag as Tagged};
    ghost use Rattle.rg_facts.specs.Candidates.{frame_of};
    ghost use Rattle.rg_facts.specs.declared.facts.Facts.{Facts};

    ghost Value = { Facts };

    ghost view = { λ e. e.engine };

    ghost invariant = { λ e. (e.frame ≡ frame_of e.engine)
        × (e.roles ≡ e.engine.roles.items)
        × (e.zones ≡ record { zones = e.engine.zones.items; service = e.engine.service; def = e.engine.def })
        × (e.paths ≡ e.engine.def.levels.items)
        × (e.tag_paths ≡ (def_of (frame_of e.engine) Tagged).levels.items) };
}

impl Explainer {
    /// The explainer of these facts, which are sound.
    pub fn build(alloc: Global, facts: Facts) -> Result<Explainer, NoMemory>
        requires { sound facts ≡ true }
        ensures { IfOk result (λ e. e ≡ facts) }
    {
        let frame = frame_of(alloc, &facts)?;
        let roles = roles_of(alloc, facts.roles.as_slice())?;
        let zones = zones_of(alloc, &facts)?;
        let paths = Paths::of(alloc, &facts.def)?;
        let tag_paths = Paths::of(alloc, tag_def_of(&facts))?;
        let engine = Plain::build(alloc, facts)?;
        Ok(Explainer {
            engine,
            frame,
            roles,
            zones,
            paths,
            tag_paths,
        })
    }

    /// The zone in which the request's resource lies.
    fn zone_at(&self, request: &AccessRequest) -> Option<&ZoneRow>
        ensures { option_map (λ z. z.now) result ≡ zone_at self.now request.now }
    {
        let place = self.zones.zone_of(&request.resource)?;
        self.engine.facts().zones.as_slice().get(place as usize)
    }

    /// What the resource policies are asked.
    fn resource_question<'q>(&'q self, request: &'q AccessRequest) -> Question<'q>
        ensures { result ≡ resource_asked self.now request.now }
    {
        Question {
            frame: &self.frame,
            side: Side::Resource,
            request,
            roles: &self.roles,
            tag: None,
            paths: &self.paths,
            elements: request.resource.elements.as_slice(),
            access: request.access.as_str(),
        }
    }

    /// What the tag policies are asked for a tag, which is given as elements too. The access is the one that they are asked
    /// for.
    fn tag_question<'q>(
        &'q self,
        request: &'q AccessRequest,
        tag: &'q Tag,
        elements: &'q [Element],
        access: &'q Text,
    ) -> Question<'q>
        requires elements { elements.now ≡ tag_elements tag.now.kind }
        requires access { access.now ≡ access_asked self.now request.now }
        ensures { result ≡ tag_asked self.now request.now tag.now }
    {
        Question {
            frame: &self.frame,
            side: Side::Tag,
            request,
            roles: &self.roles,
            tag: Some(tag),
            paths: &self.tag_paths,
            elements,
            access: access.as_str(),
        }
    }

    /// The list with what is told of the resource policies behind it.
    fn with_resource_policies(
        &self,
        alloc: Global,
        request: &AccessRequest,
        zone: Option<&ZoneRow>,
        list: Seq<Told>,
    ) -> Result<Seq<Told>, NoMemory>
        requires { list ≡ listed list.items }
        ensures { let s = setting_with self.now request.now (option_map (λ z. z.now) zone.entry) in
            let told = told_all s (resource_candidates self.now) in
            IfOk result (λ longer. longer ≡ listed (list.items ++ told)) }
    {
        let question = self.resource_question(request);
        let policies = self.engine.facts().policies.as_slice();
        with_policies(alloc, &question, zone, list, policies)
    }

    /// The list with what is told of the tag policies for the tag behind it. The access is the one that they are asked for.
    fn with_tag(
        &self,
        alloc: Global,
        request: &AccessRequest,
        zone: Option<&ZoneRow>,
        access: &Text,
        list: Seq<Told>,
        tag: &Tag,
    ) -> Result<Seq<Told>, NoMemory>
        requires list { list ≡ listed list.items }
        requires access { access.now ≡ access_asked self.now request.now }
        ensures { let s = setting_with self.now request.now (option_map (λ z. z.now) zone.entry) in
            let told = told_all s (tag_candidates self.now tag.now) in
            IfOk result (λ longer. longer ≡ listed (list.items ++ told)) }
    {
        let elements = tag_elements(alloc, tag)?;
        let question = self.tag_question(request, tag, elements.as_slice(), access);
        let policies = self.engine.facts().tag_policies.as_slice();
        with_policies(alloc, &question, zone, list, policies)
    }

    /// The list with what is told of the tag policies for each of these tags behind it.
    fn with_tags(
        &self,
        alloc: Global,
        request: &AccessRequest,
        zone: Option<&ZoneRow>,
        access: &Text,
        mut list: Seq<Told>,
        tags: &[Tag],
    ) -> Result<Seq<Told>, NoMemory>
        requires list { list ≡ listed list.items }
        requires access { access.now ≡ access_asked self.now request.now }
        ensures { let s = setting_with self.now request.now (option_map (λ z. z.now) zone.entry) in
            let told = told_all s (flat_map (tag_candidates self.now) tags.now) in
            IfOk result (λ longer. longer ≡ listed (list.items ++ told)) }
    {
        for tag in tags {
            list = self.with_tag(alloc, request, zone, access, list, tag)?;
        }
        Ok(list)
    }

    /// What is told of the tag policies for each tag of these rows.
    fn tag_policies(
        &self,
        alloc: Global,
        request: &AccessRequest,
        zone: Option<&ZoneRow>,
        rows: &[TagRow],
    ) -> Result<Seq<Told>, NoMemory>
        ensures { let s = setting_with self.now request.now (option_map (λ z. z.now) zone.entry) in
            let tags = flat_map (λ (row : TagRow). row.tags.items) rows.now in
            IfOk result (λ list. list ≡ listed (told_all s (flat_map (tag_candidates self.now) tags))) }
    {
        let component = &self.engine.facts().def.name;
        let access = tag_access(alloc, component, &request.access)?;
        let mut list = Seq::new(alloc);
        for row in rows {
            list = self.with_tags(alloc, request, zone, &access, list, row.tags.as_slice())?;
        }
        Ok(list)
    }

    /// Why the request is decided as it is, published under this serial. It goes over the facts once, and takes memory for
    /// what it tells and for the part that it looks at.
    pub fn explain(
        &self,
        alloc: Global,
        request: &AccessRequest,
        serial: Serial,
    ) -> Result<Explanation, NoMemory>
        ensures { IfOk result (λ e. e ≡ explanation self.now request.now serial) }
    {
        let facts = self.engine.facts();
        let zone = self.zone_at(request);
        let rows = rows_lying(alloc, facts, &self.paths, request)?;
        let policies = self.tag_policies(alloc, request, zone, rows.as_slice())?;
        let policies = self.with_resource_policies(alloc, request, zone, policies)?;
        Ok(Explanation {
            zone: in_zone(alloc, facts, &self.paths, request, zone)?,
            roles: roles_holding(alloc, &self.roles, facts.roles.as_slice(), request)?,
            rows: rows_told(alloc, rows.as_slice())?,
            cell: first_filled(policies.as_slice()),
            policies,
            verdict: self.engine.scan(request),
            decision: self.engine.decide(alloc, request, serial)?,
        })
    }
}
