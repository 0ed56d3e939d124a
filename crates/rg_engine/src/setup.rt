// What a service has beside its policies and tag rows.
ghost use Rattle.std.specs.Prelude.{◌≡◌, IfOk, None, OnOk, option_map, true};
ghost use Rattle.rg_defs.specs.Rules.{def_fault};
ghost use Rattle.rg_zone_rules.specs.Rules.{all_maps_fit};
ghost use Rattle.rg_delta.specs.Applied.{unless_new};
ghost use Rattle.rg_facts.specs.Candidates.{frame_of, setting_of, zone_at};

use rg_base::{NoMemory, Seq, Serial, TryCopy, Version};
use rg_defs::Paths;
use rg_evalr::Frame;
use rg_facts::{Facts, Published, Setting, frame_of};
use rg_policy::AccessRequest;
use rg_roles::{RoleRow, Roles};
use rg_zone_rules::ZoneRow;
use rg_zones::ZoneMap;
use std::alloc::Global;
use std::marker::Model;

/// The versions of the three parts of facts.
#[derive(Clone, Copy, Debug, PartialEq, Eq)]
pub(crate) struct Versions {
    pub policies: Version,
    pub tags: Version,
    pub roles: Version,
}

impl Versions {
    pub(crate) fn of(facts: &Facts) -> Versions
        ensures { result ≡ record {
          policies = facts.now.policy_version;
          tags = facts.now.tag_version;
          roles = facts.now.role_version;
        } }
    {
        Versions {
            policies: facts.policy_version,
            tags: facts.tag_version,
            roles: facts.role_version,
        }
    }
}

/// The definitions, zones and roles of a service, each made ready to be asked. Contracts see the facts that it was built
/// of, whose lists of policies and tag rows, and whose versions, don't matter.
pub(crate) struct Setup {
    facts: Facts,
    frame: Frame,
    roles: Roles,
    zones: ZoneMap,
    paths: Paths,
}

impl Drop for Setup {
    fn drop(self) {
        let Self {
            facts: _,
            frame: _,
            roles: _,
            zones: _,
            paths: _,
        } = self;
    }
}

impl Model for Setup {
    ghost use Rattle.std.specs.Prelude.{◌≡◌};
    ghost use Rattle.rg_facts.specs.Candidates.{frame_of};
    ghost use Rattle.rg_facts.specs.declared.facts.Facts.{Facts};

    ghost Value = { Facts };

    ghost view = { λ s. s.facts };

    ghost invariant = { λ s. (s.frame ≡ frame_of s.facts)
        × (s.roles ≡ s.facts.roles.items)
        × (s.zones ≡ record { zones = s.facts.zones.items; service = s.facts.service; def = s.facts.def })
        × (s.paths ≡ s.facts.def.levels.items) };
}

/// The roles of sound facts.
fn roles_of(alloc: Global, rows: &[RoleRow]) -> Result<Roles, NoMemory>
    ensures { IfOk result (λ roles. roles ≡ rows.now) }
{
    match Roles::build(alloc, rows) {
        Ok(roles) => Ok(roles),
        Err(_) => Err(NoMemory),
    }
}

/// The zones of sound facts.
fn zones_of(alloc: Global, facts: &Facts) -> Result<ZoneMap, NoMemory>
    requires lawful { def_fault facts.now.def ≡ None }
    requires zones { all_maps_fit facts.now.service facts.now.def facts.now.zones.items ≡ true }
    ensures { IfOk result (λ m. m ≡ record {
      zones = facts.now.zones.items;
      service = facts.now.service;
      def = facts.now.def;
    }) }
{
    let map = ZoneMap::build(
        alloc,
        facts.zones.as_slice(),
        facts.service.as_str(),
        &facts.def,
    )?;
    Ok(map)
}

/// The new list, where there is one.
fn take_new<X: TryCopy + Drop>(
    alloc: Global,
    list: &mut Seq<X>,
    new: &Option<Seq<X>>,
) -> Result<(), NoMemory>
    ensures { OnOk result (list.new ≡ unless_new list.old new.now) }
{
    match new {
        Some(new) => {
            *list = new.try_copy(alloc)?;
        }
        None => {}
    }
    Ok(())
}

impl Setup {
    /// The setup of these facts, with their frame.
    pub(crate) fn build(alloc: Global, frame: Frame, facts: Facts) -> Result<Setup, NoMemory>
        requires frame { frame ≡ frame_of facts }
        requires lawful { def_fault facts.def ≡ None }
        requires zones { all_maps_fit facts.service facts.def facts.zones.items ≡ true }
        ensures { IfOk result (λ s. s ≡ facts) }
    {
        let roles = roles_of(alloc, facts.roles.as_slice())?;
        let zones = zones_of(alloc, &facts)?;
        let paths = Paths::of(alloc, &facts.def)?;
        Ok(Setup {
            facts,
            frame,
            roles,
            zones,
            paths,
        })
    }

    /// The setup with new zones and roles, where there are some.
    pub(crate) fn renewed(
        &self,
        alloc: Global,
        zones: &Option<Seq<ZoneRow>>,
        roles: &Option<Seq<RoleRow>>,
    ) -> Result<Setup, NoMemory>
        requires lawful { def_fault self.now.def ≡ None }
        requires zones { all_maps_fit self.now.service self.now.def
            (unless_new self.now.zones zones.now).items ≡ true }
        ensures { IfOk result (λ s. s ≡ record self.now {
          zones = unless_new
              self.now.zones zones.now;
          roles = unless_new self.now.roles roles.now;
        }) }
    {
        let mut facts = self.facts.try_copy(alloc)?;
        take_new(alloc, &mut facts.zones, zones)?;
        take_new(alloc, &mut facts.roles, roles)?;
        let frame = frame_of(alloc, &facts)?;
        Setup::build(alloc, frame, facts)
    }

    /// What the policies are read under.
    pub(crate) fn frame(&self) -> &Frame
        ensures { result.now ≡ frame_of self.now }
    {
        &self.frame
    }

    /// A copy of the facts.
    pub(crate) fn copy(&self, alloc: Global) -> Result<Facts, NoMemory>
        ensures { IfOk result (λ facts. facts ≡ self.now) }
    {
        self.facts.try_copy(alloc)
    }

    /// Whether a request that no policy decides is left undetermined.
    pub(crate) fn fallback(&self) -> bool
        ensures { result ≡ self.now.fallback }
    {
        self.facts.fallback
    }

    /// The zone in which the request's resource lies.
    fn zone_at(&self, request: &AccessRequest) -> Option<&ZoneRow>
        ensures { option_map (λ z. z.now) result ≡ zone_at self.now request.now }
    {
        let place = self.zones.zone_of(&request.resource)?;
        self.facts.zones.as_slice().get(place as usize)
    }

    /// The request, with the roles that there are, in the zone of its resource.
    pub(crate) fn setting<'a>(&'a self, request: &'a AccessRequest) -> Setting<'a>
        ensures { result ≡ setting_of self.now request.now }
    {
        Setting {
            request,
            roles: &self.roles,
            zone: self.zone_at(request),
        }
    }

    /// What is published of it with these versions.
    pub(crate) fn published(&self, versions: Versions, serial: Serial) -> Published<'_>
        ensures { result ≡ record {
          def = self.now.def;
          tag_def = self.now.tag_def;
          serial = serial;
          policy_version = versions.policies;
          tag_version = versions.tags;
          role_version = versions.roles;
        } }
    {
        Published {
            def: &self.facts.def,
            tag_def: self.facts.tag_def.as_ref(),
            paths: &self.paths,
            serial,
            policy_version: versions.policies,
            tag_version: versions.tags,
            role_version: versions.roles,
        }
    }
}
