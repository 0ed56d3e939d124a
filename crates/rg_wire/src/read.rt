// Texts to records.
ghost use Rattle.std.specs.Prelude.{◌≡◌, IfOk};
ghost use Rattle.rg_json.specs.Reading.{Answers, reading};
ghost use Rattle.rg_wire.specs.Own.{IsPolicy};
ghost use Rattle.rg_wire.specs.Records.{facts_of, policy_of, request_of, role_of, service_def_of, tag_row_of, zone_of};
ghost use Rattle.rg_wire.specs.Shapes.{facts_shape, policy_shape, request_shape, role_shape, service_def_shape, tag_row_shape, zone_shape};

use crate::key::Key;
use crate::record::Record;
use crate::request::At;
use crate::wire::Wire;
use rg_base::Moment;
use rg_defs::ServiceDef;
use rg_facts::Facts;
use rg_json::{WireFault, read_as};
use rg_policy::{AccessRequest, Policy};
use rg_roles::RoleRow;
use rg_tags::TagRow;
use rg_zone_rules::ZoneRow;
use std::alloc::Global;

/// Reads a request (Ranger's RangerAccessRequest). One without a time is made at `now`.
#[tactic(auto, unfolding(crate::specs::Shapes::record_shape))]
pub fn read_request(alloc: Global, text: &[u8], now: Moment) -> Result<AccessRequest, WireFault>
    ensures { Answers result (reading request_shape (request_of now) text.now) }
{
    read_as::<AccessRequest, At, Key, Record>(alloc, &At(now), Record::Request, text)
}

/// Reads a policy (Ranger's RangerPolicy).
#[tactic(auto, unfolding(crate::specs::Shapes::record_shape))]
pub fn read_policy(alloc: Global, text: &[u8]) -> Result<Policy, WireFault>
    ensures reads { Answers result (reading policy_shape policy_of text.now) }
    ensures owned { IfOk result IsPolicy }
{
    read_as::<Policy, Wire, Key, Record>(alloc, &Wire, Record::Policy, text)
}

/// Reads a service definition (RangerServiceDef).
#[tactic(auto, unfolding(crate::specs::Shapes::record_shape))]
pub fn read_def(alloc: Global, text: &[u8]) -> Result<ServiceDef, WireFault>
    ensures { Answers result (reading service_def_shape service_def_of text.now) }
{
    read_as::<ServiceDef, Wire, Key, Record>(alloc, &Wire, Record::ServiceDef, text)
}

/// Reads facts.
#[tactic(auto, unfolding(crate::specs::Shapes::record_shape))]
pub fn read_facts(alloc: Global, text: &[u8]) -> Result<Facts, WireFault>
    ensures { Answers result (reading facts_shape facts_of text.now) }
{
    read_as::<Facts, Wire, Key, Record>(alloc, &Wire, Record::Facts, text)
}

/// Reads a role (RangerRole).
#[tactic(auto, unfolding(crate::specs::Shapes::record_shape))]
pub fn read_role(alloc: Global, text: &[u8]) -> Result<RoleRow, WireFault>
    ensures { Answers result (reading role_shape role_of text.now) }
{
    read_as::<RoleRow, Wire, Key, Record>(alloc, &Wire, Record::Role, text)
}

/// Reads a security zone (RangerSecurityZone).
#[tactic(auto, unfolding(crate::specs::Shapes::record_shape))]
pub fn read_zone(alloc: Global, text: &[u8]) -> Result<ZoneRow, WireFault>
    ensures { Answers result (reading zone_shape zone_of text.now) }
{
    read_as::<ZoneRow, Wire, Key, Record>(alloc, &Wire, Record::Zone, text)
}

/// Reads a tagged resource (RangerServiceResource with its tags).
#[tactic(auto, unfolding(crate::specs::Shapes::record_shape))]
pub fn read_tag_row(alloc: Global, text: &[u8]) -> Result<TagRow, WireFault>
    ensures { Answers result (reading tag_row_shape tag_row_of text.now) }
{
    read_as::<TagRow, Wire, Key, Record>(alloc, &Wire, Record::TagRow, text)
}
