// What policies are asked, and which of them a zone chooses.
ghost use Rattle.std.specs.Prelude.{◌≡◌, option_map};
ghost use Rattle.std.specs.Str.{bytes_eq, chars};
ghost use Rattle.rg_facts.specs.Candidates.{judging_zone, zone_listing, zone_name};

use rg_base::{is_among, is_empty, same_text};
use rg_evalr::Side;
use rg_policy::{AccessRequest, Policy};
use rg_roles::Roles;
use rg_zone_rules::ZoneRow;
use std::marker::Model;

/// A request, with the roles that there are, in the zone of its resource.
#[derive(Drop)]
pub struct Setting<'a> {
    pub request: &'a AccessRequest,
    pub roles: &'a Roles,
    pub zone: Option<&'a ZoneRow>,
}

impl<'a> Model for Setting<'a> {
    ghost use Rattle.std.specs.Prelude.{option_map};
    ghost use Rattle.rg_facts.specs.Candidates.{Setting as Seen};

    ghost Value = { Seen };

    ghost view = { λ s. record {
      request = s.request.now;
      roles = s.roles.now;
      zone = option_map (λ z. z.now) s.zone;
    } };
}

/// The zone, if it lists the tag service.
fn zone_listing<'a>(service: &str, zone: Option<&'a ZoneRow>) -> Option<&'a ZoneRow>
    ensures { option_map (λ z. z.now) result
        ≡ zone_listing (chars service.now) (option_map (λ z. z.now) zone.entry) }
{
    match zone {
        Some(found) => if is_among(service, found.tag_services.as_slice()) {
            Some(found)
        } else {
            None
        },
        None => None,
    }
}

/// Whether this is the name of the zone, the empty one where there is none.
fn is_name_of(name: &str, zone: Option<&ZoneRow>) -> bool
    ensures { result ≡ bytes_eq (chars name.now) (zone_name (option_map (λ z. z.now) zone.entry)) }
{
    match zone {
        Some(found) => same_text(name, found.name.as_str()),
        None => is_empty(name),
    }
}

impl<'a> Setting<'a> {
    /// The zone whose policies judge.
    fn judging_zone(&self, side: Side, policy: &Policy) -> Option<&'a ZoneRow>
        ensures { option_map (λ z. z.now) result
            ≡ judging_zone side policy.now.service self.now.zone }
    {
        match side {
            Side::Tag => zone_listing(policy.service.as_str(), self.zone),
            Side::Resource => self.zone,
        }
    }

    /// Whether the zone chooses the policy.
    pub(crate) fn chooses(&self, side: Side, policy: &Policy) -> bool
        ensures { result ≡ bytes_eq policy.now.zone
            (zone_name (judging_zone side policy.now.service self.now.zone)) }
    {
        is_name_of(policy.zone.as_str(), self.judging_zone(side, policy))
    }
}
