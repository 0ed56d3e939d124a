// Which policies the zone chooses.
ghost use Rattle.std.specs.Prelude.{◌≡◌, option_map};
ghost use Rattle.std.specs.Str.{bytes_eq};
ghost use Rattle.rg_facts.specs.Candidates.{judging_zone, zone_name};

use rg_base::{is_among, is_empty, same_text};
use rg_evalr::Side;
use rg_policy::Policy;
use rg_zone_rules::ZoneRow;

/// Whether the policy is one of the judging zone, or has no zone where there is none.
pub(crate) fn is_chosen(zone: Option<&ZoneRow>, side: Side, policy: &Policy) -> bool
    ensures { let judging = judging_zone side policy.now.service
        (option_map (λ z. z.now) zone.entry) in
        result ≡ bytes_eq policy.now.zone (zone_name judging) }
{
    let name = policy.zone.as_str();
    let Some(zone) = zone else {
        return is_empty(name);
    };
    match side {
        Side::Resource => same_text(name, zone.name.as_str()),
        Side::Tag => if is_among(policy.service.as_str(), zone.tag_services.as_slice()) {
            same_text(name, zone.name.as_str())
        } else {
            is_empty(name)
        },
    }
}
