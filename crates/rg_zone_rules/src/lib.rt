// The records of security zones, and their rules one by one. Its definitions say in which zone a resource lies, and which zones overlap.
#![tactic(auto)]

mod row;
mod rules;

pub use row::{Subjects, ZoneLevel, ZoneRow, ZoneService};
pub use rules::{
    all_maps_fit, entry_levels_fit, entry_values_fit, is_for, listing_fits, lists_each_once,
    lists_service, maps_fit, policy_zone_fits, services_fit, subjects_exist, tag_policy_zone_fits,
    zone_levels_fit, zone_values_fit,
};
