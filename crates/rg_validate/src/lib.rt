// The rules by which a command of the administration is accepted or refused.
#![tactic(auto)]

mod commands;
mod def_index;
mod definitions;
mod existence;
mod lookups;
mod policies;
mod roles;
mod rules;
mod services;
mod tags;
mod users;
mod valid;
mod zone_apart;
mod zones;

pub use commands::{command_fault, definition_fault};
pub use definitions::definition_suits;
pub use existence::{
    definition_exists, policy_exists, role_exists, service_exists, tag_row_exists, user_exists,
    zone_exists,
};
pub use lookups::{place_of_policy, policy_at};
pub use policies::{
    has_no_twin, policy_fault, policy_name_is_new, policy_place_fits, policy_schedules_read,
    policy_subjects_fit,
};
pub use rg_zones::zones_apart_by_pairs;
pub use roles::role_is_unused;
pub use rules::{counts_of, first_fault, first_fault_counted};
pub use services::{
    keeps_definition, plugin_fits, service_is_unused, service_name_is_new, tag_service_fits,
};
pub use tags::{row_id_fits, tagged_resources_fit, tagged_service_fits};
pub use users::{time_zones_read, user_fits};
pub use valid::is_valid;
pub use zone_apart::zone_is_apart;
pub use zones::{
    zone_is_unused, zone_keeps_policies, zone_levels_suit, zone_services_fit, zone_subjects_exist,
    zone_values_suit,
};
