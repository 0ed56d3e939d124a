// The administration as one machine: its definitions and its laws. No function here does anything when it runs.
#![tactic(auto)]

mod laws;

pub use laws::{
    accepted_commands_are_ready, created_policy_may_go, downloads_lead, ids_are_given_once,
    ids_rise, logs_follow_services, plugin_is_always_viewed, publications_stay_right,
    refusals_are_exact, states_are_kept, unchanged_from_present_versions, versions_are_few,
    versions_never_fall, views_are_sound, views_rest_on_their_own, world,
};
