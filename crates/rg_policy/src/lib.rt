// The records of policies, requests and what they rest on, after Ranger's policy model.
#![tactic(auto)]

mod kinds;
mod maps;
mod policy;
mod request;
mod tags;

pub use kinds::{ACCESS_POLICY, FILTER_POLICY, MASK_POLICY, NORMAL, OVERRIDE, item_lists};
pub use maps::maps_of;
pub use policy::{
    AccessEntry, Item, MaskInfo, Policy, PolicyCondition, PolicyResource, ResourceMap,
    ScheduleText, TimeZoneRow,
};
pub use request::{AccessRequest, Element, Resource};
pub use rg_base::Pair;
pub use tags::Tag;
