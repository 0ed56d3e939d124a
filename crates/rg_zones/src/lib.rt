// In which security zone a resource lies, and which zones overlap, found by an index.
#![tactic(auto)]

mod filed;
mod filing;
mod laws;
mod map;
mod meeting;
mod overlap;
mod resources;
mod zone_patterns;

pub use laws::{
    fewer_zones_stay_apart, overlap_is_decided, replaced_zone_stays_apart,
    zone_overlap_is_symmetric, zones_apart_by_pairs,
};
pub use map::ZoneMap;
pub use overlap::{entries_overlap, overlapping, overlaps_any};
pub use resources::zone_maps;
