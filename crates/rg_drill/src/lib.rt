// The workload of the drill: the definition and the configuration that it starts from, its policies and its requests.
#![tactic(auto)]

mod definition;
mod draws;
mod generator;
mod word;
mod workload;

pub use definition::{drill_config, hive};
pub use generator::Generator;
