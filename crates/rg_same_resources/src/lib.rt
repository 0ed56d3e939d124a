// Policies that are for the same resources at the same time, and how many policies have each print.
#![tactic(auto)]

mod counts;
mod prints;
mod twins;

pub use counts::{PrintCounts, has_print};
pub use prints::{Prints, name_print_of, print_of, print_of_map, prints_of};
pub use twins::{is_twin, same_flag, same_levels, same_place, same_texts};
