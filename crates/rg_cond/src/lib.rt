// Conditions of policies and items, and the spans of validity schedules.
#![tactic(auto)]

mod clocks;
mod conditions;
mod dates;
mod digits;
mod faults;
mod kinds;
mod laws;
mod policy_rules;
mod rules;
mod spans;
mod zones;

pub use conditions::{Condition, compile_condition, condition_fault};
pub use faults::{CondFault, ScheduleFault, TimeZoneFault};
pub use laws::clock_agrees_with_jiff;
pub use policy_rules::{conditions_compile, schedules_read};
pub use rules::Rule;
pub use spans::{Schedule, Span, schedule_fault};
pub use zones::TimeZones;
