// The rules that a policy passes before it is compiled.
ghost use Rattle.std.specs.Prelude.{◌≡◌};
ghost use Rattle.rg_evalr.specs.Compiling.{policy_fault};
ghost use Rattle.rg_evalr.specs.Frames.{def_of};

use crate::frame::{Frame, Side, def_of};
use rg_cond::{conditions_compile, schedules_read};
use rg_defs::{PathedDef, Paths};
use rg_items::{entries_fit, lists_fit, outcomes_fit, priority_fits, type_fits};
use rg_policy::Policy;
use rg_resmatch::{policy_levels_fit, policy_values_fit};

/// The number of the first rule of V3 to V9, V11 and V12 that fails under the frame, None where all hold. The paths are those
/// of the definition of the side.
#[tactic(auto, unfolding(crate::specs::Compiling::policy_fault))]
pub fn policy_fault(frame: &Frame, side: Side, paths: &Paths, policy: &Policy) -> Option<u8>
    requires { paths.now ≡ (def_of frame.now side).levels.items }
    ensures { result ≡ policy_fault frame.now side policy.now }
{
    let def = def_of(frame, side);
    if !type_fits(def, policy) {
        return Some(3);
    }
    if !priority_fits(policy) {
        return Some(4);
    }
    if !policy_levels_fit(&PathedDef { def, paths }, policy) {
        return Some(5);
    }
    if !policy_values_fit(def, policy) {
        return Some(6);
    }
    if !lists_fit(policy) {
        return Some(7);
    }
    if !entries_fit(def, policy) {
        return Some(8);
    }
    if !conditions_compile(def, policy) {
        return Some(9);
    }
    if !outcomes_fit(def, policy) {
        return Some(11);
    }
    if schedules_read(policy, &frame.time_zones) {
        None
    } else {
        Some(12)
    }
}
