// What the own plugin of an administration decides.
ghost use Rattle.std.specs.Prelude.{◌≡◌, IfOk, Some};
ghost use Rattle.rg_run_script.specs.Current.{decision_now};

use rg_admin::Admin;
use rg_base::{NoMemory, Serial};
use rg_facts::Decision;
use rg_plain_engine::Plain;
use rg_policy::AccessRequest;
use std::alloc::Global;

/// Decides the request over what the plugin sees now. Nothing is published, so the serial is 0. Want of memory is also
/// answered once `2^62` entries are counted.
pub fn decide_now(
    alloc: Global,
    admin: &Admin,
    request: &AccessRequest,
) -> Result<Decision, NoMemory>
    ensures { IfOk result (λ d. decision_now admin.now request.now ≡ Some d) }
{
    let facts = admin.own_view(alloc)?;
    let engine = Plain::build(alloc, facts)?;
    engine.decide(alloc, request, Serial(0))
}
