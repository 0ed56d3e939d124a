// What a service's plugin sees.
ghost use Rattle.std.specs.Prelude.{◌≡◌, IfOk};
ghost use Rattle.std.specs.Str.{chars};
ghost use Rattle.rg_admin_laws.specs.Views.{view};
ghost use Rattle.rg_admin.specs.Held.{administration_of};

use crate::logs::ServiceLog;
use crate::served::Served;
use rg_base::NoMemory;
use rg_cmd::State;
use rg_facts::Facts;
use std::alloc::Global;

/// The facts of the service, None where there is no service of this name.
pub(crate) fn view_of(
    alloc: Global,
    state: &State,
    logs: &[ServiceLog],
    service: &str,
) -> Result<Option<Facts>, NoMemory>
    ensures { IfOk result
        (λ facts. facts ≡ view (administration_of state.now logs.now) (chars service.now)) }
{
    match Served::find(state, logs, service) {
        None => Ok(None),
        Some(served) => Ok(Some(served.facts(alloc)?)),
    }
}
