// What the plugin of a service sees, asked and printed.
ghost use Rattle.std.specs.Prelude.{◌≡◌, IfOk, string_bytes};
ghost use Rattle.rg_view.specs.Views.{Views, script_of};

use rg_base::{NoMemory, Text};
use rg_download_wire::print_facts;
use rg_facts::Facts;
use rg_follow::begin;
use rg_ports::{Link, Sink};
use rg_remote::Remote;
use rg_run_script::{Status, write_all};
use std::alloc::Global;

// A script of these facts.
fn script_of(alloc: Global, facts: &Facts) -> Result<String, NoMemory>
    ensures { IfOk result (λ s. string_bytes s ≡ script_of facts.now) }
{
    let facts = print_facts(alloc, facts)?;
    let facts = facts.as_str();
    Ok(format!(in alloc; "facts {facts}\n")?)
}

/// Asks for what the plugin of the service sees, and writes it as a script of facts. Nothing is written where the downloads don't
/// settle or have no answer (`NetFault`), or memory is refused.
pub fn view<T: Link + Drop, K: Sink>(
    alloc: Global,
    remote: &mut Remote<T>,
    service: Text,
    sink: &mut K,
) -> Status
    ensures { Views service remote.old remote.new (K.held sink.old) (K.held sink.new) result }
{
    let facts = match begin(alloc, remote, service) {
        Ok(facts) => facts,
        Err(fault) => {
            if fault.is_short() {
                return Status::NoMemory;
            }
            return Status::NetFault;
        }
    };
    let script = match script_of(alloc, &facts) {
        Ok(script) => script,
        Err(NoMemory) => return Status::NoMemory,
    };
    match write_all(sink, script.as_bytes()) {
        Ok(()) => Status::Done,
        Err(_) => Status::WriteFault,
    }
}
