// From the words to what the plugin of a service sees.
ghost use Rattle.std.specs.Prelude.{◌≡◌, ◌⊎◌, None, Some, map, string_bytes};
ghost use Rattle.std.specs.Process.{exit_status};
ghost use Rattle.rg_view.specs.Ends.{IsEnd};
ghost use Rattle.rg_view.specs.Words.{Wanted, wanted_of};

use crate::viewing::view;
use crate::words::{Words, wanted_of};
use rg_base::{NoMemory, Text};
use rg_client::connect;
use rg_ports::{StdSink, TcpLink};
use rg_remote::Remote;
use rg_run_script::Status;
use std::net::TcpStream;
use std::process::ExitCode;

/// How many seconds a call of the connection waits at most.
const PATIENCE: u64 = 30;

// The administration over this connection, and the service.
fn remote_of(
    rt: &HostRuntime,
    link: TcpLink<TcpStream>,
    words: &Words,
) -> Result<(Remote<TcpLink<TcpStream>>, Text), NoMemory> {
    let alloc = rt.alloc();
    let host = Text::copy_of(alloc, words.address)?;
    let user = Text::copy_of(alloc, words.user)?;
    let asked = Text::copy_of(alloc, words.service)?;
    let service = Text::copy_of(alloc, words.service)?;
    let remote = Remote::new(alloc, link, host, user, asked)?;
    Ok((remote, service))
}

// Asks the administration, and prints what it gave.
fn show(rt: &HostRuntime, words: &Words) -> Status
    ensures { (result ≡ Status.Done) ⊎ ((result ≡ Status.WriteFault)
        ⊎ ((result ≡ Status.NetFault) ⊎ (result ≡ Status.NoMemory))) }
{
    let Ok(link) = connect(rt, words.address, PATIENCE) else {
        return Status::NetFault;
    };
    let Ok((mut remote, service)) = remote_of(rt, link, words) else {
        return Status::NoMemory;
    };
    let mut sink = StdSink::new(rt.stdout());
    view(rt.alloc(), &mut remote, service, &mut sink)
}

/// What `main` ends with where a word isn't UTF-8.
pub fn refused() -> ExitCode
    ensures { IsEnd None (exit_status result) }
{
    ExitCode::from(Status::Usage.number())
}

/// What `main` ends with where memory is refused before the words are read.
pub fn out_of_memory() -> ExitCode
    ensures { (wanted : Wanted) → IsEnd (Some wanted) (exit_status result) }
{
    ExitCode::from(Status::NoMemory.number())
}

/// Asks the administration that the words name, and writes to standard output. The answer is what `main` ends with.
pub fn start(rt: &HostRuntime, words: &[String]) -> ExitCode
    ensures { IsEnd (wanted_of (map string_bytes words.now)) (exit_status result) }
{
    let status = match wanted_of(words) {
        Some(words) => show(rt, &words),
        None => Status::Usage,
    };
    ExitCode::from(status.number())
}
