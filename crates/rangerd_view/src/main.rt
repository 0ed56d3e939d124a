// rangerd-view: what the plugin of a service sees, asked of a running administration and printed as a script of facts.
#![tactic(auto)]

use rg_ports::words_of;
use std::io::ErrorKind;
use std::process::ExitCode;

fn main(rt: HostRuntime) -> ExitCode {
    match words_of(&rt) {
        Ok(words) => rg_view::start(&rt, words.as_slice()),
        Err(error) if error.kind() == ErrorKind::InvalidData => rg_view::refused(),
        Err(_) => rg_view::out_of_memory(),
    }
}
