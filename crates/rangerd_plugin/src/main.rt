// rangerd-plugin: decides by what it downloads of a running administration, also while that is away.
#![tactic(auto)]

use rg_ports::words_of;
use std::io::ErrorKind;
use std::process::ExitCode;

fn main(rt: HostRuntime) -> ExitCode {
    match words_of(&rt) {
        Ok(words) => rg_run_plugin::start(&rt, &rt, words.as_slice()),
        Err(error) if error.kind() == ErrorKind::InvalidData => rg_run_plugin::refused(),
        Err(_) => rg_run_plugin::out_of_memory(),
    }
}
