// rangerd-kept: Apache Ranger's policy administration and its enforcing plugin, with each change kept in a file.
#![tactic(auto)]

use rg_ports::words_of;
use std::io::ErrorKind;
use std::process::ExitCode;

fn main(rt: HostRuntime) -> ExitCode {
    match words_of(&rt) {
        Ok(words) => rg_run_kept::start(&rt, &rt, words.as_slice()),
        Err(error) if error.kind() == ErrorKind::InvalidData => rg_run_kept::refused(),
        Err(_) => rg_run_kept::out_of_memory(),
    }
}
