// rangerd: Apache Ranger's policy administration and its enforcing plugin in one program.
#![tactic(auto)]

use rg_ports::words_of;
use std::io::ErrorKind;
use std::process::ExitCode;

fn main(rt: HostRuntime) -> ExitCode {
    match words_of(&rt) {
        Ok(words) => rg_run::start(&rt, &rt, words.as_slice()),
        // A word that isn't UTF-8 asks for no command.
        Err(error) if error.kind() == ErrorKind::InvalidData => rg_run::start(&rt, &rt, &[]),
        Err(_) => rg_run::out_of_memory(),
    }
}
