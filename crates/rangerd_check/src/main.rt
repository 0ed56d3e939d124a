// rangerd-check: every bad line of a script of `rangerd`, with its cause.
#![tactic(auto)]

use rg_ports::words_of;
use std::io::ErrorKind;
use std::process::ExitCode;

fn main(rt: HostRuntime) -> ExitCode {
    match words_of(&rt) {
        Ok(words) => rg_check::start(&rt, words.as_slice()),
        // A word that isn't UTF-8 asks for nothing.
        Err(error) if error.kind() == ErrorKind::InvalidData => rg_check::refused(),
        Err(_) => rg_check::out_of_memory(),
    }
}
