// rangerd-test: tests of policies, by what a script of `rangerd replay` expects of its lines.
#![tactic(auto)]

use rg_ports::words_of;
use std::io::ErrorKind;
use std::process::ExitCode;

fn main(rt: HostRuntime) -> ExitCode {
    match words_of(&rt) {
        Ok(words) => rg_test_script::start(&rt, &rt, words.as_slice()),
        // A word that isn't UTF-8 asks for no form.
        Err(error) if error.kind() == ErrorKind::InvalidData => rg_test_script::refused(),
        Err(_) => rg_test_script::out_of_memory(),
    }
}
