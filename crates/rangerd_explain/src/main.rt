// rangerd-explain: for each decision of a script of `rangerd replay` why it is as it is.
#![tactic(auto)]

use rg_ports::words_of;
use std::io::ErrorKind;
use std::process::ExitCode;

fn main(rt: HostRuntime) -> ExitCode {
    match words_of(&rt) {
        Ok(words) => rg_explain_script::start(&rt, &rt, words.as_slice()),
        // A word that isn't UTF-8 asks for nothing.
        Err(error) if error.kind() == ErrorKind::InvalidData => rg_explain_script::refused(),
        Err(_) => rg_explain_script::out_of_memory(),
    }
}
