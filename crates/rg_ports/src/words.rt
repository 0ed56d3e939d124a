// The words of a command line.
use std::{env, io};

/// The words behind the program's name. With a word that isn't UTF-8 the fault is `InvalidData`.
pub fn words_of(rt: &HostRuntime) -> io::Result<Vec<String>> {
    let words = env::args(rt)?.skip(1).collect(rt.alloc())?;
    Ok(words)
}
