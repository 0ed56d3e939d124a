// The words that say how much is done, and the error of every work.
use anyhow::{Context, Error, Result, anyhow};

/// The number at this place; `missing` says that there is none.
pub(crate) fn number(words: &[String], place: usize, missing: &'static str) -> Result<u32> {
    let word = words.get(place).context(missing)?;
    Ok(word.as_str().parse()?)
}

/// Want of memory.
pub(crate) fn refused() -> Error {
    anyhow!("memory was refused")
}
