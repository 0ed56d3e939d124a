// How rows are printed.
use anyhow::{Context, Result};

/// Prints a row; an error where memory was refused for it.
pub(crate) fn print_row<R: Print>(rt: &R, name: &str, told: Option<String>) -> Result<()> {
    let told = told.context("memory was refused")?;
    println!(rt; "{name}: {}", told.as_str())?;
    Ok(())
}
