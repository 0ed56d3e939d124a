// Services whose passes decide after refreshes, also on threads of their own, and what their end tells.
mod closing;
mod following;
mod learning;

use crate::printing::print_row;
use anyhow::Result;
use std::alloc::Global;
use std::sync::Wait;
use std::thread::Threads;

/// Prints the table.
pub(crate) fn print<R: Print + Threads + Wait>(rt: &R, alloc: Global, config: &str) -> Result<()> {
    print_row(rt, "learnt", learning::learnt(rt, alloc, config))?;
    print_row(rt, "one verdict", learning::entered(rt, alloc, config))?;
    print_row(
        rt,
        "now and then",
        following::now_and_then(rt, alloc, config),
    )?;
    print_row(
        rt,
        "another publisher's pass",
        closing::ahead(rt, alloc, config),
    )?;
    print_row(rt, "own passes", closing::own(rt, alloc, config))?;
    print_row(
        rt,
        "passes at 1 and 2",
        closing::one_behind(rt, alloc, config),
    )?;
    Ok(())
}
