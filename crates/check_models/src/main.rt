// What the libraries answer beside what was worked out from the rules: commands that read or don't, engines and views over what is
// made up, and tables of single facts. Each part stands under a heading.
#![tactic(auto)]

mod commands;
mod deltas;
mod draws;
mod engines;
mod lists;
mod reading;
mod rows;
mod views;

use anyhow::Result;

fn main(rt: HostRuntime) -> Result<()> {
    let alloc = rt.alloc();
    println!(rt; "# commands")?;
    commands::print(&rt, alloc)?;
    println!(rt; "# engines")?;
    engines::print(&rt, alloc)?;
    println!(rt; "# views")?;
    views::print(&rt, alloc)?;
    rows::print(&rt, alloc)
}
