// Made-up asks of an administration. After each, a view that is moved by the deltas of a download is compared with the view
// anew. Printed are how many asks were accepted, how many views were moved, how many came whole, and how many agreed.
mod asks;
mod deltas;
mod following;

use anyhow::{Result, anyhow};
use following::{Counts, follow, follow_if, view};
use rg_admin::Admin;
use rg_facts::Facts;
use std::alloc::Global;

/// How many commands are made up.
const ASKS: u64 = 2000;

/// One view is moved after each ask, one after each fiftieth, and one of the tag service after each seventh.
#[derive(Drop)]
struct Followed {
    often: Facts,
    seldom: Facts,
    tags: Facts,
}

/// The views as the administration starts.
fn views_at_start(alloc: Global, admin: &Admin) -> Option<Followed> {
    let often = view(alloc, admin, "hive1")?;
    let seldom = view(alloc, admin, "hive1")?;
    let tags = view(alloc, admin, "tags1")?;
    Some(Followed {
        often,
        seldom,
        tags,
    })
}

/// Moves the views that are due after so many asks.
fn follow_all(
    alloc: Global,
    admin: &mut Admin,
    views: Followed,
    asks: u64,
    counts: &mut Counts,
) -> Option<Followed> {
    let Followed {
        often,
        seldom,
        tags,
    } = views;
    let often = follow(alloc, admin, often, counts)?;
    let seldom = follow_if(asks % 50 == 0, alloc, admin, seldom, counts)?;
    let tags = follow_if(asks % 7 == 0, alloc, admin, tags, counts)?;
    Some(Followed {
        often,
        seldom,
        tags,
    })
}

/// What came of all asks.
fn worked(alloc: Global) -> Option<(u64, Counts)> {
    let mut admin = asks::started(alloc)?;
    let mut views = views_at_start(alloc, &admin)?;
    let mut accepted = 0u64;
    let mut counts = Counts::new();
    for ask in 0..ASKS {
        let is_accepted = asks::ask(alloc, &mut admin, ask)?;
        accepted = accepted.saturating_add(u64::from(is_accepted));
        views = follow_all(alloc, &mut admin, views, ask, &mut counts)?;
    }
    Some((accepted, counts))
}

/// Prints what came of all asks.
pub(crate) fn print(rt: &impl Print, alloc: Global) -> Result<()> {
    let Some((accepted, counts)) = worked(alloc) else {
        return Err(anyhow!("memory was refused"));
    };
    let Counts {
        moved,
        whole,
        agreed,
    } = counts;
    println!(rt; "asks={ASKS} accepted={accepted} moved={moved} whole={whole} agreed={agreed}")?;
    Ok(())
}
