// Made-up facts and deltas. Over each of the facts a plain engine, which asks every policy, is compared with a compiled one, which was
// built over the first of a chain and is moved by the deltas to the others. Printed are how many facts and verdicts there were, how many
// verdicts agreed, and how they were spread.
mod comparing;
mod deltas;
mod texts;

use crate::draws::Draw;
use anyhow::{Result, anyhow};
use comparing::{Counts, moved, started};
use rg_base::NoMemory;
use std::alloc::Global;

/// How many chains there are.
const CHAINS: u64 = 500;

/// How many deltas a chain has.
const DELTAS: u64 = 3;

fn follow(alloc: Global, draw: Draw, counts: &mut Counts) -> Result<(), NoMemory> {
    let mut engine = started(alloc, draw, counts)?;
    for step in 0..DELTAS {
        engine = moved(alloc, &engine, draw, step.saturating_add(1), counts)?;
    }
    drop(engine);
    Ok(())
}

fn followed(alloc: Global) -> Result<Counts, NoMemory> {
    let mut counts = Counts::new();
    for chain in 0..CHAINS {
        follow(alloc, Draw::of(chain), &mut counts)?;
    }
    Ok(counts)
}

/// Prints what came of all chains.
pub(crate) fn print(rt: &impl Print, alloc: Global) -> Result<()> {
    let Ok(counts) = followed(alloc) else {
        return Err(anyhow!("memory was refused"));
    };
    let Counts {
        facts,
        verdicts,
        agreed,
        allowed,
        denied,
        undetermined,
        filtered,
        masked,
        policies,
    } = counts;
    println!(rt;
        "facts={facts} verdicts={verdicts} agreed={agreed} allowed={allowed} denied={denied} undetermined={undetermined} filtered={filtered} masked={masked} policies={policies}"
    )?;
    Ok(())
}
