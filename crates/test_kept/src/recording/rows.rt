// The rows.
use crate::administration::config_of;
use crate::disk;
use crate::keepers::{copies, failing_over};
use crate::keeping::rows::{Asked, failure_row, kept_by};
use crate::recording::recorder::recorded;
use anyhow::{Result, anyhow};
use rg_base::Seq;
use rg_cmd::Config;
use rg_record_store::{FailingCall, Keeper};
use std::alloc::Global;
use std::sync::Wait;
use test_tables::{add_record, failing_keeper, keeper_of};

/// The configuration, and the bytes of each ask.
fn read(alloc: Global, asked: &Asked) -> Result<(Config, Vec<Seq<u8>>)> {
    let config = config_of(alloc, asked.config)?;
    let mut asks = Vec::new(alloc);
    for ask in asked.asks {
        add_record(&mut asks, alloc, ask.as_bytes())?;
    }
    Ok((config, asks))
}

/// Tells what is recorded over this keeper. It comes back.
fn tell_recorded<K: Keeper + Drop, R: Wait>(
    told: &mut String,
    rt: &R,
    alloc: Global,
    asked: &Asked,
    keeper: K,
) -> Result<K> {
    let (config, asks) = match read(alloc, asked) {
        Ok(read) => read,
        Err(error) => {
            drop(keeper);
            return Err(error);
        }
    };
    match recorded(told, rt, alloc, config, keeper, asks.as_slice()) {
        Ok(keeper) => Ok(keeper),
        Err(fault) => Err(anyhow!("nothing is recorded: {fault:?}")),
    }
}

/// Tells what is opened again over this keeper.
fn tell_again<K: Keeper + Drop, R: Wait>(
    told: &mut String,
    rt: &R,
    alloc: Global,
    asked: &Asked,
    keeper: K,
) -> Result<()> {
    let none = Asked {
        config: asked.config,
        asks: &[],
    };
    drop(tell_recorded(told, rt, alloc, &none, keeper)?);
    Ok(())
}

/// Runs in which this call fails, of an administration that is kept and of one that tells a recorder, and what is opened again from the
/// records of the latter.
pub(crate) fn failing_row<R: Wait>(
    rt: &R,
    alloc: Global,
    asked: &Asked,
    call: FailingCall,
) -> Result<String> {
    let mut told = failure_row(alloc, asked, call)?;
    told.push_str("; recorded: ")?;
    let keeper = tell_recorded(&mut told, rt, alloc, asked, failing_keeper(alloc, call)?)?;
    let records = copies(alloc, keeper.records())?;
    told.push_str("; again: ")?;
    tell_again(&mut told, rt, alloc, asked, keeper_of(alloc, records))?;
    Ok(told)
}

/// What is opened again from the records of all asks, where this call fails.
pub(crate) fn again_row<R: Wait>(
    rt: &R,
    alloc: Global,
    asked: &Asked,
    call: FailingCall,
) -> Result<String> {
    let number = call.number;
    let mut told = format!(in alloc; "again, where call {number} fails: ")?;
    let kept = kept_by(alloc, asked)?;
    let keeper = failing_over(alloc, copies(alloc, kept.records())?, call)?;
    tell_again(&mut told, rt, alloc, asked, keeper)?;
    Ok(told)
}

/// Some of the asks over the small file, which is closed then.
pub(crate) fn file_row<R: Wait>(host: &HostRuntime, rt: &R, asked: &Asked) -> Result<String> {
    let alloc = host.alloc();
    let mut told = String::from_str(alloc, "a file: ")?;
    let keeper = tell_recorded(&mut told, rt, alloc, asked, disk::small_file(host)?)?;
    keeper.into_connection().close()?;
    Ok(told)
}
