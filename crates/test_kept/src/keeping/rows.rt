// The rows.
use crate::administration::{answered, reopened};
use crate::keepers::{copies, database_in_memory};
use anyhow::Result;
use rg_admin::Admin;
use rg_base::Seq;
use rg_keep::{KeptAdmin, ReopenCause};
use rg_record_store::{FailingCall, Keeper, MemKeeper};
use std::alloc::{AllocError, Global};
use test_tables::{add_record, failing_keeper, keeper_of, way_of};

/// What is asked under a configuration, in texts.
#[derive(Clone, Copy)]
pub(crate) struct Asked<'a> {
    pub(crate) config: &'a str,
    pub(crate) asks: &'a [&'a str],
}

fn tell_cause(told: &mut String, cause: ReopenCause) -> Result<(), AllocError> {
    match cause {
        ReopenCause::Rule(rule) => told.push_str(rule.name()),
        ReopenCause::BadRecord(place) => write!(told, "bad record {place}"),
        ReopenCause::Failed => told.push_str("failed"),
        ReopenCause::NoMemory => told.push_str("no memory"),
    }
}

fn tell_state(told: &mut String, admin: &Admin, kept: u64) -> Result<(), AllocError> {
    let state = admin.state();
    let policies = state.policies.len();
    let users = state.users.len();
    let next_id = state.next_id;
    write!(
        told,
        "{kept} kept, {policies} policies, {users} users, next id {next_id}"
    )
}

/// Tells what is reopened.
fn tell_reopened<P: Keeper + Drop>(
    told: &mut String,
    alloc: Global,
    config: &str,
    keeper: P,
) -> Result<()> {
    match reopened(alloc, config, keeper)? {
        Ok(admin) => tell_state(told, admin.admin(), admin.kept())?,
        Err(fault) => tell_cause(told, fault.cause)?,
    }
    Ok(())
}

/// Tells how many records there are, and what is reopened from them.
fn tell_records(
    told: &mut String,
    alloc: Global,
    config: &str,
    records: Vec<Seq<u8>>,
) -> Result<()> {
    let held = records.len();
    write!(told, "{held} records; ")?;
    tell_reopened(told, alloc, config, keeper_of(alloc, records))
}

/// Asks in turn until the keeper fails: how many were answered, and the keeper.
fn ask_all<P: Keeper + Drop>(alloc: Global, admin: KeptAdmin<P>, asks: &[&str]) -> (usize, P) {
    let mut admin = admin;
    for (place, ask) in asks.iter().enumerate() {
        match answered(alloc, admin, ask) {
            Ok(next) => admin = next,
            Err(unanswered) => return (place, unanswered.keeper),
        }
    }
    (asks.len(), admin.into_keeper())
}

/// Tells how many asks are answered over this keeper. It comes back.
fn tell_answered<P: Keeper + Drop>(
    told: &mut String,
    alloc: Global,
    asked: &Asked,
    keeper: P,
) -> Result<P> {
    match reopened(alloc, asked.config, keeper)? {
        Ok(admin) => {
            let (count, keeper) = ask_all(alloc, admin, asked.asks);
            write!(told, "{count} answered, ")?;
            Ok(keeper)
        }
        Err(fault) => {
            tell_cause(told, fault.cause)?;
            told.push_str(", ")?;
            Ok(fault.keeper)
        }
    }
}

/// A run in which this call fails.
pub(crate) fn failure_row(alloc: Global, asked: &Asked, call: FailingCall) -> Result<String> {
    let (number, way) = (call.number, way_of(call));
    let mut told = format!(in alloc; "call {number} {way} its record: ")?;
    let keeper = tell_answered(&mut told, alloc, asked, failing_keeper(alloc, call)?)?;
    let records = copies(alloc, keeper.records())?;
    tell_records(&mut told, alloc, asked.config, records)?;
    Ok(told)
}

/// The keeper after these asks.
pub(crate) fn kept_by(alloc: Global, asked: &Asked) -> Result<MemKeeper> {
    let mut untold = String::new(alloc);
    tell_answered(&mut untold, alloc, asked, keeper_of(alloc, Vec::new(alloc)))
}

/// What is reopened where the line of the ask at this place is the record behind those of the asks before it.
pub(crate) fn taken_row(alloc: Global, asked: &Asked, place: usize) -> Result<String> {
    let number = place.saturating_add(1);
    let mut told = format!(in alloc; "ask {number} as a record: ")?;
    let before = Asked {
        config: asked.config,
        asks: asked.asks.get(..place).unwrap_or(asked.asks),
    };
    let keeper = kept_by(alloc, &before)?;
    let mut records = copies(alloc, keeper.records())?;
    if let Some(ask) = asked.asks.get(place) {
        add_record(&mut records, alloc, ask.as_bytes())?;
    }
    tell_records(&mut told, alloc, asked.config, records)?;
    Ok(told)
}

/// The records, with `{}` in the place of one.
fn spoiled(alloc: Global, records: &[Seq<u8>], place: usize) -> Result<Vec<Seq<u8>>, AllocError> {
    let mut held = Vec::new(alloc);
    for (at, record) in records.iter().enumerate() {
        let bytes = if at == place {
            b"{}".as_slice()
        } else {
            record.as_slice()
        };
        add_record(&mut held, alloc, bytes)?;
    }
    Ok(held)
}

/// What is reopened from these records with `{}` in the place of one.
pub(crate) fn spoiled_row(
    alloc: Global,
    asked: &Asked,
    records: &[Seq<u8>],
    place: usize,
) -> Result<String> {
    let mut told = format!(in alloc; "{{}} in place {place}: ")?;
    let records = spoiled(alloc, records, place)?;
    tell_records(&mut told, alloc, asked.config, records)?;
    Ok(told)
}

/// A run over a database in memory.
pub(crate) fn database_row(alloc: Global, asked: &Asked) -> Result<String> {
    let mut told = String::from_str(alloc, "a database: ")?;
    let keeper = tell_answered(&mut told, alloc, asked, database_in_memory(alloc)?)?;
    tell_reopened(&mut told, alloc, asked.config, keeper)?;
    Ok(told)
}
