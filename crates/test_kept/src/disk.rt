// An administration that is kept in a file.
mod commands;
mod marks;

use crate::administration::{answered, reopened};
use crate::keepers::keeper_over;
use anyhow::{Context, Error, Result, anyhow};
use commands::Command;
use marks::Marks;
use rg_admin::Admin;
use rg_keep::{KeptAdmin, ReopenFault};
use rg_record_store::{Keeper, SqlKeeper};
use sqlite::{Connection, File, FileStore};
use std::alloc::Global;
use std::fs;

/// A service with one definition, and an administrator.
const CONFIG: &str =
    r#"{"admins":["root"],"plugin":"hive1","serviceDefs":[{"name":"hive","resources":[{"name":"database","level":10}],"accessTypes":[{"name":"select"}]}],"services":[{"name":"hive1","type":"hive"}]}"#;

/// The file of a demonstration, and its log.
const FILE: &str = "small.db";

const LOG: &str = "small.db-wal";

/// The keeper of the file.
fn keeper(rt: &HostRuntime, path: &str) -> Result<SqlKeeper<FileStore<File>>> {
    let connection = Connection::open(rt, path)?;
    keeper_over(connection).context("the table isn't made")
}

/// Why nothing is reopened.
fn unopened<P: Keeper + Drop>(fault: ReopenFault<P>) -> Error {
    let cause = fault.cause;
    drop(fault);
    anyhow!("not reopened: {cause:?}")
}

/// The administration that the keeper's list makes.
fn opened<P: Keeper + Drop>(alloc: Global, keeper: P) -> Result<KeptAdmin<P>> {
    match reopened(alloc, CONFIG, keeper)? {
        Ok(admin) => Ok(admin),
        Err(fault) => Err(unopened(fault)),
    }
}

/// Has an ask answered.
fn ask<P: Keeper + Drop>(alloc: Global, admin: KeptAdmin<P>, text: &str) -> Result<KeptAdmin<P>> {
    match answered(alloc, admin, text) {
        Ok(next) => Ok(next),
        Err(unanswered) => {
            let cause = unanswered.cause;
            drop(unanswered);
            Err(anyhow!("not answered: {cause:?}: {text}"))
        }
    }
}

/// The administration, where so many commands are kept.
fn with_kept<P: Keeper + Drop>(admin: KeptAdmin<P>, number: u64) -> Result<KeptAdmin<P>> {
    if admin.kept() == number {
        return Ok(admin);
    }
    drop(admin);
    Err(anyhow!("the command {number} isn't kept"))
}

/// Asks what comes next. Its command is kept then.
fn ask_next<P: Keeper + Drop>(
    alloc: Global,
    admin: KeptAdmin<P>,
    rows: u64,
) -> Result<KeptAdmin<P>> {
    let number = admin.kept().saturating_add(1);
    match (Command { number, rows }).ask(alloc) {
        Ok(text) => with_kept(ask(alloc, admin, text.as_str())?, number),
        Err(error) => {
            drop(admin);
            Err(error.into())
        }
    }
}

/// Tells how many commands are kept.
fn tell_kept<P: Keeper + Drop>(rt: &HostRuntime, admin: KeptAdmin<P>) -> Result<KeptAdmin<P>> {
    let kept = admin.kept();
    match println!(rt; "kept {kept}") {
        Ok(()) => Ok(admin),
        Err(error) => {
            drop(admin);
            Err(error.into())
        }
    }
}

/// Asks until so many commands are kept, and tells after each answer how many are.
fn fill<P: Keeper + Drop>(
    rt: &HostRuntime,
    admin: KeptAdmin<P>,
    count: u64,
    rows: u64,
) -> Result<P> {
    let mut admin = admin;
    for _ in admin.kept()..count {
        let next = ask_next(rt.alloc(), admin, rows)?;
        admin = tell_kept(rt, next)?;
    }
    Ok(admin.into_keeper())
}

/// Tells what the commands make.
fn tell_state(rt: &HostRuntime, admin: &Admin, kept: u64) -> Result<()> {
    let state = admin.state();
    let policies = state.policies.len();
    let users = state.users.len();
    let roles = state.roles.len();
    let tag_rows = state.tag_rows.len();
    let next_id = state.next_id;
    let Marks {
        count,
        sum,
        squares,
    } = Marks::of(state);
    println!(rt;
        "kept={kept} policies={policies} users={users} roles={roles} tag_rows={tag_rows} next_id={next_id} marks={count} sum={sum} squares={squares}"
    )?;
    Ok(())
}

/// Tells what the keeper's list makes.
fn tell<P: Keeper + Drop>(rt: &HostRuntime, keeper: P) -> Result<()> {
    let admin = opened(rt.alloc(), keeper)?;
    let told = tell_state(rt, admin.admin(), admin.kept());
    drop(admin);
    told
}

/// Keeps commands in the file until there are so many.
pub(crate) fn append(rt: &HostRuntime, path: &str, count: u64, rows: u64) -> Result<()> {
    let admin = opened(rt.alloc(), keeper(rt, path)?)?;
    fill(rt, admin, count, rows)?.into_connection().close()?;
    Ok(())
}

/// Tells what the commands in the file make. It leaves the log beside the file as it is.
pub(crate) fn reopen(rt: &HostRuntime, path: &str) -> Result<()> {
    tell(rt, keeper(rt, path)?)
}

/// The keeper of the file of a demonstration.
pub(crate) fn small_file(rt: &HostRuntime) -> Result<SqlKeeper<FileStore<File>>> {
    keeper(rt, FILE)
}

/// Removes what a run may have left.
pub(crate) fn clear(rt: &HostRuntime) {
    drop(fs::remove_file(rt, FILE));
    drop(fs::remove_file(rt, LOG));
}

/// Keeps a few commands in a file of this folder and reopens them, then some more, and removes the file.
pub(crate) fn demonstrate(rt: &HostRuntime) -> Result<()> {
    clear(rt);
    for count in [7, 38] {
        append(rt, FILE, count, 4)?;
        reopen(rt, FILE)?;
    }
    fs::remove_file(rt, FILE)?;
    fs::remove_file(rt, LOG)?;
    Ok(())
}
