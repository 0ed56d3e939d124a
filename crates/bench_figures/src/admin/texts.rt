// Commands that are read, and replies that are printed.
use crate::commands::put_policy;
use crate::texts::{Draft, command};
use rg_base::{NoMemory, TryCopy};
use rg_cmd::{AdminCommand, AdminReply};
use rg_cmd_wire::{print_reply, read_command};
use rg_policy::Policy;
use rg_shared::Shared;
use std::alloc::Global;

/// 1 where it reads, else 0.
fn read_once(alloc: Global, text: &str) -> u32 {
    match read_command(alloc, text.as_bytes()) {
        Ok(command) => {
            drop(command);
            1
        }
        Err(_) => 0,
    }
}

/// Reads a command so many times.
pub(super) fn read(alloc: Global, count: u32) -> Option<u32> {
    let Ok(text) = command(alloc, Draft::new(1)) else {
        return None;
    };
    let mut sum = 0u32;
    for _ in 0..count {
        sum = sum.saturating_add(read_once(alloc, text.as_str()));
    }
    Some(sum)
}

fn shared(alloc: Global, policy: &Policy) -> Result<Shared<Policy>, NoMemory> {
    Shared::new(alloc, policy.try_copy(alloc)?)
}

/// A reply with the policy that the command creates.
fn found(alloc: Global, command: &AdminCommand) -> Option<AdminReply> {
    match command {
        AdminCommand::CreatePolicy { policy } => match shared(alloc, policy) {
            Ok(policy) => Some(AdminReply::Found(policy)),
            Err(_) => None,
        },
        _ => None,
    }
}

fn reply(alloc: Global) -> Option<AdminReply> {
    let command = put_policy(alloc, Draft::new(1))?;
    let reply = found(alloc, &command);
    drop(command);
    reply
}

/// 1 where it prints, else 0.
fn print_once(alloc: Global, reply: &AdminReply) -> u32 {
    match print_reply(alloc, reply) {
        Ok(text) => {
            drop(text);
            1
        }
        Err(_) => 0,
    }
}

fn print_often(alloc: Global, reply: &AdminReply, count: u32) -> u32 {
    let mut sum = 0u32;
    for _ in 0..count {
        sum = sum.saturating_add(print_once(alloc, reply));
    }
    sum
}

/// Prints a reply with a policy so many times.
pub(super) fn printed(alloc: Global, count: u32) -> Option<u32> {
    let reply = reply(alloc)?;
    let sum = print_often(alloc, &reply, count);
    drop(reply);
    Some(sum)
}
