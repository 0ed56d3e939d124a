// Work on an administration that has many policies.
use crate::commands::{ask_of, put_policy, started};
use crate::texts::Draft;
use rg_admin::Admin;
use rg_base::PolicyId;
use rg_cmd::{AdminCommand, AdminReply, Ask};
use rg_validate::first_fault_counted;
use std::alloc::Global;

/// The policies that are updated are spread by this step. It has no divisor in common with a power of ten.
const STEP: u32 = 611;

/// What is asked of an administration: the first rule that a creation breaks, or a command.
#[derive(Clone, Copy)]
pub(super) enum Call {
    Fault,
    Create,
    Update,
    Delete,
}

/// An administration, and how many policies were made for it.
#[derive(Drop)]
struct Works {
    admin: Admin,
    made: u32,
}

/// 1 where the reply is no refusal, else 0.
fn is_accepted(reply: AdminReply) -> u32 {
    let accepted = u32::from(!matches!(reply, AdminReply::Refused(_)));
    drop(reply);
    accepted
}

/// One of the ids up to this one.
fn spread(place: u32, last: u32) -> u32 {
    if last == 0 {
        return 1;
    }
    (place.wrapping_mul(STEP) % last).saturating_add(1)
}

impl Works {
    /// An administration with so many policies.
    fn start(alloc: Global, policies: u32) -> Option<Works> {
        let mut works = Works {
            admin: started(alloc)?,
            made: 0,
        };
        let created = works.created(alloc, policies)?;
        if created == policies {
            return Some(works);
        }
        drop(works);
        None
    }

    /// The command that puts the next policy, as a new one where the id is 0.
    fn next(&mut self, alloc: Global, id: u32) -> Option<AdminCommand> {
        self.made = self.made.saturating_add(1);
        put_policy(
            alloc,
            Draft {
                id,
                ..Draft::new(self.made)
            },
        )
    }

    fn step(&mut self, alloc: Global, command: AdminCommand) -> Option<u32> {
        let ask = ask_of(alloc, command)?;
        match self.admin.step(alloc, ask) {
            Ok(reply) => Some(is_accepted(reply)),
            Err(_) => None,
        }
    }

    /// Creates so many policies.
    fn created(&mut self, alloc: Global, count: u32) -> Option<u32> {
        let mut sum = 0u32;
        for _ in 0..count {
            let command = self.next(alloc, 0)?;
            sum = sum.saturating_add(self.step(alloc, command)?);
        }
        Some(sum)
    }

    /// Updates so many of the policies.
    fn updated(&mut self, alloc: Global, count: u32) -> Option<u32> {
        let policies = self.made;
        let mut sum = 0u32;
        for place in 0..count {
            let id = spread(place, policies);
            let command = self.next(alloc, id)?;
            sum = sum.saturating_add(self.step(alloc, command)?);
        }
        Some(sum)
    }

    /// Deletes so many policies, the oldest first.
    fn deleted(&mut self, alloc: Global, count: u32) -> Option<u32> {
        let mut sum = 0u32;
        for place in 0..count {
            let id = PolicyId(i64::from(place).saturating_add(1));
            sum = sum.saturating_add(self.step(alloc, AdminCommand::DeletePolicy { id })?);
        }
        Some(sum)
    }

    /// 1 where the ask breaks no rule, else 0.
    fn is_faultless(&self, alloc: Global, ask: &Ask) -> Option<u32> {
        match first_fault_counted(alloc, self.admin.state(), self.admin.counts(), ask) {
            Ok(fault) => Some(u32::from(fault.is_none())),
            Err(_) => None,
        }
    }

    /// Looks so many times for the first rule that the ask breaks.
    fn looked(&self, alloc: Global, ask: &Ask, count: u32) -> Option<u32> {
        let mut sum = 0u32;
        for _ in 0..count {
            sum = sum.saturating_add(self.is_faultless(alloc, ask)?);
        }
        Some(sum)
    }

    /// The same of the creation of one more policy.
    fn faultless(&mut self, alloc: Global, count: u32) -> Option<u32> {
        let command = self.next(alloc, 0)?;
        let ask = ask_of(alloc, command)?;
        let sum = self.looked(alloc, &ask, count);
        drop(ask);
        sum
    }

    /// Makes so many calls of this kind. How many succeed.
    fn called(&mut self, alloc: Global, call: Call, count: u32) -> Option<u32> {
        match call {
            Call::Fault => self.faultless(alloc, count),
            Call::Create => self.created(alloc, count),
            Call::Update => self.updated(alloc, count),
            Call::Delete => self.deleted(alloc, count),
        }
    }
}

/// Makes so many calls of this kind over so many policies. How many succeed.
pub(super) fn called(alloc: Global, call: Call, policies: u32, count: u32) -> Option<u32> {
    let mut works = Works::start(alloc, policies)?;
    let succeeded = works.called(alloc, call, count);
    drop(works);
    succeeded
}
