// The logs of the services.
ghost use Rattle.std.specs.Prelude.{◌≡◌, IfOk, OnOk};
ghost use Rattle.rg_delta.specs.declared.touch.Touch.TheVariants.{Leaves};
ghost use Rattle.rg_admin.specs.Held.{Planned, planned, settled, unplanned};
ghost use Rattle.rg_admin_laws.specs.Logs.{new_log, policy_book, tag_book};

use rg_base::{NoMemory, Text, TryCopy, Version};
use rg_cmd::{LogEntry, TagChange};
use rg_delta::{DeltaLog, Touch};
use std::alloc::Global;
use std::marker::Model;
use std::mem;

/// The logs of a service, and what the change under way is to do to them. Contracts see both.
pub struct ServiceLog {
    service: Text,
    policies: DeltaLog<LogEntry>,
    tags: DeltaLog<TagChange>,
    policies_due: Touch<LogEntry>,
    tags_due: Touch<TagChange>,
}

impl Drop for ServiceLog {
    fn drop(self) {
        let Self {
            service: _,
            policies: _,
            tags: _,
            policies_due: _,
            tags_due: _,
        } = self;
    }
}

impl Model for ServiceLog {
    ghost use Rattle.std.specs.Prelude.{◌≡◌};
    ghost use Rattle.rg_delta.specs.Touches.{IsReady};
    ghost use Rattle.rg_admin.specs.Held.{Planned, log_of};

    ghost Value = { Planned };

    ghost view = { λ l. record {
      log = log_of l.service l.policies.book l.tags.book;
      policies = l.policies_due;
      tags = l.tags_due;
    } };

    ghost invariant = { λ l. IsReady l.policies_due l.policies.spare
        × IsReady l.tags_due l.tags.spare };
}

impl ServiceLog {
    /// The logs of a created service, at versions 1 and 1.
    pub fn new(alloc: Global, service: &Text) -> Result<ServiceLog, NoMemory>
        ensures { IfOk result (λ log. log ≡ unplanned (new_log service.now)) }
    {
        let service = service.try_copy(alloc)?;
        let policies = DeltaLog::new(alloc, Version(1))?;
        let tags = DeltaLog::new(alloc, Version(1))?;
        Ok(ServiceLog {
            service,
            policies,
            tags,
            policies_due: Touch::Leaves,
            tags_due: Touch::Leaves,
        })
    }

    /// The service's name.
    pub fn service(&self) -> &Text
        ensures { result.now ≡ self.now.log.service }
    {
        &self.service
    }

    /// The log of its policies, whose version is the policy version.
    pub fn policies(&self) -> &DeltaLog<LogEntry>
        ensures { result.now.book ≡ policy_book self.now.log }
    {
        &self.policies
    }

    /// The log of its tag rows, whose version is the tag version.
    pub fn tags(&self) -> &DeltaLog<TagChange>
        ensures { result.now.book ≡ tag_book self.now.log }
    {
        &self.tags
    }

    /// Nothing is to be done.
    fn forget(&mut self)
        ensures { self.new ≡ planned self.old Leaves Leaves }
    {
        self.policies_due = Touch::Leaves;
        self.tags_due = Touch::Leaves;
    }

    /// Sees to it that the change can be made.
    pub fn plan(
        &mut self,
        policies: Touch<LogEntry>,
        tags: Touch<TagChange>,
    ) -> Result<(), NoMemory>
        ensures log { self.new.log ≡ self.old.log }
        ensures ok { OnOk result (self.new ≡ planned self.old policies tags) }
    {
        self.forget();
        self.policies.prepare(&policies)?;
        self.tags.prepare(&tags)?;
        self.policies_due = policies;
        self.tags_due = tags;
        Ok(())
    }

    /// Makes the change. It takes no memory.
    pub fn settle(&mut self)
        ensures { self.new ≡ settled self.old }
    {
        let policies = mem::replace(&mut self.policies_due, Touch::Leaves);
        self.policies.touch(policies);
        let tags = mem::replace(&mut self.tags_due, Touch::Leaves);
        self.tags.touch(tags);
    }
}
