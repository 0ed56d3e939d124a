// What is asked for a plugin.
ghost use Rattle.std.specs.Prelude.{IfOk, IfErr};
ghost use Rattle.rg_admin_laws.specs.Downloads.{From};
ghost use Rattle.rg_follow.specs.Asking.{IsUnasked, WasAsked};

use rg_base::Version;
use rg_cmd::Download;
use rg_ports::Link;
use rg_remote::{AskFault, Remote};
use std::alloc::Global;

/// The versions from which a plugin asks.
#[derive(Clone, Copy)]
pub(crate) struct Known {
    pub policies: Option<Version>,
    pub tags: Option<Version>,
    pub roles: Option<Version>,
}

/// Three questions from these versions, one after another.
pub(crate) fn ask<T: Link + Drop>(
    alloc: Global,
    remote: &mut Remote<T>,
    known: Known,
) -> Result<Download, AskFault>
    ensures asked { IfOk result (λ d. WasAsked (record {
      policies = known.policies;
      tags = known.tags;
      roles = known.roles;
    }) d remote.old remote.new) }
    ensures unasked { IfErr result (λ f. IsUnasked (record {
      policies = known.policies;
      tags = known.tags;
      roles = known.roles;
    }) f remote.old remote.new) }
{
    let policies = match remote.policies(alloc, known.policies) {
        Ok(part) => part,
        Err(fault) => return Err(fault),
    };
    let tags = match remote.tags(alloc, known.tags) {
        Ok(part) => part,
        Err(fault) => {
            drop(policies);
            return Err(fault);
        }
    };
    match remote.roles(alloc, known.roles) {
        Ok(roles) => Ok(Download {
            seq: 0,
            policies,
            tags,
            roles,
        }),
        Err(fault) => {
            drop(policies);
            drop(tags);
            Err(fault)
        }
    }
}
