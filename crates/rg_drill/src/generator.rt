// The generator of the drill's workload.
ghost use Rattle.std.specs.Prelude.{◌≡◌, IfOk, OnOk, OnErr};
ghost use Rattle.rg_drill.specs.Workload.{policy_of, request_of};

use crate::draws::Draws;
use crate::workload::{policy_from, request_from};
use rg_base::NoMemory;
use rg_policy::{AccessRequest, Policy};
use std::alloc::Global;
use std::marker::Model;

/// Makes policies and requests from a seed. Contracts see its number, which each draw moves on.
#[derive(Drop)]
pub struct Generator {
    number: u64,
}

impl Model for Generator {
    ghost use Rattle.std.specs.Prelude.{ℕ};

    ghost Value = { ℕ };

    ghost view = { λ g. g.number };
}

impl Generator {
    pub fn new(seed: u64) -> Generator
        ensures { result ≡ seed }
    {
        Generator { number: seed }
    }

    /// Policy `n` of service `hive1`: for one user, on a table of its own in one of 50 databases. The generator stays
    /// as it is where memory is refused.
    #[tactic(auto, unfolding(crate::specs::Workload::policy_of))]
    pub fn policy(&mut self, alloc: Global, n: u32) -> Result<Policy, NoMemory>
        ensures made { IfOk result (λ p. p ≡ (policy_of n self.old).value) }
        ensures next { OnOk result (self.new ≡ (policy_of n self.old).next) }
        ensures err { OnErr result (self.new ≡ self.old) }
    {
        let mut draws = Draws {
            number: self.number,
        };
        let drawn = draws.for_policy();
        let policy = policy_from(alloc, n, drawn)?;
        self.number = draws.number;
        Ok(policy)
    }

    /// A request for access to the table of one of so many policies, or to table `t1` where there are none. The
    /// generator stays as it is where memory is refused.
    #[tactic(auto, unfolding(crate::specs::Workload::request_of))]
    pub fn request(&mut self, alloc: Global, policies: u32) -> Result<AccessRequest, NoMemory>
        ensures made { IfOk result (λ r. r ≡ (request_of policies self.old).value) }
        ensures next { OnOk result (self.new ≡ (request_of policies self.old).next) }
        ensures err { OnErr result (self.new ≡ self.old) }
    {
        let mut draws = Draws {
            number: self.number,
        };
        let drawn = draws.for_request(policies);
        let request = request_from(alloc, drawn)?;
        self.number = draws.number;
        Ok(request)
    }
}
