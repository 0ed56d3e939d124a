// An administration with grants, and what its plugin decides.
ghost use Rattle.std.specs.Prelude.{◌≡◌, IfOk, OnErr};
ghost use Rattle.rg_grant.specs.Starting.{start_fault, started_unless};
ghost use Rattle.rg_grant.specs.Steps.{granted};

use rg_base::NoMemory;
use rg_cmd::{AdminReply, Config};
use rg_facts::Decision;
use rg_grant::{Admin, GrantAsk, GrantDesk, StartFault};
use rg_policy::AccessRequest;
use rg_run_script::{Decider, decide_now};
use std::alloc::Global;
use std::marker::Model;

/// An administration with grants since its start, for one caller. Contracts see the administration.
pub struct Granting {
    desk: GrantDesk,
}

impl Drop for Granting {
    fn drop(self) {
        let Self { desk: _ } = self;
    }
}

impl Model for Granting {
    ghost use Rattle.rg_grant.specs.Logs.{Administration};

    ghost Value = { Administration };

    ghost view = { λ g. g.desk.admin };
}

impl Granting {
    /// What the configuration starts; None where the configuration breaks a rule.
    pub fn start(alloc: Global, config: Config) -> Result<Option<Granting>, NoMemory>
        ensures { IfOk result (λ g. g ≡ started_unless (start_fault config) config) }
    {
        match Admin::start(alloc, config) {
            Ok(admin) => Ok(Some(Granting {
                desk: GrantDesk::new(admin),
            })),
            Err(StartFault::Rule(_)) => Ok(None),
            Err(StartFault::NoMemory) => Err(NoMemory),
        }
    }

    /// Asks the administration. Where memory is refused everything stays as it is.
    pub fn ask(&mut self, alloc: Global, ask: GrantAsk) -> Result<AdminReply, NoMemory>
        ensures ok { IfOk result (λ r. (self.new, r) ≡ granted self.old ask) }
        ensures err { OnErr result (self.new ≡ self.old) }
    {
        self.desk.step(alloc, ask)
    }
}

impl Decider for Granting {
    ghost use Rattle.rg_run_script.specs.Current.{decision_now};

    ghost served = { λ a. a.state.plugin };

    ghost decides = { decision_now };

    fn service(&self) -> &str {
        self.desk.admin.state().plugin.as_str()
    }

    /// Decides the request over what the plugin sees now. Nothing is published, so the serial is 0. Want of memory is also
    /// answered once `2^62` entries are counted.
    fn decide(&mut self, alloc: Global, request: &AccessRequest) -> Result<Decision, NoMemory> {
        decide_now(alloc, &self.desk.admin, request)
    }
}
