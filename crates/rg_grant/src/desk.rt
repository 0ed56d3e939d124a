// An administration with grants and revokes.
ghost use Rattle.std.specs.Prelude.{◌≡◌, ℕ, false, List, IfOk, OnErr};
ghost use Rattle.rg_validate.specs.Valid.{IsKept};
ghost use Rattle.rg_admin_laws.specs.Laws.{is_refused};
ghost use Rattle.rg_grant.specs.InForce.{IsInForce, IsRevoked};
ghost use Rattle.rg_grant.specs.Steps.{granted};
ghost use Rattle.rg_grant.specs.declared.ask.GrantAsk.TheVariants.{Grant, Revoke};
ghost use Rattle.rg_grant.specs.declared.row.GrantRow.{GrantRow};

use crate::ask::GrantAsk;
use crate::planning::plan;
use rg_admin::Admin;
use rg_base::NoMemory;
use rg_cmd::AdminReply;
use rg_turn::Machine;
use std::alloc::Global;

/// Answers the ask by the administration.
#[tactic(auto, unfolding(crate::specs::Steps::granted))]
fn answer(alloc: Global, admin: &mut Admin, ask: GrantAsk) -> Result<AdminReply, NoMemory>
    ensures ok { IfOk result (λ r. (admin.new, r) ≡ granted admin.old ask) }
    ensures err { OnErr result (admin.new ≡ admin.old) }
    ensures kept { IsKept admin.old.state }
{
    let plain = plan(alloc, admin.state(), admin.counts(), ask)?;
    admin.step(alloc, plain)
}

/// An administration that is asked grants and revokes too.
#[derive(Drop)]
pub struct GrantDesk {
    pub admin: Admin,
}

impl GrantDesk {
    pub fn new(admin: Admin) -> GrantDesk
        ensures { result.admin ≡ admin }
    {
        GrantDesk { admin }
    }

    /// Answers the ask: a grant and a revoke as the update or the creation of one policy by the same actor, so a refusal is one
    /// of those. An accepted grant is in force, and an accepted revoke leaves the subjects nothing of the row. Where memory is
    /// refused everything stays as it is.
    pub fn step(&mut self, alloc: Global, ask: GrantAsk) -> Result<AdminReply, NoMemory>
        ensures ok { IfOk result (λ r. (self.new.admin, r) ≡ granted self.old.admin ask) }
        ensures err { OnErr result (self.new.admin ≡ self.old.admin) }
        ensures in_force { (actor : List ℕ) (g : GrantRow) → ask ≡ Grant actor g → IfOk result
            (λ r. is_refused r ≡ false → IsInForce g self.old.admin self.new.admin r) }
        ensures revoked { (actor : List ℕ) (g : GrantRow) → ask ≡ Revoke actor g → IfOk result
            (λ r. is_refused r ≡ false → IsRevoked g self.old.admin self.new.admin r) }
    {
        answer(alloc, &mut self.admin, ask)
    }
}

impl Machine for GrantDesk {
    ghost use Rattle.rg_grant.specs.Steps.{granted};

    type Ask = GrantAsk;

    type Reply = AdminReply;

    type State = Admin;

    ghost state = { λ d. d.admin };

    ghost transition = { granted };

    fn step(&mut self, alloc: Global, ask: GrantAsk) -> Result<AdminReply, NoMemory> {
        GrantDesk::step(self, alloc, ask)
    }
}
