// An administration that is running, with what is published to its plugin.
ghost use Rattle.std.specs.Prelude.{◌≡◌, true, Some, IfOk, length, option_map};
ghost use Rattle.std.specs.Str.{chars};
ghost use Rattle.rg_session.specs.Starting.{start_fault};
ghost use Rattle.rg_publish.specs.Bounds.{TriesWithin, bound_on};
ghost use Rattle.rg_facts.specs.Sound.{sound};
ghost use Rattle.rg_admin_laws.specs.Starts.{IsStart};
ghost use Rattle.rg_admin_laws.specs.Steps.{step};
ghost use Rattle.rg_publish.specs.Passes.{Ends, decision_of};
ghost use Rattle.rg_run_replay.specs.Running.{IsRefreshed, asked, newest, opened, opened_unless, serial_in};

use rg_base::{Ledger, NoMemory, Serial, Steps};
use rg_cmd::{AdminReply, Ask, Config};
use rg_facts::{Decision, Facts};
use rg_policy::AccessRequest;
use rg_publish::Pass;
use rg_session::{
    Admin, Refresh, Refresher, Service, StartFault, documents_lead, open, right_lists_stay_right,
};
use rg_turn::laws::one_more_entry;
use rg_turn::{Seat, Turn};
use std::alloc::Global;
use std::marker::Model;
use std::sync::Wait;

/// An administration with its plugin, for one caller: a turn of one seat, what is published, and one pass. Contracts see the
/// administration after all calls, and the publications.
pub struct Running<R: Wait + Drop> {
    turn: Turn<Admin>,
    seat: Seat<Admin>,
    refresher: Refresher<R>,
    pass: Pass,
}

impl<R: Wait + Drop> Drop for Running<R> {
    fn drop(self) {
        let Self {
            turn: _,
            seat: _,
            refresher: _,
            pass: _,
        } = self;
    }
}

impl<R: Wait + Drop> Model for Running<R> {
    ghost use Rattle.rg_run_replay.specs.Held.{IsHeld, held};
    ghost use Rattle.rg_run_replay.specs.Running as the;

    ghost Value = { the.Running };

    ghost view = { λ r. held r.turn r.seat r.refresher.service r.refresher.publisher.list };

    ghost invariant = { λ r.
        IsHeld r.turn r.seat r.refresher.service r.refresher.publisher r.pass };
}

/// The serial of what was published.
fn serial_in(refresh: Refresh) -> Option<Serial>
    ensures { result ≡ serial_in refresh }
{
    match refresh {
        Refresh::Unchanged => None,
        Refresh::Published(serial) => Some(serial),
    }
}

impl<R: Wait + Drop> Running<R> {
    /// What the configuration starts, with its plugin's view as publication 1; None where the configuration breaks a rule.
    pub fn start(rt: R, alloc: Global, config: Config) -> Result<Option<Running<R>>, NoMemory>
        ensures { IfOk result (λ r. r ≡ opened_unless (start_fault config) config) }
    {
        match Admin::start(alloc, config) {
            Ok(admin) => Ok(Some(Running::opened(rt, alloc, admin)?)),
            Err(StartFault::Rule(_)) => Ok(None),
            Err(StartFault::NoMemory) => Err(NoMemory),
        }
    }

    /// The administration, with its plugin's view as publication 1.
    fn opened(rt: R, alloc: Global, admin: Admin) -> Result<Running<R>, NoMemory>
        requires { IsStart admin }
        ensures { IfOk result (λ r. opened admin ≡ Some r) }
    {
        let Service {
            turn,
            mut seats,
            refresher,
            mut passes,
        } = open(rt, alloc, admin, 1, 1, &mut Steps::silent())?;
        let Some(seat) = seats.pop() else {
            return Err(NoMemory);
        };
        let Some(pass) = passes.pop() else {
            return Err(NoMemory);
        };
        turn.knows(&seat);
        Ok(Running {
            turn,
            seat,
            refresher,
            pass,
        })
    }

    /// Asks the administration.
    pub fn ask<W: Wait>(&mut self, rt: &W, alloc: Global, ask: Ask) -> Result<AdminReply, NoMemory>
        ensures asked { IfOk result (λ reply. self.new ≡ asked self.old ask) }
        ensures reply { IfOk result (λ reply. reply ≡ (step self.old.admin ask).1) }
    {
        right_lists_stay_right();
        one_more_entry::<Admin>();
        self.turn.call(rt, alloc, &mut self.seat, ask)
    }

    /// Publishes what has changed since the newest publication, and gives its serial; None where nothing has. Where memory is
    /// refused nothing is published.
    pub fn refresh<W: Wait, L: Ledger>(
        &mut self,
        rt: &W,
        alloc: Global,
        steps: &mut Steps<L>,
    ) -> Result<Option<Serial>, NoMemory>
        ensures refreshed { IfOk result
            (λ serial. Ends self.old.published (λ p. IsRefreshed self.old p serial self.new)) }
        ensures tries { steps.new.tries ≡ steps.old.tries }
    {
        documents_lead();
        one_more_entry::<Admin>();
        let refreshed = self
            .refresher
            .refresh(rt, alloc, &self.turn, &mut self.seat, steps);
        self.turn.knows(&self.seat);
        match refreshed {
            Ok(refresh) => return Ok(serial_in(refresh)),
            Err(NoMemory) => return Err(NoMemory),
        }
    }

    /// Decides the request by the newest publication. Want of memory is also answered where the pass decides by another one
    /// than the publisher's newest: of what others publish nothing is known, and there are none here.
    pub fn decide<L: Ledger>(
        &mut self,
        alloc: Global,
        request: &AccessRequest,
        steps: &mut Steps<L>,
    ) -> Result<Decision, NoMemory>
        ensures same { self.new ≡ self.old }
        ensures decision { IfOk result
            (λ d. Ends self.old.published (λ p. d ≡ decision_of p request.now)) }
        ensures steps { IfOk result (λ d. Ends self.old.published
            (λ p. TriesWithin (bound_on p.facts request.now) steps.old steps.new)) }
    {
        let told = self.refresher.publisher.tell()?;
        self.pass.learn(told);
        let decision = self.pass.decide(alloc, request, steps)?;
        if self.pass.serial().0 != self.refresher.publisher.serial().0 {
            return Err(NoMemory);
        }
        Ok(decision)
    }

    /// A copy of the facts of the newest publication.
    pub fn facts(&self, alloc: Global) -> Result<Facts, NoMemory>
        ensures newest { IfOk result
            (λ facts. option_map (λ p. p.facts) (newest self.now) ≡ Some facts) }
        ensures sound { IfOk result (λ facts. sound facts ≡ true) }
    {
        self.refresher.publisher.newest().facts(alloc)
    }

    /// The plugin's service.
    pub fn plugin(&self) -> &str
        ensures { chars result.now ≡ self.now.plugin }
    {
        self.refresher.service.as_str()
    }

    /// How many publications there are.
    pub fn publications(&self) -> u64
        ensures { result ≡ length self.now.published }
    {
        self.refresher.publisher.serial().0
    }
}
