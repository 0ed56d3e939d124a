// How a service opens.
ghost use Rattle.std.specs.Prelude.{◌≡◌, ◌≤◌, [], ◌∷◌, List, replicate, Some, IfOk, OnOk};
ghost use Rattle.rg_turn.specs.Values.{new_seat};
ghost use Rattle.rg_turn.specs.declared.rule.Entry.{Entry};
ghost use Rattle.rg_facts.specs.declared.facts.Facts.{Facts};
ghost use Rattle.rg_cmd.specs.declared.ask.AdminReply.{AdminReply};
ghost use Rattle.rg_cmd.specs.declared.ask.Ask.{Ask};
ghost use Rattle.rg_admin_laws.specs.Starts.{IsStart};
ghost use Rattle.rg_admin_laws.specs.Views.{view};
ghost use Rattle.rg_publish.specs.Passes.{new_pass};
ghost use Rattle.rg_publish.specs.Publications.{publication};
ghost use Rattle.rg_session.specs.Opening.{IsBuiltWithin, IsCompiled};
ghost use Rattle.rg_session.specs.Right.{AreRightFor};

use crate::laws::first_is_right;
use crate::refresher::Refresher;
use rg_admin::{Admin, Recorder, Unkept};
use rg_admin_laws::views_are_sound;
use rg_base::{Ledger, NoMemory, Steps, TryCopy};
use rg_publish::{Engine, Pass, begin};
use rg_turn::{Seat, Turn};
use std::alloc::Global;
use std::sync::Wait;

/// A service that is open: its one history, the publications that follow it, and the passes that decide by them.
#[derive(Drop)]
pub struct Service<R: Wait + Drop, P: Recorder = Unkept> {
    pub turn: Turn<Admin<P>>,
    pub seats: Vec<Seat<Admin<P>>>,
    pub refresher: Refresher<R>,
    pub passes: Vec<Pass>,
}

/// An engine over what the plugin sees.
fn first_engine<P: Recorder, L: Ledger>(
    alloc: Global,
    admin: &Admin<P>,
    steps: &mut Steps<L>,
) -> Result<Engine, NoMemory>
    requires { IsStart admin.now }
    ensures seen { IfOk result (λ e. view admin.now admin.now.state.plugin ≡ Some e) }
    ensures compiled { OnOk result
        (IsCompiled (view admin.now admin.now.state.plugin) steps.old steps.new) }
    ensures steps { IsBuiltWithin (view admin.now admin.now.state.plugin) steps.old steps.new }
{
    views_are_sound();
    match admin.view(alloc, admin.state().plugin.as_str()) {
        Ok(facts) => Engine::build(alloc, facts, steps),
        Err(NoMemory) => Err(NoMemory),
    }
}

/// A publisher that follows an administration from its start, and its passes. What the plugin sees is serial 1, with seq 0.
#[tactic(auto, using(crate::proofs::Opened::none_built))]
fn first_refresher<P: Recorder, R: Wait + Drop, L: Ledger>(
    rt: R,
    alloc: Global,
    admin: &Admin<P>,
    passes: u32,
    steps: &mut Steps<L>,
) -> Result<(Refresher<R>, Vec<Pass>), NoMemory>
    requires start { IsStart admin.now }
    requires count { (1 ≤ passes) × (passes ≤ 65) }
    ensures plugin { IfOk result (λ t. (t.0.service ≡ admin.now.state.plugin) × (t.0.seq ≡ 0)) }
    ensures list { IfOk result (λ t. (f : Facts) × (view admin.now admin.now.state.plugin ≡ Some f)
        × (t.0.publisher.list ≡ publication 1 0 f ∷ [])) }
    ensures passes { IfOk result (λ t. t.1.items ≡ replicate passes (new_pass t.0.publisher)) }
    ensures compiled { OnOk result
        (IsCompiled (view admin.now admin.now.state.plugin) steps.old steps.new) }
    ensures steps { IsBuiltWithin (view admin.now admin.now.state.plugin) steps.old steps.new }
{
    let service = match admin.state().plugin.try_copy(alloc) {
        Ok(service) => service,
        Err(NoMemory) => return Err(NoMemory),
    };
    let engine = match first_engine(alloc, admin, steps) {
        Ok(engine) => engine,
        Err(NoMemory) => return Err(NoMemory),
    };
    match begin(rt, alloc, engine, passes) {
        Ok((publisher, passes)) => {
            let refresher = Refresher {
                publisher,
                service,
                seq: 0,
            };
            Ok((refresher, passes))
        }
        Err(NoMemory) => Err(NoMemory),
    }
}

/// Opens a service over an administration that starts, with 1 to 65 seats and 1 to 65 passes. What the plugin sees is the first
/// publication, of serial 1 and seq 0; each of its policies is compiled once. Where memory is refused all is let go.
pub fn open<P: Recorder, R: Wait + Drop, L: Ledger>(
    rt: R,
    alloc: Global,
    admin: Admin<P>,
    seats: u32,
    passes: u32,
    steps: &mut Steps<L>,
) -> Result<Service<R, P>, NoMemory>
    requires start { IsStart admin }
    requires seats { (1 ≤ seats) × (seats ≤ 65) }
    requires passes { (1 ≤ passes) × (passes ≤ 65) }
    ensures turn { IfOk result (λ s. (s.turn.start ≡ admin) × (s.turn.seats ≡ seats)) }
    ensures seats { IfOk result (λ s. s.seats.items ≡ replicate seats (new_seat s.turn.turn)) }
    ensures plugin { IfOk result (λ s. (s.refresher.service ≡ admin.state.plugin)
        × (s.refresher.seq ≡ 0)) }
    ensures list { IfOk result (λ s. (f : Facts) × (view admin admin.state.plugin ≡ Some f)
        × (s.refresher.publisher.list ≡ publication 1 0 f ∷ [])) }
    ensures right { IfOk result (λ s. (h : List (Entry Ask AdminReply))
        → AreRightFor admin h s.refresher.publisher.list) }
    ensures passes { IfOk result
        (λ s. s.passes.items ≡ replicate passes (new_pass s.refresher.publisher)) }
    ensures compiled { OnOk result
        (IsCompiled (view admin admin.state.plugin) steps.old steps.new) }
    ensures steps { IsBuiltWithin (view admin admin.state.plugin) steps.old steps.new }
{
    first_is_right();
    match first_refresher(rt, alloc, &admin, passes, steps) {
        Ok((refresher, passes)) => match Turn::new(alloc, admin, seats) {
            Ok((turn, seats)) => Ok(Service {
                turn,
                seats,
                refresher,
                passes,
            }),
            Err(NoMemory) => Err(NoMemory),
        },
        Err(NoMemory) => Err(NoMemory),
    }
}
