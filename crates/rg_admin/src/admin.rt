// The administration machine.
ghost use Rattle.std.specs.Prelude.{◌≡◌, [], IfOk, OnErr, None, OnOk, Some, true, vec_capacity, vec_len};
ghost use Rattle.std.specs.List.{list_any};
ghost use Rattle.std.specs.Str.{chars};
ghost use Rattle.rg_facts.specs.Sound.{sound};
ghost use Rattle.rg_cmd.specs.Lookups.{is_service};
ghost use Rattle.rg_same_resources.specs.Counts.{IsCounted};
ghost use Rattle.rg_admin_laws.specs.Changes.{after_command};
ghost use Rattle.rg_admin_laws.specs.Starts.{IsStart};
ghost use Rattle.rg_admin_laws.specs.Steps.{counted, fault, step};
ghost use Rattle.rg_admin_laws.specs.Views.{view};
ghost use Rattle.rg_validate.specs.Valid.{IsKept};
ghost use Rattle.rg_admin.specs.Due.{HasRoom, done};
ghost use Rattle.rg_admin.specs.Held.{administration_of};
ghost use Rattle.rg_admin.specs.Tight.{IsTight};
ghost use Rattle.rg_admin.specs.Reached.{IsPacked};
ghost use Rattle.rg_admin.specs.Stepped.{IsAccepted, IsMade, IsStep, administration_in};

use crate::change::{change, kept_is_tight};
use crate::counting::{count_in, count_out, shift_of};
use crate::logs::ServiceLog;
use crate::planning::{Due, plan, settle};
use crate::recorder::{Recorder, Unkept};
use crate::reply::reply_of;
use crate::view::view_of;
use rg_admin_laws::{states_are_kept, views_are_sound};
use rg_base::NoMemory;
use rg_cmd::{AdminCommand, AdminReply, Ask, Rule, State};
use rg_delegate::authority_fault;
use rg_facts::Facts;
use rg_same_resources::PrintCounts;
use rg_turn::Machine;
use rg_validate::first_fault_counted;
use std::alloc::Global;
use std::marker::Model;

/// The most entries that are counted.
const MOST_ENTRIES: u64 = 1 << 62;

/// The administration. Contracts see its state, and one log for each service in the order of the services. A recorder is told of each
/// ask that passes every rule, before it is done.
pub struct Admin<P: Recorder = Unkept> {
    held: Held,
    // Of the state's policies.
    counts: PrintCounts,
    recorder: P,
}

impl<P: Recorder> Drop for Admin<P> {
    fn drop(self) {
        let Self {
            held: _,
            counts: _,
            recorder: _,
        } = self;
    }
}

/// A state with the logs of its services.
#[derive(Drop)]
struct Held {
    state: State,
    logs: Vec<ServiceLog>,
}

impl<P: Recorder> Model for Admin<P> {
    ghost use Rattle.rg_admin_laws.specs.Logs.{Administration};
    ghost use Rattle.rg_same_resources.specs.Counts.{IsCounted};
    ghost use Rattle.rg_admin.specs.Stepped.{administration_in};
    ghost use Rattle.rg_admin.specs.Reached.{IsReached};

    ghost Value = { Administration };

    ghost view = { λ a. administration_in a.held };

    ghost invariant = { λ a. IsReached (administration_in a.held) × IsCounted
        a.counts a.held.state.policies.items × P.holds a.recorder (administration_in a.held) };
}

/// The first rule that the ask breaks.
fn fault(
    alloc: Global,
    state: &State,
    counts: &PrintCounts,
    ask: &Ask,
) -> Result<Option<Rule>, NoMemory>
    requires kept { IsKept state.now }
    requires counted { IsCounted counts.now state.now.policies.items }
    ensures { IfOk result (λ f. f ≡ fault state.now ask.now) }
{
    match first_fault_counted(alloc, state, counts, ask)? {
        Some(rule) => Ok(Some(rule)),
        None => authority_fault(alloc, state, ask),
    }
}

/// One more entry is counted.
fn count_entry(state: &mut State)
    ensures { state.new ≡ counted state.old }
{
    state.count = state.count.saturating_add(1).min(MOST_ENTRIES);
}

/// Changes the state, and then the logs as is due to them, and counts the entry.
fn make(alloc: Global, held: &mut Held, command: AdminCommand, due: Due) -> Result<(), NoMemory>
    requires tight { IsTight held.old.state }
    requires room { HasRoom due (vec_len held.old.logs) (vec_capacity held.old.logs) }
    ensures state { OnOk result (held.new.state ≡ counted (after_command held.old.state command)) }
    ensures logs { OnOk result (held.new.logs.items ≡ done due held.old.logs.items) }
    ensures err_state { OnErr result (held.new.state ≡ held.old.state) }
    ensures err_logs { OnErr result (held.new.logs.items ≡ held.old.logs.items) }
{
    change(alloc, &mut held.state, command)?;
    settle(&mut held.logs, due);
    count_entry(&mut held.state);
    Ok(())
}

/// Makes the change of an ask that passes every rule, and is recorded before. All memory but that of the change itself is taken by then.
fn accept<P: Recorder>(
    alloc: Global,
    held: &mut Held,
    recorder: &mut P,
    ask: Ask,
) -> Result<(), NoMemory>
    requires kept { IsKept held.old.state }
    requires packed { IsPacked held.old.state }
    requires passes { fault held.old.state ask ≡ None }
    requires holds { P.holds recorder.old (administration_in held.old) }
    ensures ok { OnOk result
        (IsMade (administration_in held.old) ask.command (administration_in held.new)) }
    ensures err { OnErr result (administration_in held.new ≡ administration_in held.old) }
    ensures holds { P.holds recorder.new (administration_in held.new) }
{
    kept_is_tight();
    let due = match plan(alloc, &held.state, &ask.command, &mut held.logs) {
        Ok(due) => due,
        Err(refused) => {
            drop(ask);
            return Err(refused);
        }
    };
    match recorder.record(alloc, &ask) {
        Ok(()) => {}
        Err(refused) => {
            drop(due);
            drop(ask);
            return Err(refused);
        }
    }
    match make(alloc, held, command_of(ask), due) {
        Ok(()) => Ok(()),
        Err(refused) => {
            recorder.stop();
            Err(refused)
        }
    }
}

fn command_of(ask: Ask) -> AdminCommand
    ensures { result ≡ ask.command }
{
    ask.command
}

/// Answers an ask that passes every rule.
fn answer<P: Recorder>(
    alloc: Global,
    held: &mut Held,
    recorder: &mut P,
    ask: Ask,
) -> Result<AdminReply, NoMemory>
    requires kept { IsKept held.old.state }
    requires packed { IsPacked held.old.state }
    requires passes { fault held.old.state ask ≡ None }
    requires holds { P.holds recorder.old (administration_in held.old) }
    ensures ok { IfOk result
        (IsAccepted (administration_in held.old) ask (administration_in held.new)) }
    ensures err { OnErr result (administration_in held.new ≡ administration_in held.old) }
    ensures holds { P.holds recorder.new (administration_in held.new) }
{
    match reply_of(alloc, &held.state, &held.logs, &ask) {
        Ok(reply) => match accept(alloc, held, recorder, ask) {
            Ok(()) => Ok(reply),
            Err(refused) => {
                drop(reply);
                Err(refused)
            }
        },
        Err(refused) => {
            drop(ask);
            Err(refused)
        }
    }
}

/// Answers an ask that passes every rule, with the counts of the policies before it and after it. What it brings is counted
/// first, since that takes memory.
fn answer_counted<P: Recorder>(
    alloc: Global,
    held: &mut Held,
    counts: &mut PrintCounts,
    recorder: &mut P,
    ask: Ask,
) -> Result<AdminReply, NoMemory>
    requires kept { IsKept held.old.state }
    requires packed { IsPacked held.old.state }
    requires passes { fault held.old.state ask ≡ None }
    requires holds { P.holds recorder.old (administration_in held.old) }
    requires counted { IsCounted counts.old held.old.state.policies.items }
    ensures ok { IfOk result
        (IsAccepted (administration_in held.old) ask (administration_in held.new)) }
    ensures err { OnErr result (administration_in held.new ≡ administration_in held.old) }
    ensures counted { IsCounted counts.new held.new.state.policies.items }
    ensures holds { P.holds recorder.new (administration_in held.new) }
{
    let shift = shift_of(&held.state, &ask.command);
    match count_in(counts, shift.brings) {
        Ok(()) => match answer(alloc, held, recorder, ask) {
            Ok(reply) => {
                count_out(counts, shift.takes);
                Ok(reply)
            }
            Err(refused) => {
                count_out(counts, shift.brings);
                Err(refused)
            }
        },
        Err(refused) => {
            drop(ask);
            Err(refused)
        }
    }
}

/// Answers an ask.
fn step_held<P: Recorder>(
    alloc: Global,
    held: &mut Held,
    counts: &mut PrintCounts,
    recorder: &mut P,
    ask: Ask,
) -> Result<AdminReply, NoMemory>
    requires kept { IsKept held.old.state }
    requires packed { IsPacked held.old.state }
    requires counted { IsCounted counts.old held.old.state.policies.items }
    requires holds { P.holds recorder.old (administration_in held.old) }
    ensures ok { IfOk result
        (IsStep (administration_in held.old) ask (administration_in held.new)) }
    ensures err { OnErr result (administration_in held.new ≡ administration_in held.old) }
    ensures counted { IsCounted counts.new held.new.state.policies.items }
    ensures holds { P.holds recorder.new (administration_in held.new) }
{
    match fault(alloc, &held.state, counts, &ask) {
        Ok(None) => answer_counted(alloc, held, counts, recorder, ask),
        Ok(Some(rule)) => {
            drop(ask);
            count_entry(&mut held.state);
            Ok(AdminReply::Refused(rule))
        }
        Err(refused) => {
            drop(ask);
            Err(refused)
        }
    }
}

impl Admin {
    /// The administration as it starts. Nothing is recorded.
    pub(crate) fn opened(state: State, logs: Vec<ServiceLog>, counts: PrintCounts) -> Admin
        requires counted { IsCounted counts [] }
        requires starts { IsStart (administration_of state logs.items) }
        requires packed { IsPacked state }
        ensures { result ≡ administration_of state logs.items }
    {
        Admin {
            held: Held { state, logs },
            counts,
            recorder: Unkept,
        }
    }

    /// Recorded from now on.
    pub fn recorded_by<P: Recorder>(self, recorder: P) -> Admin<P>
        requires { P.holds recorder self }
        ensures { result ≡ self }
    {
        let Admin {
            held,
            counts,
            recorder: _,
        } = self;
        Admin {
            held,
            counts,
            recorder,
        }
    }
}

impl<P: Recorder> Admin<P> {
    /// What was recorded is opened again as the administration.
    pub fn into_recorder(self) -> P
        ensures { P.holds result self }
    {
        let Admin {
            held: _,
            counts: _,
            recorder,
        } = self;
        recorder
    }

    /// Everything that is administered but for the logs. It passes all rules.
    pub fn state(&self) -> &State
        ensures state { result.now ≡ self.now.state }
        ensures kept { IsKept self.now.state }
    {
        states_are_kept();
        &self.held.state
    }

    /// How many of its policies have each print.
    pub fn counts(&self) -> &PrintCounts
        ensures { IsCounted result.now self.now.state.policies.items }
    {
        &self.counts
    }

    /// The facts that the service's plugin sees.
    pub fn view(&self, alloc: Global, service: &str) -> Result<Facts, NoMemory>
        requires { list_any (is_service (chars service.now)) self.now.state.services.items ≡ true }
        ensures { IfOk result (λ facts. view self.now (chars service.now) ≡ Some facts) }
    {
        match view_of(alloc, &self.held.state, self.held.logs.as_slice(), service)? {
            Some(facts) => Ok(facts),
            None => unreachable!(),
        }
    }

    /// The facts that the administration's own plugin sees, which are sound before the last entry that is counted. Want of
    /// memory is also answered after it.
    pub fn own_view(&self, alloc: Global) -> Result<Facts, NoMemory>
        ensures view { IfOk result (λ facts. view self.now self.now.state.plugin ≡ Some facts) }
        ensures sound { IfOk result (λ facts. sound facts ≡ true) }
    {
        views_are_sound();
        if self.held.state.count >= MOST_ENTRIES {
            return Err(NoMemory);
        }
        let state = self.state();
        match self.view(alloc, state.plugin.as_str()) {
            Ok(facts) => Ok(facts),
            Err(NoMemory) => Err(NoMemory),
        }
    }

    /// Answers the ask: refused by the first rule that it breaks, which changes nothing but the count of entries, or else
    /// done. One that passes every rule is recorded before it is done. Where memory is refused everything stays as it is.
    pub fn step(&mut self, alloc: Global, ask: Ask) -> Result<AdminReply, NoMemory>
        ensures ok { IfOk result (λ r. (self.new, r) ≡ step self.old ask) }
        ensures err { OnErr result (self.new ≡ self.old) }
    {
        states_are_kept();
        step_held(
            alloc,
            &mut self.held,
            &mut self.counts,
            &mut self.recorder,
            ask,
        )
    }
}

impl<P: Recorder> Machine for Admin<P> {
    ghost use Rattle.rg_admin_laws.specs.Steps.{step};

    type Ask = Ask;

    type Reply = AdminReply;

    type State = Admin;

    ghost state = { λ a. a };

    ghost transition = { step };

    fn step(&mut self, alloc: Global, ask: Ask) -> Result<AdminReply, NoMemory> {
        Admin::step(self, alloc, ask)
    }
}
