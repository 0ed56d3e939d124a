// A call of the administration, answered.
ghost use Rattle.std.specs.Prelude.{◌≡◌, ◌⊎◌, [], IfOk, OnOk, OnErr, MatchResult, List, ℕ};
ghost use mathlib.Core.List.{IsPrefix};
ghost use Rattle.http.specs.StatusCode.{IsStatusCode};
ghost use Rattle.rg_http.specs.declared.message.Response.{Response};
ghost use Rattle.rg_http.specs.Print.{response_text};
ghost use Rattle.rg_turn.specs.Values.{IsCalled};
ghost use Rattle.rg_link.specs.Answers.{actor_of, ask_of};
ghost use Rattle.rg_link.specs.Loop.{IsCall, IsUncalled};
ghost use Rattle.rg_http.specs.Answers.{Wrote};
ghost use Rattle.rg_link.specs.Sessions.{Counts};

use crate::report::LinkFault;
use crate::setting::Setting;
use crate::writing::send;
use rg_base::{NoMemory, Text};
use rg_cmd::{AdminCommand, AdminReply, Ask, Part};
use rg_http::{Message, Response};
use rg_ports::{Gate, Link};
use rg_rest::{AnswerForm, reply_response};
use rg_session::{Admin, Bell, Recorder};
use rg_turn::Seat;
use std::alloc::Global;
use std::str;
use std::sync::Wait;

/// Who asks: the characters of the field `x-user`, if they are any.
fn actor_of(alloc: Global, message: &Message) -> Result<Text, NoMemory>
    ensures { IfOk result (λ actor. actor ≡ actor_of message.now.user) }
{
    match &message.user {
        None => Ok(Text::empty(alloc)),
        Some(user) => match str::from_utf8(user.as_slice()) {
            Ok(text) => Text::copy_of(alloc, text),
            Err(_) => Ok(Text::empty(alloc)),
        },
    }
}

/// Asks the turn's administration what the message's user commands.
fn call_turn<P: Recorder, G: Gate, R: Wait>(
    setting: &Setting<P, G, R>,
    seat: &mut Seat<Admin<P>>,
    message: &Message,
    command: AdminCommand,
) -> Result<AdminReply, NoMemory>
    requires { seat.old.turn ≡ setting.now.turn.now.turn }
    ensures same { (seat.new.turn ≡ seat.old.turn) × IsPrefix seat.old.history seat.new.history }
    ensures called { MatchResult result (λ reply. IsCalled seat.old
        (ask_of message.now command) reply seat.new) (λ _. seat.new.calls ≡ seat.old.calls) }
{
    let alloc = setting.alloc();
    match actor_of(alloc, message) {
        Ok(actor) => match setting
            .turn
            .call(setting.rt, alloc, seat, Ask { actor, command })
        {
            Ok(reply) => return Ok(reply),
            Err(refused) => return Err(refused),
        },
        Err(refused) => {
            drop(command);
            return Err(refused);
        }
    }
}

/// Whether the command may raise a version: users are in nobody's view.
fn is_for_views(command: &AdminCommand) -> bool {
    !matches!(
        command,
        AdminCommand::PutUser { .. } | AdminCommand::DeleteUser { .. }
    )
}

/// Rings the bell where something was changed that a plugin may see.
fn ring_for<R: Wait>(rt: &R, bell: &Bell, for_views: bool, reply: &AdminReply) {
    if for_views && matches!(reply, AdminReply::Done | AdminReply::Kept { .. }) {
        bell.ring(rt);
    }
}

/// Calls the administration, and makes the answer. The bell is rung where something was changed that a plugin may see.
#[tactic(auto, unfolding(rg_rest::specs::Responses::response_of))]
fn administer<P: Recorder, G: Gate, R: Wait>(
    setting: &Setting<P, G, R>,
    seat: &mut Seat<Admin<P>>,
    message: &Message,
    command: AdminCommand,
    part: Part,
) -> Result<Response, NoMemory>
    requires { seat.old.turn ≡ setting.now.turn.now.turn }
    ensures called { IfOk result (IsCall seat.old seat.new message.now command part) }
    ensures status { IfOk result (λ r. IsStatusCode r.status) }
    ensures uncalled { OnErr result (IsUncalled seat.old seat.new
        ⊎ ((r : Response) × IsCall seat.old seat.new message.now command part r)) }
{
    let alloc = setting.alloc();
    let form = AnswerForm::of(&command, part);
    let for_views = is_for_views(&command);
    match call_turn(setting, seat, message, command) {
        Ok(reply) => {
            ring_for(setting.rt, setting.bell, for_views, &reply);
            match reply_response(alloc, form, &reply, message.close) {
                Ok(response) => return Ok(response),
                Err(refused) => return Err(refused),
            }
        }
        Err(refused) => return Err(refused),
    }
}

/// Calls the administration, and writes the answer.
pub(crate) fn answer_call<P: Recorder, T: Link, G: Gate, R: Wait>(
    setting: &Setting<P, G, R>,
    link: &mut T,
    seat: &mut Seat<Admin<P>>,
    message: &Message,
    command: AdminCommand,
    part: Part,
) -> Result<(), LinkFault>
    requires { seat.old.turn ≡ setting.now.turn.now.turn }
    ensures served { OnOk result ((r : Response) × IsCall seat.old seat.new message.now
        command part r × Wrote (T.held link.old) (T.held link.new) (response_text r)) }
    ensures unserved { OnErr result
        ((IsUncalled seat.old seat.new × Wrote (T.held link.old) (T.held link.new) [])
        ⊎ ((r : Response) × (begun : List ℕ) × IsCall seat.old seat.new message.now command part r × Wrote (T.held link.old) (T.held link.new) begun × IsPrefix begun (response_text r))) }
    ensures faults { MatchResult result (λ _. T.faults link.new ≡ T.faults link.old)
        (λ f. Counts f (T.faults link.old) (T.faults link.new)) }
    ensures unread { (T.left link.new ≡ T.left link.old) × (T.ended link.new ≡ T.ended link.old) }
{
    let response = match administer(setting, seat, message, command, part) {
        Ok(response) => response,
        Err(_) => return Err(LinkFault::NoMemory),
    };
    match send(setting.alloc(), link, &response) {
        Ok(()) => Ok(()),
        Err(fault) => Err(fault),
    }
}
