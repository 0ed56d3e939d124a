// What is answered to a call that was worked.
ghost use Rattle.std.specs.Prelude.{◌≡◌, [], IfOk, true};
ghost use Rattle.std.specs.Str.{encode_utf8_all};
ghost use Rattle.http.specs.StatusCode.{IsStatusCode};
ghost use Rattle.rg_cmd_wire.specs.PrintedReplies.{refusal_text};
ghost use Rattle.rg_rest.specs.Bodies.{answer};
ghost use Rattle.rg_rest.specs.Responses.{answer_form, decision_response, deletes, done, is_command, part_answer, policies_answer, refusal_status, reply_answer, response_of, roles_answer, tags_answer};

use crate::bodies::answer;
use crate::call::Call;
use http::StatusCode;
use rg_base::{NoMemory, Text};
use rg_cmd::{AdminCommand, AdminReply, Download, Part, PolicyPart, RolePart, Rule, TagPart};
use rg_cmd_wire::{
    print_kept, print_policies, print_policy_part, print_refusal, print_role_part, print_tag_part,
};
use rg_facts::Decision;
use rg_http::Response;
use rg_wire::{print_decision, print_policy};
use std::alloc::Global;

/// What the answer to a command follows from beside its reply. It is known before the command is moved into its call.
#[derive(Clone, Copy, Debug, PartialEq, Eq)]
pub struct AnswerForm {
    /// Whether the command deletes something.
    pub deletes: bool,
    /// The part of a download that is answered.
    pub part: Part,
}

impl AnswerForm {
    /// That of the command, whose route answers this part.
    pub fn of(command: &AdminCommand, part: Part) -> AnswerForm
        ensures { result ≡ answer_form command.now part }
    {
        AnswerForm {
            deletes: deletes(command),
            part,
        }
    }
}

// Whether the command deletes something.
#[tactic(auto, unfolding(crate::specs::Responses::deletes))]
fn deletes(command: &AdminCommand) -> bool
    ensures { result ≡ deletes command.now }
{
    matches!(
        command,
        AdminCommand::DeleteService { .. }
            | AdminCommand::DeletePolicy { .. }
            | AdminCommand::DeleteRole { .. }
            | AdminCommand::DeleteZone { .. }
            | AdminCommand::DeleteTags { .. }
            | AdminCommand::DeleteUser { .. }
    )
}

// The status of a refusal: that of the rule's family.
#[tactic(auto, unfolding(crate::specs::Responses::refusal_status))]
fn refusal_status(rule: Rule) -> StatusCode
    ensures { result ≡ refusal_status rule }
{
    match rule {
        Rule::L1 => StatusCode::SERVICE_UNAVAILABLE,
        Rule::E1 | Rule::E2 | Rule::E3 | Rule::E4 | Rule::E5 | Rule::E6 | Rule::E7 => {
            StatusCode::NOT_FOUND
        }
        Rule::A1 | Rule::A2 | Rule::A3 | Rule::A4 | Rule::A5 => StatusCode::FORBIDDEN,
        _ => StatusCode::BAD_REQUEST,
    }
}

// The answer where all is done.
fn done(alloc: Global, deletes: bool, close: bool) -> Result<Response, NoMemory>
    ensures { IfOk result (λ r. r ≡ done deletes close) }
{
    if deletes {
        answer(alloc, StatusCode::NO_CONTENT, "", close)
    } else {
        answer(alloc, StatusCode::OK, "{\"done\":true}", close)
    }
}

// The answer that has this text.
fn told(alloc: Global, text: &Text, close: bool) -> Result<Response, NoMemory>
    ensures { IfOk result (λ r. r ≡ answer 200 (encode_utf8_all text.now) close) }
{
    answer(alloc, StatusCode::OK, text.as_str(), close)
}

// The answer to a sender that lacks nothing.
fn unchanged(alloc: Global, close: bool) -> Result<Response, NoMemory>
    ensures { IfOk result (λ r. r ≡ answer 304 [] close) }
{
    answer(alloc, StatusCode::NOT_MODIFIED, "", close)
}

fn policies_answer(alloc: Global, part: &PolicyPart, close: bool) -> Result<Response, NoMemory>
    ensures { IfOk result (λ r. r ≡ policies_answer part.now close) }
{
    match part {
        PolicyPart::Unchanged => unchanged(alloc, close),
        PolicyPart::Delta(_) | PolicyPart::Whole(_) => {
            let text = print_policy_part(alloc, part)?;
            told(alloc, &text, close)
        }
    }
}

fn tags_answer(alloc: Global, part: &TagPart, close: bool) -> Result<Response, NoMemory>
    ensures { IfOk result (λ r. r ≡ tags_answer part.now close) }
{
    match part {
        TagPart::Unchanged => unchanged(alloc, close),
        TagPart::Delta(_) | TagPart::Whole(_) => {
            let text = print_tag_part(alloc, part)?;
            told(alloc, &text, close)
        }
    }
}

fn roles_answer(alloc: Global, part: &RolePart, close: bool) -> Result<Response, NoMemory>
    ensures { IfOk result (λ r. r ≡ roles_answer part.now close) }
{
    match part {
        RolePart::Unchanged => unchanged(alloc, close),
        RolePart::Whole(_) => {
            let text = print_role_part(alloc, part)?;
            told(alloc, &text, close)
        }
    }
}

// The answer that has the part that is asked, and no other.
fn part_answer(
    alloc: Global,
    part: Part,
    download: &Download,
    close: bool,
) -> Result<Response, NoMemory>
    ensures { IfOk result (λ r. r ≡ part_answer part download.now close) }
{
    match part {
        Part::Policies => policies_answer(alloc, &download.policies, close),
        Part::Tags => tags_answer(alloc, &download.tags, close),
        Part::Roles => roles_answer(alloc, &download.roles, close),
    }
}

// The answer to a refused command.
fn refused(alloc: Global, rule: Rule, close: bool) -> Result<Response, NoMemory>
    ensures { IfOk result (λ r. r ≡ answer (refusal_status rule) (refusal_text rule) close) }
{
    let text = print_refusal(alloc, rule)?;
    answer(alloc, refusal_status(rule), text.as_str(), close)
}

/// The answer of this form to a command with this reply. After it the connection is closed where `close` says so.
#[tactic(auto, using(crate::proofs::Statuses::statuses))]
pub fn reply_response(
    alloc: Global,
    form: AnswerForm,
    reply: &AdminReply,
    close: bool,
) -> Result<Response, NoMemory>
    ensures answer { IfOk result (λ r. r ≡ reply_answer form reply.now close) }
    ensures status { IfOk result (λ r. IsStatusCode r.status) }
{
    match reply {
        AdminReply::Done => done(alloc, form.deletes, close),
        AdminReply::Kept { id, version } => {
            let text = print_kept(alloc, *id, *version)?;
            told(alloc, &text, close)
        }
        AdminReply::Found(policy) => {
            let text = print_policy(alloc, policy)?;
            told(alloc, &text, close)
        }
        AdminReply::Listed(policies) => {
            let text = print_policies(alloc, policies)?;
            told(alloc, &text, close)
        }
        AdminReply::Downloaded(download) => part_answer(alloc, form.part, download, close),
        AdminReply::Refused(rule) => refused(alloc, *rule, close),
    }
}

/// The answer to a command with this reply. After it the connection is closed where `close` says so.
#[tactic(auto, using(crate::proofs::Statuses::statuses), unfolding(crate::specs::Responses::response_of))]
pub fn response_of(
    alloc: Global,
    call: &Call,
    reply: &AdminReply,
    close: bool,
) -> Result<Response, NoMemory>
    requires command { is_command call.now ≡ true }
    ensures answer { IfOk result (λ r. r ≡ response_of call.now reply.now close) }
    ensures status { IfOk result (λ r. IsStatusCode r.status) }
{
    match call {
        Call::Admin(command, part) => {
            reply_response(alloc, AnswerForm::of(command, *part), reply, close)
        }
        Call::Decide(_) | Call::Answer(_) => unreachable!(),
    }
}

/// The answer to a decision: its line, without the LF.
#[tactic(auto, unfolding(crate::specs::Responses::decision_response))]
pub fn decision_response(
    alloc: Global,
    decision: &Decision,
    close: bool,
) -> Result<Response, NoMemory>
    ensures answer { IfOk result (λ r. r ≡ decision_response decision.now close) }
    ensures status { IfOk result (λ r. IsStatusCode r.status) }
{
    let text = print_decision(alloc, decision)?;
    told(alloc, &text, close)
}
