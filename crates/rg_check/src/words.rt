// Causes in words.
ghost use Rattle.std.specs.Prelude.{◌≡◌, ◌++◌, IfOk, OnOk, codes, flat_map, string_bytes};
ghost use Rattle.std.specs.Fmt.{signed_decimal};
ghost use Rattle.rg_cmd.specs.declared.rule.Rule.TheVariants as rule;
ghost use Rattle.rg_validate.specs.Definitions.{definition_rule};
ghost use Rattle.rg_script.specs.declared.cause.Cause.TheVariants.{OutOfPlace};
ghost use Rattle.rg_check.specs.Causes.{at_place, besides, broken_text, cause_text, end_text, json_text, misplaced_text, no_word_text, policy_rule, role_text, standing, tag_row_rule, unsound_text, unsound_texts, wire_name, zone_rule};
ghost use Rattle.rg_check.specs.Commands.{command_word};
ghost use Rattle.rg_check.specs.Kinds.{kind_word};

use crate::command::Command;
use crate::kind::LineKind;
use crate::meanings::meaning;
use crate::spelling::spelled;
use rg_base::{NoMemory, PolicyId, Text, is_empty};
use rg_cmd::Rule;
use rg_facts_check::Unsound;
use rg_roles::RoleFault;
use rg_script::{Cause, Place};
use rg_wire::WireKind;
use std::alloc::Global;

/// The text, in memory of its own.
pub(crate) fn owned(alloc: Global, text: &str) -> Result<String, NoMemory>
    ensures { IfOk result (λ s. string_bytes s ≡ text.now) }
{
    Ok(String::from_str(alloc, text)?)
}

// ---- a line that isn't read, or stands out of place

/// What a line isn't that begins with no word of the command's scripts, or whose word isn't followed by what it needs.
#[tactic(auto, unfolding(crate::specs::Causes::no_word_text))]
fn no_word(command: Command) -> &'static str
    ensures { result.now ≡ no_word_text command }
{
    match command {
        Command::Replay =>
            "none of facts JSON, config JSON, admin ACTOR JSON, refresh and decide JSON",
        Command::Grants =>
            "none of config JSON, admin ACTOR JSON, grant ACTOR JSON, revoke ACTOR JSON and decide JSON",
        Command::Report => "none of facts JSON and report JSON",
        Command::Keep => "none of config JSON, admin ACTOR JSON, reopen and decide JSON",
        Command::Serve => "none of config JSON and admin ACTOR JSON",
    }
}

/// What is said of the end of a script that lacks its configuration.
#[tactic(auto, unfolding(crate::specs::Causes::end_text))]
pub(crate) fn end_words() -> &'static str
    ensures { result.now ≡ end_text }
{
    "the script ends before config"
}

#[tactic(auto, unfolding(crate::specs::Causes::wire_name))]
fn wire_name(kind: WireKind) -> &'static str
    ensures { result.now ≡ wire_name kind }
{
    match kind {
        WireKind::Syntax => "syntax",
        WireKind::Mistyped => "type",
        WireKind::Missing => "missing",
        WireKind::Range => "range",
    }
}

/// The fault of a JSON text; the empty path stands for the whole.
#[tactic(auto, unfolding(crate::specs::Causes::json_text))]
fn json_words(alloc: Global, path: &Text, kind: WireKind) -> Result<String, NoMemory>
    ensures { IfOk result (λ s. string_bytes s ≡ json_text path.now kind) }
{
    let kind = wire_name(kind);
    let path = path.as_str();
    if is_empty(path) {
        return Ok(format!(in alloc; "JSON: {kind}")?);
    }
    let path = spelled(alloc, path)?;
    let path = path.as_str();
    Ok(format!(in alloc; "{path}: {kind}")?)
}

/// What a line of this kind would have to follow at the start of the command's script.
#[tactic(auto, unfolding(crate::specs::Causes::standing))]
fn before(command: Command, kind: LineKind) -> &'static str
    ensures { result.now ≡ standing Place.Start command kind }
{
    match command {
        Command::Replay => match kind {
            LineKind::Decide => "before facts or config",
            _ => "before config",
        },
        Command::Report => "before facts",
        Command::Grants | Command::Keep | Command::Serve => "before config",
    }
}

#[tactic(auto, unfolding(crate::specs::Causes::standing))]
fn standing(place: Place, command: Command, kind: LineKind) -> &'static str
    ensures { result.now ≡ standing place command kind }
{
    match place {
        Place::Start => before(command, kind),
        Place::Facts => "after facts",
        Place::Config => "after config",
    }
}

/// A line of this kind in a script of a command that has no such lines.
fn foreign_words(alloc: Global, command: Command, kind: LineKind) -> Result<String, NoMemory>
    ensures { IfOk result (λ s. string_bytes s
        ≡ kind_word kind ++ (codes " in a script of " ++ command_word command)) }
{
    let word = kind.word();
    let script = command.word();
    Ok(format!(in alloc; "{word} in a script of {script}")?)
}

#[tactic(auto, unfolding(crate::specs::Causes::misplaced_text))]
fn misplaced_words(
    alloc: Global,
    command: Command,
    place: Place,
    kind: LineKind,
) -> Result<String, NoMemory>
    ensures { IfOk result (λ s. string_bytes s ≡ misplaced_text command place kind) }
{
    if !kind.is_of(command) {
        return foreign_words(alloc, command, kind);
    }
    let word = kind.word();
    let standing = standing(place, command, kind);
    Ok(format!(in alloc; "{word} {standing}")?)
}

// ---- a rule that is broken

/// Who breaks which rule, and what it asks.
#[tactic(auto, unfolding(crate::specs::Causes::broken_text))]
fn broken(alloc: Global, who: &str, rule: Rule) -> Result<String, NoMemory>
    ensures { IfOk result (λ s. string_bytes s ≡ broken_text who.now rule) }
{
    let name = rule.name();
    let meaning = meaning(rule);
    Ok(format!(in alloc; "{who} breaks {name} ({meaning})")?)
}

fn definition_rule(number: u8) -> Rule
    ensures { result ≡ definition_rule number }
{
    match number {
        1 => Rule::S1,
        2 => Rule::S2,
        3 => Rule::S3,
        4 => Rule::S4,
        5 => Rule::S5,
        6 => Rule::S6,
        7 => Rule::S7,
        _ => Rule::S8,
    }
}

fn policy_rule(number: u8) -> Rule
    ensures { result ≡ policy_rule number }
{
    match number {
        3 => Rule::V3,
        4 => Rule::V4,
        5 => Rule::V5,
        6 => Rule::V6,
        7 => Rule::V7,
        8 => Rule::V8,
        9 => Rule::V9,
        10 => Rule::V10,
        11 => Rule::V11,
        12 => Rule::V12,
        _ => Rule::V14,
    }
}

fn zone_rule(number: u8) -> Rule
    ensures { result ≡ zone_rule number }
{
    match number {
        2 => Rule::Z2,
        3 => Rule::Z3,
        4 => Rule::Z4,
        _ => Rule::Z5,
    }
}

fn tag_row_rule(number: u8) -> Rule
    ensures { result ≡ tag_row_rule number }
{
    match number {
        2 => Rule::G2,
        _ => Rule::G3,
    }
}

// ---- facts that aren't sound

/// An item of the list at this path.
#[tactic(auto, unfolding(crate::specs::Causes::at_place))]
fn at_place(alloc: Global, path: &str, place: u64) -> Result<String, NoMemory>
    ensures { IfOk result (λ s. string_bytes s ≡ at_place path.now place) }
{
    Ok(format!(in alloc; "{path}/{place}")?)
}

/// What is wrong with the role at this place.
fn role_at(alloc: Global, place: u32, wrong: &str) -> Result<String, NoMemory>
    ensures { IfOk result (λ s. string_bytes s ≡ at_place (codes "/roles") place ++ wrong.now) }
{
    let role = at_place(alloc, "/roles", place as u64)?;
    let role = role.as_str();
    Ok(format!(in alloc; "{role}{wrong}")?)
}

#[tactic(auto, unfolding(crate::specs::Causes::role_text))]
fn role_words(alloc: Global, fault: RoleFault) -> Result<String, NoMemory>
    ensures { IfOk result (λ s. string_bytes s ≡ role_text fault) }
{
    match fault {
        RoleFault::Duplicate(place) => role_at(alloc, place, " has the name of a role before it"),
        RoleFault::Unknown(place) => role_at(alloc, place, " names a role that isn't there"),
        RoleFault::Cycle(place) => role_at(alloc, place, " holds itself"),
        RoleFault::NoMemory => owned(alloc, "/roles are too many"),
    }
}

fn policy_words(alloc: Global, id: PolicyId, rule: u8) -> Result<String, NoMemory>
    ensures { IfOk result (λ s. string_bytes s
        ≡ broken_text (codes "policy " ++ signed_decimal id.0) (policy_rule rule)) }
{
    let id = id.0;
    let who = format!(in alloc; "policy {id}")?;
    broken(alloc, who.as_str(), policy_rule(rule))
}

fn zone_words(alloc: Global, place: usize, rule: u8) -> Result<String, NoMemory>
    ensures { IfOk result
        (λ s. string_bytes s ≡ broken_text (at_place (codes "/zones") place) (zone_rule rule)) }
{
    let who = at_place(alloc, "/zones", place as u64)?;
    broken(alloc, who.as_str(), zone_rule(rule))
}

fn overlap_words(alloc: Global, one: u32, other: u32) -> Result<String, NoMemory>
    ensures { IfOk result (λ s. string_bytes s ≡ broken_text (at_place (codes "/zones") one
        ++ (codes " with " ++ at_place (codes "/zones") other)) rule.Z6) }
{
    let one = at_place(alloc, "/zones", one as u64)?;
    let other = at_place(alloc, "/zones", other as u64)?;
    let one = one.as_str();
    let other = other.as_str();
    let who = format!(in alloc; "{one} with {other}")?;
    broken(alloc, who.as_str(), Rule::Z6)
}

fn tag_row_words(alloc: Global, id: i64, rule: u8) -> Result<String, NoMemory>
    ensures { IfOk result (λ s. string_bytes s
        ≡ broken_text (codes "tag row " ++ signed_decimal id) (tag_row_rule rule)) }
{
    let who = format!(in alloc; "tag row {id}")?;
    broken(alloc, who.as_str(), tag_row_rule(rule))
}

fn time_zone_words(alloc: Global, place: u32) -> Result<String, NoMemory>
    ensures { IfOk result
        (λ s. string_bytes s ≡ broken_text (at_place (codes "/timeZones") place) rule.U2) }
{
    let who = at_place(alloc, "/timeZones", place as u64)?;
    broken(alloc, who.as_str(), Rule::U2)
}

#[tactic(auto, unfolding(crate::specs::Causes::unsound_text))]
fn unsound_words(alloc: Global, unsound: Unsound) -> Result<String, NoMemory>
    ensures { IfOk result (λ s. string_bytes s ≡ unsound_text unsound) }
{
    match unsound {
        Unsound::Version => owned(alloc, "a version is past 2^62"),
        Unsound::Definition(rule) => broken(alloc, "/serviceDef", definition_rule(rule)),
        Unsound::TagDefinition(rule) => broken(alloc, "/tagServiceDef", definition_rule(rule)),
        Unsound::TagName => owned(alloc, "/tagServiceDef isn't named tag"),
        Unsound::NoTagDefinition => owned(alloc, "/tagPolicies without /tagServiceDef"),
        Unsound::PolicyIds => owned(alloc, "the ids of policies aren't positive and distinct"),
        Unsound::Roles(fault) => role_words(alloc, fault),
        Unsound::Policy(id, rule) => policy_words(alloc, id, rule),
        Unsound::Zone(place, rule) => zone_words(alloc, place, rule),
        Unsound::Overlap(one, other) => overlap_words(alloc, one, other),
        Unsound::TagRow(id, rule) => tag_row_words(alloc, id, rule),
        Unsound::TagRowIds => owned(alloc, "two tag rows have one id"),
        Unsound::TimeZone(place) => time_zone_words(alloc, place),
    }
}

/// Adds what makes facts unsound besides.
fn add_unsound(alloc: Global, unsound: Unsound, text: &mut String) -> Result<(), NoMemory>
    ensures { OnOk result (string_bytes text.new ≡ string_bytes text.old ++ besides unsound) }
{
    let words = unsound_words(alloc, unsound)?;
    let words = words.as_str();
    match write!(text, "; {words}") {
        Ok(()) => Ok(()),
        Err(_) => Err(NoMemory),
    }
}

fn add_all_unsound(alloc: Global, list: &[Unsound], text: &mut String) -> Result<(), NoMemory>
    ensures { OnOk result (string_bytes text.new
        ≡ string_bytes text.old ++ flat_map besides list.now) }
{
    for unsound in list {
        add_unsound(alloc, *unsound, text)?;
    }
    Ok(())
}

/// Everything that makes facts unsound.
#[tactic(auto, unfolding(crate::specs::Causes::unsound_texts))]
fn all_unsound_words(alloc: Global, list: &[Unsound]) -> Result<String, NoMemory>
    ensures { IfOk result (λ s. string_bytes s ≡ unsound_texts list.now) }
{
    match list {
        [] => owned(alloc, ""),
        [first, later @ ..] => {
            let mut text = unsound_words(alloc, *first)?;
            add_all_unsound(alloc, later, &mut text)?;
            Ok(text)
        }
    }
}

// ---- all causes

/// What is wrong with a line of this kind that stands out of place.
#[tactic(auto, unfolding(crate::specs::Causes::cause_text))]
fn out_of_place(
    alloc: Global,
    command: Command,
    place: Place,
    kind: Option<LineKind>,
) -> Result<String, NoMemory>
    ensures { IfOk result (λ s. string_bytes s ≡ cause_text command place kind OutOfPlace) }
{
    match kind {
        Some(kind) => misplaced_words(alloc, command, place, kind),
        None => owned(alloc, no_word(command)),
    }
}

/// Why a line of this kind is bad where it stands, in words.
#[tactic(auto, unfolding(crate::specs::Causes::cause_text))]
pub(crate) fn cause_words(
    alloc: Global,
    command: Command,
    place: Place,
    kind: Option<LineKind>,
    cause: &Cause,
) -> Result<String, NoMemory>
    ensures { IfOk result (λ s. string_bytes s ≡ cause_text command place kind cause.now) }
{
    match cause {
        Cause::NoWord => owned(alloc, no_word(command)),
        Cause::Json { path, kind } => json_words(alloc, path, *kind),
        Cause::OutOfPlace => out_of_place(alloc, command, place, kind),
        Cause::Unsound(list) => all_unsound_words(alloc, list.as_slice()),
        Cause::Refused(rule) => broken(alloc, "the configuration", *rule),
    }
}
