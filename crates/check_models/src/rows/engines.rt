// Engines that are built and moved, and what they count: policies that are compiled, edits of an index, and policies that are tried.
//
// `build|COUNT`: an engine of policies 1 to COUNT, each of which lets ann select in the database of its number, d1, d2 .. Counts begin
// anew.
// `build maps|ELEMENTS|ELEMENTS`: the same of policy 1 alone, with two maps.
// `move|FROM|CHANGE|CHANGE..`: moves the engine by a delta of policies from that version to version 8. The first engine has version 5.
// `ask|ELEMENTS`: the verdict on ann's request to select there; `ask before|ELEMENTS`: that of the engine that was moved last.
// `decide|ELEMENTS`: the access of the whole decision.
// `counted`: the counts so far. `counted at most|COMPILES|EDITS|TRIES`: whether they are no greater. `more at most|COMPILES|EDITS`:
// whether they rose by no more since a row of the two kinds.
ghost use Rattle.std.specs.Prelude.{◌≤◌};

use super::asked::{number, read_change, request};
use super::{Table, yes_or_no};
use crate::lists::add;
use crate::reading::{self, judged};
use rg_base::{Counted, NoMemory, Seq, Steps, Version};
use rg_cmd::{Part, PolicyChange, PolicyDelta, RoleDelta, TagDelta};
use rg_delta::apply_plain;
use rg_engine::{ApplyFault, Engine};
use rg_facts::{ItemPlace, Verdict};
use rg_policy::Policy;
use rg_shared::Shared;
use rg_wire::access_word;
use std::alloc::{AllocError, Global};

const DEF: &str =
    r#"{"name":"hive","resources":[{"name":"database","level":10},{"name":"table","level":20,"parent":"database"},{"name":"column","level":30,"parent":"table"}],"accessTypes":[{"name":"select"}]}"#;

// ---- what is built

/// The map of these elements.
fn map_text(alloc: Global, elements: &str) -> Result<String, AllocError> {
    let mut levels = String::new(alloc);
    for part in elements.split(';') {
        let (level, value) = part.split_once('=').unwrap_or((part, ""));
        let one = format!(in alloc; "\"{level}\":{{\"values\":[\"{value}\"]}}")?;
        add(&mut levels, one.as_str())?;
    }
    format!(in alloc; "{{{levels}}}")
}

/// A policy that lets ann select there; `more` are maps behind the first.
fn policy_text(alloc: Global, id: i64, elements: &str, more: &str) -> Result<String, AllocError> {
    let map = map_text(alloc, elements)?;
    format!(in alloc;
        "{{\"id\":{id},\"service\":\"hive1\",\"name\":\"p\",\"resources\":{map},\"additionalResources\":[{more}],\"policyItems\":[{{\"users\":[\"ann\"],\"accesses\":[{{\"type\":\"select\"}}]}}]}}"
    )
}

fn policy(alloc: Global, id: i64, elements: &str) -> Result<Policy, NoMemory> {
    let text = policy_text(alloc, id, elements, "")?;
    reading::policy(alloc, text.as_str())
}

/// The policies from 1 on, each on the database of its number.
fn policies_text(alloc: Global, count: i64) -> Result<String, AllocError> {
    let mut policies = String::new(alloc);
    for place in 0..count {
        let id = place.saturating_add(1);
        let database = format!(in alloc; "database=d{id}")?;
        let policy = policy_text(alloc, id, database.as_str(), "")?;
        add(&mut policies, policy.as_str())?;
    }
    Ok(policies)
}

/// The engine of these policies.
fn engine_of(
    alloc: Global,
    policies: &str,
    steps: &mut Steps<Counted>,
) -> Result<Engine, NoMemory> {
    let text = format!(in alloc;
        "{{\"service\":\"hive1\",\"serviceDef\":{DEF},\"policies\":[{policies}],\"policyVersion\":5,\"tagVersion\":5,\"roleVersion\":5}}"
    )?;
    let facts = reading::facts(alloc, text.as_str())?;
    let facts = judged(alloc, facts)?;
    Engine::build(alloc, facts, steps)
}

// ---- what it is moved by

fn policy_change(alloc: Global, written: &str) -> Result<PolicyChange, NoMemory> {
    let change = read_change(written);
    Ok(PolicyChange {
        change_type: change.change_type,
        tag: change.is_tag,
        policy: Shared::new(alloc, policy(alloc, change.id, change.what)?)?,
    })
}

fn changes(alloc: Global, asked: &str) -> Result<Seq<PolicyChange>, NoMemory> {
    let mut changes = Seq::new(alloc);
    for written in asked.split('|') {
        changes.add(policy_change(alloc, written)?)?;
    }
    Ok(changes)
}

/// The engine after changes of policies from this version on to version 8, which leave the facts sound.
fn moved(
    alloc: Global,
    engine: &Engine,
    from: u64,
    changes: Seq<PolicyChange>,
    steps: &mut Steps<Counted>,
) -> Result<Engine, ApplyFault>
    requires { from ≤ 8 }
{
    let policies = PolicyDelta {
        from: Version(from),
        to: Version(8),
        changes,
        zones: None,
    };
    let tags = TagDelta {
        from: Version(5),
        to: Version(5),
        changes: Seq::new(alloc),
    };
    let roles = RoleDelta {
        from: Version(5),
        to: Version(5),
        roles: None,
    };
    let before = engine.facts(alloc)?;
    let after = apply_plain(alloc, before, &policies, &tags, &roles)?;
    let after = judged(alloc, after)?;
    drop(after);
    engine.apply(alloc, &policies, &tags, &roles, steps)
}

// ---- what is told

fn count_of(field: Option<&str>) -> u64 {
    field.unwrap_or("").parse::<u64>().unwrap_or(0)
}

fn place_of(place: Option<ItemPlace>) -> i64 {
    match place {
        Some(place) => place.policy.0,
        None => -1,
    }
}

fn verdict_text(alloc: Global, verdict: Verdict) -> Result<String, NoMemory> {
    let access = access_word(verdict.access);
    let policy = verdict.policy.0;
    let audited = yes_or_no(verdict.audited);
    let filter = place_of(verdict.filter);
    let mask = place_of(verdict.mask);
    Ok(format!(in alloc;
        "{access} by {policy}, audited {audited}, row filter of {filter}, mask of {mask}"
    )?)
}

fn part_word(part: Part) -> &'static str {
    match part {
        Part::Policies => "policies",
        Part::Tags => "tags",
        Part::Roles => "roles",
    }
}

/// Why the engine wasn't moved.
fn fault_text(alloc: Global, fault: ApplyFault) -> Result<String, NoMemory> {
    match fault {
        ApplyFault::WrongBase { part, have, from } => {
            let part = part_word(part);
            let have = have.0;
            let from = from.0;
            Ok(format!(in alloc; "{part} stand at {have} and not at {from}")?)
        }
        ApplyFault::NoMemory => Err(NoMemory),
    }
}

/// The verdict of the engine on a request for these elements.
fn ask(
    alloc: Global,
    engine: &Option<Engine>,
    elements: &str,
    steps: &mut Steps<Counted>,
) -> Result<String, NoMemory> {
    let Some(engine) = engine else {
        return Err(NoMemory);
    };
    let request = request(alloc, elements)?;
    verdict_text(alloc, engine.verdict(&request, steps))
}

// ---- the rows

const NOTHING: Counted = Counted {
    compiles: 0,
    edits: 0,
    tries: 0,
};

/// The engine, the one that was moved to it, the counts, and what a row of counts told last.
#[derive(Drop)]
pub(super) struct EngineTable {
    engine: Option<Engine>,
    before: Option<Engine>,
    steps: Steps<Counted>,
    told: Counted,
}

impl EngineTable {
    /// No engine, before the first row builds one.
    pub(super) fn start() -> EngineTable {
        EngineTable {
            engine: None,
            before: None,
            steps: Steps::counted(),
            told: NOTHING,
        }
    }

    fn build(&mut self, alloc: Global, policies: &str) -> Result<String, NoMemory> {
        let mut steps = Steps::counted();
        let engine = engine_of(alloc, policies, &mut steps)?;
        self.engine = Some(engine);
        self.before = None;
        self.steps = steps;
        self.told = NOTHING;
        Ok(String::from_str(alloc, "built")?)
    }

    fn build_count(&mut self, alloc: Global, count: &str) -> Result<String, NoMemory> {
        let policies = policies_text(alloc, number(count))?;
        self.build(alloc, policies.as_str())
    }

    fn build_maps(&mut self, alloc: Global, maps: &str) -> Result<String, NoMemory> {
        let (first, second) = maps.split_once('|').unwrap_or((maps, ""));
        let second = map_text(alloc, second)?;
        let policy = policy_text(alloc, 1, first, second.as_str())?;
        self.build(alloc, policy.as_str())
    }

    fn move_on(&mut self, alloc: Global, asked: &str) -> Result<String, NoMemory> {
        let (from, written) = asked.split_once('|').unwrap_or((asked, ""));
        let from = count_of(Some(from)).min(8);
        let changes = changes(alloc, written)?;
        let Some(engine) = &self.engine else {
            return Err(NoMemory);
        };
        match moved(alloc, engine, from, changes, &mut self.steps) {
            Ok(after) => {
                self.before = self.engine.take();
                self.engine = Some(after);
                Ok(String::from_str(alloc, "moved")?)
            }
            Err(fault) => fault_text(alloc, fault),
        }
    }

    fn decide(&mut self, alloc: Global, elements: &str) -> Result<String, NoMemory> {
        let Some(engine) = &self.engine else {
            return Err(NoMemory);
        };
        let request = request(alloc, elements)?;
        let decision = engine.decide(alloc, &request, &mut self.steps)?;
        Ok(String::from_str(alloc, access_word(decision.access))?)
    }

    /// The counts, of which is noted that they were told.
    fn counts(&mut self) -> Counted {
        self.told = *self.steps.ledger();
        self.told
    }

    fn counted(&mut self, alloc: Global) -> Result<String, NoMemory> {
        let Counted {
            compiles,
            edits,
            tries,
        } = self.counts();
        Ok(format!(in alloc; "{compiles} compiles, {edits} edits, {tries} tries")?)
    }

    fn at_most(&mut self, alloc: Global, asked: &str) -> Result<String, NoMemory> {
        let counts = self.counts();
        let mut fields = asked.split('|');
        let compiles = counts.compiles <= count_of(fields.next());
        let edits = counts.edits <= count_of(fields.next());
        let tries = counts.tries <= count_of(fields.next());
        Ok(String::from_str(alloc, yes_or_no(compiles && edits && tries))?)
    }

    fn more_at_most(&mut self, alloc: Global, asked: &str) -> Result<String, NoMemory> {
        let told = self.told;
        let counts = self.counts();
        let mut fields = asked.split('|');
        let compiles = told.compiles.saturating_add(count_of(fields.next()));
        let edits = told.edits.saturating_add(count_of(fields.next()));
        let is_so = counts.compiles <= compiles && counts.edits <= edits;
        Ok(String::from_str(alloc, yes_or_no(is_so))?)
    }
}

impl Table for EngineTable {
    fn answer(&mut self, alloc: Global, word: &str, asked: &str) -> Result<String, NoMemory> {
        match word {
            "build" => self.build_count(alloc, asked),
            "build maps" => self.build_maps(alloc, asked),
            "move" => self.move_on(alloc, asked),
            "ask" => ask(alloc, &self.engine, asked, &mut self.steps),
            "ask before" => ask(alloc, &self.before, asked, &mut self.steps),
            "decide" => self.decide(alloc, asked),
            "counted" => self.counted(alloc),
            "counted at most" => self.at_most(alloc, asked),
            "more at most" => self.more_at_most(alloc, asked),
            _ => Err(NoMemory),
        }
    }
}
