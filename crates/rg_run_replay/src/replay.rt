// The command `replay`: a script of facts, or of an administration and its plugin.
ghost use Rattle.std.specs.Prelude.{◌≡◌, ◌++◌, [], Err, None, Some, true, IfOk, OnErr, OnOk, option_map, string_bytes};
ghost use Rattle.rg_facts.specs.Sound.{sound};
ghost use Rattle.rg_session.specs.Starting.{start_fault};
ghost use Rattle.rg_run_replay.specs.Running.{opened_unless};
ghost use Rattle.rg_run_script.specs.Follow.{IsWorked};
ghost use Rattle.rg_run_script.specs.Hooked.{HaveRunOn, IsAudited, hooked, hooks_of};
ghost use Rattle.rg_run_replay.specs.Replay.{admin_work, config_work, decision_by_newest, facts_work, judge_work, newest_of, prepare_work, published_facts, refresh_line, refresh_work, request_in};
ghost use Rattle.rg_run_replay.specs.Replay.{AreSound};

use crate::running::Running;
use rg_base::{Moment, NoMemory, Serial, Steps, Text, TryCopy};
use rg_cmd::{Ask, Config};
use rg_facts::{Decision, Facts};
use rg_hook::RequestHooks;
use rg_policy::AccessRequest;
use rg_publish::{Engine, numbered};
use rg_run_script::{Decider, HookedWorker, add_reply, judge};
use rg_script::{Line, LineFault, facts_fault, read_line};
use std::alloc::Global;
use std::marker::Model;
use std::mem;
use std::sync::{Arc, Wait};

/// The engine over the facts of a script, and the name of their service. Contracts see the facts.
#[derive(Drop)]
pub struct Published {
    service: Text,
    engine: Arc<Engine>,
}

impl Model for Published {
    ghost use Rattle.std.specs.Prelude.{◌≡◌};
    ghost use Rattle.std.specs.Arc.{arc_value};
    ghost use Rattle.rg_facts.specs.declared.facts.Facts.{Facts};

    ghost Value = { Facts };

    ghost view = { λ p. arc_value p.engine };

    ghost invariant = { λ p. p.service ≡ (arc_value p.engine).service };
}

impl Published {
    /// The engine, by which reports are made too.
    pub fn engine(&self) -> &Engine
        ensures { result.now ≡ self.now }
    {
        &self.engine
    }
}

impl Decider for Published {
    ghost use Rattle.std.specs.Prelude.{Some};
    ghost use Rattle.rg_publish.specs.Passes.{decision_of};
    ghost use Rattle.rg_publish.specs.Publications.{publication};

    ghost served = { λ facts. facts.service };

    ghost decides = { λ facts q. Some (decision_of (publication 1 0 facts) q) };

    fn service(&self) -> &str {
        self.service.as_str()
    }

    fn decide(&mut self, alloc: Global, request: &AccessRequest) -> Result<Decision, NoMemory> {
        let engine = &*self.engine;
        let decision = engine.decide(alloc, request, &mut Steps::silent())?;
        Ok(numbered(decision, Serial(1)))
    }
}

/// The administration of a script. Contracts see it as it is running.
#[derive(Drop)]
pub(crate) struct Administered<'a, R: Wait> {
    running: Box<Running<&'a R>>,
}

impl<'a, R: Wait> Model for Administered<'a, R> {
    ghost use Rattle.std.specs.Box.{box_value};
    ghost use Rattle.rg_run_replay.specs.Running as the;

    ghost Value = { the.Running };

    ghost view = { λ a. box_value a.running };
}

impl<'a, R: Wait> Decider for Administered<'a, R> {
    ghost use Rattle.std.specs.Prelude.{option_map};
    ghost use Rattle.rg_publish.specs.Passes.{decision_of};
    ghost use Rattle.rg_run_replay.specs.Running.{newest};

    ghost served = { λ r. r.plugin };

    ghost decides = { λ r q. option_map (λ p. decision_of p q) (newest r) };

    fn service(&self) -> &str {
        self.running.plugin()
    }

    fn decide(&mut self, alloc: Global, request: &AccessRequest) -> Result<Decision, NoMemory> {
        self.running.decide(alloc, request, &mut Steps::silent())
    }
}

/// How far a script has come.
#[derive(Drop)]
pub enum Stage<A> {
    /// There were only blank lines.
    Empty,
    /// Facts are published.
    Facts(Published),
    /// An administration is running.
    Config(A),
}

/// A script that is worked. Contracts see how far it has come.
#[derive(Drop)]
pub struct Replay<'a, R: Wait> {
    rt: &'a R,
    stage: Stage<Administered<'a, R>>,
}

impl<'a, R: Wait> Model for Replay<'a, R> {
    ghost use Rattle.rg_run_replay.specs.Replay.{State};

    ghost Value = { State };

    ghost view = { λ r. r.stage };
}

/// Adds the line of a refresh.
#[tactic(auto, unfolding(crate::specs::Replay::refresh_line))]
fn add_refresh(text: &mut String, published: Option<Serial>) -> Result<(), NoMemory>
    ensures { OnOk result (string_bytes text.new
        ≡ string_bytes text.old ++ refresh_line published) }
{
    let written = match published {
        Some(Serial(serial)) => writeln!(text, "{{\"published\":{serial}}}"),
        None => writeln!(text, "{{\"unchanged\":true}}"),
    };
    match written {
        Ok(()) => Ok(()),
        Err(_) => Err(NoMemory),
    }
}

// ---- the work of a line

/// The engine over facts that are sound.
fn build(alloc: Global, facts: Facts) -> Result<Option<Published>, NoMemory>
    requires { sound facts ≡ true }
    ensures { IfOk result (λ engine. engine ≡ Some facts) }
{
    let service = match facts.service.try_copy(alloc) {
        Ok(service) => service,
        Err(refused) => {
            drop(facts);
            return Err(refused);
        }
    };
    let engine = Engine::build(alloc, facts, &mut Steps::silent())?;
    let engine = Arc::new(alloc, engine)?;
    Ok(Some(Published { service, engine }))
}

/// The engine over facts that are sound; None for facts that aren't.
pub fn publish(alloc: Global, facts: Facts) -> Result<Option<Published>, NoMemory>
    ensures made { IfOk result (λ engine. engine ≡ published_facts facts) }
    ensures sound { IfOk result (λ engine. AreSound engine) }
{
    match facts_fault(alloc, &facts) {
        Ok(false) => build(alloc, facts),
        Ok(true) => {
            drop(facts);
            Ok(None)
        }
        Err(refused) => {
            drop(facts);
            Err(refused)
        }
    }
}

/// The administration that the configuration starts; None where it breaks a rule.
fn administer<'a, R: Wait>(
    rt: &'a R,
    alloc: Global,
    config: Config,
) -> Result<Option<Administered<'a, R>>, NoMemory>
    ensures { IfOk result (λ running. running ≡ opened_unless (start_fault config) config) }
{
    let Some(running) = Running::start(rt, alloc, config)? else {
        return Ok(None);
    };
    let running = Box::new(alloc, running)?;
    Ok(Some(Administered { running }))
}

/// Asks the administration, and adds the line of its reply.
fn ask_and_print<R: Wait>(
    rt: &R,
    alloc: Global,
    administered: &mut Administered<R>,
    ask: Ask,
    text: &mut String,
) -> Result<(), NoMemory>
    ensures { OnOk result (IsWorked (admin_work (Stage.Config administered.old) ask)
        (Stage.Config administered.new) (string_bytes text.old) (string_bytes text.new)) }
{
    let reply = administered.running.ask(rt, alloc, ask)?;
    add_reply(alloc, text, reply)
}

/// Refreshes the plugin, and adds the line of what was published.
fn refresh_and_print<R: Wait>(
    rt: &R,
    alloc: Global,
    administered: &mut Administered<R>,
    text: &mut String,
) -> Result<(), NoMemory>
    ensures { OnOk result (IsWorked (refresh_work (Stage.Config administered.old))
        (Stage.Config administered.new) (string_bytes text.old) (string_bytes text.new)) }
{
    let published = administered
        .running
        .refresh(rt, alloc, &mut Steps::silent())?;
    add_refresh(text, published)
}

/// An ask that stands out of place is let go.
fn refuse(_ask: Ask) -> LineFault
    ensures { result ≡ LineFault.Bad }
{
    LineFault::Bad
}

impl<'a, R: Wait> Replay<'a, R> {
    /// A script of which no line is worked yet.
    pub fn new(rt: &'a R) -> Replay<'a, R>
        ensures { result ≡ Stage.Empty }
    {
        Replay {
            rt,
            stage: Stage::Empty,
        }
    }

    /// A copy of the facts of what is published last; None where nothing is.
    pub fn newest_facts(&self, alloc: Global) -> Result<Option<Facts>, NoMemory>
        ensures newest { IfOk result
            (λ facts. facts ≡ option_map (λ p. p.facts) (newest_of self.now)) }
        ensures sound { IfOk result (λ facts. AreSound facts) }
    {
        match &self.stage {
            Stage::Empty => Ok(None),
            Stage::Facts(published) => Ok(Some(published.engine().facts(alloc)?)),
            Stage::Config(administered) => Ok(Some(administered.running.facts(alloc)?)),
        }
    }

    /// What is decided on the request by what is published last; None where nothing is.
    pub fn newest_decision(
        &mut self,
        alloc: Global,
        request: &AccessRequest,
    ) -> Result<Option<Decision>, NoMemory>
        ensures same { self.new ≡ self.old }
        ensures decision { IfOk result (λ d. d ≡ decision_by_newest self.old request.now) }
    {
        let decided = match &mut self.stage {
            Stage::Empty => return Ok(None),
            Stage::Facts(published) => published.decide(alloc, request),
            Stage::Config(administered) => administered.decide(alloc, request),
        };
        match decided {
            Ok(decision) => Ok(Some(decision)),
            Err(refused) => Err(refused),
        }
    }

    /// Publishes the facts, where the script begins with them and they are sound.
    #[tactic(auto, unfolding(crate::specs::Replay::facts_work))]
    fn begin(&mut self, alloc: Global, facts: Facts) -> Result<(), LineFault>
        ensures worked { OnOk result (IsWorked (facts_work self.old facts) self.new [] []) }
        ensures bad { result ≡ Err LineFault.Bad
            → (facts_work self.old facts ≡ None) × (self.new ≡ self.old) }
    {
        match self.stage {
            Stage::Empty => {}
            _ => return Err(LineFault::Bad),
        }
        match publish(alloc, facts) {
            Ok(None) => Err(LineFault::Bad),
            Ok(Some(published)) => {
                drop(mem::replace(&mut self.stage, Stage::Facts(published)));
                Ok(())
            }
            Err(_) => Err(LineFault::NoMemory),
        }
    }

    /// Starts the administration, where the script begins with its configuration, which breaks no rule.
    #[tactic(auto, unfolding(crate::specs::Replay::config_work))]
    fn start(&mut self, alloc: Global, config: Config) -> Result<(), LineFault>
        ensures worked { OnOk result (IsWorked (config_work self.old config) self.new [] []) }
        ensures bad { result ≡ Err LineFault.Bad
            → (config_work self.old config ≡ None) × (self.new ≡ self.old) }
    {
        match self.stage {
            Stage::Empty => {}
            _ => return Err(LineFault::Bad),
        }
        match administer(self.rt, alloc, config) {
            Ok(None) => Err(LineFault::Bad),
            Ok(Some(administered)) => {
                drop(mem::replace(&mut self.stage, Stage::Config(administered)));
                Ok(())
            }
            Err(_) => Err(LineFault::NoMemory),
        }
    }

    /// Asks the administration, and prints its reply.
    #[tactic(auto, unfolding(crate::specs::Replay::admin_work))]
    fn ask(&mut self, alloc: Global, ask: Ask, text: &mut String) -> Result<(), LineFault>
        ensures worked { OnOk result (IsWorked (admin_work self.old ask) self.new
            (string_bytes text.old) (string_bytes text.new)) }
        ensures bad { result ≡ Err LineFault.Bad
            → (admin_work self.old ask ≡ None) × (self.new ≡ self.old) }
        ensures unwritten { result ≡ Err LineFault.Bad
            → string_bytes text.new ≡ string_bytes text.old }
    {
        match &mut self.stage {
            Stage::Config(administered) => match ask_and_print(
                self.rt,
                alloc,
                administered,
                ask,
                text,
            ) {
                Ok(()) => Ok(()),
                Err(_) => Err(LineFault::NoMemory),
            },
            Stage::Empty | Stage::Facts(_) => Err(refuse(ask)),
        }
    }

    /// Refreshes the plugin, and prints what was published.
    #[tactic(auto, unfolding(crate::specs::Replay::refresh_work))]
    fn refresh(&mut self, alloc: Global, text: &mut String) -> Result<(), LineFault>
        ensures worked { OnOk result (IsWorked
            (refresh_work self.old) self.new (string_bytes text.old) (string_bytes text.new)) }
        ensures bad { result ≡ Err LineFault.Bad
            → (refresh_work self.old ≡ None) × (self.new ≡ self.old) }
        ensures unwritten { result ≡ Err LineFault.Bad
            → string_bytes text.new ≡ string_bytes text.old }
    {
        match &mut self.stage {
            Stage::Config(administered) => match refresh_and_print(
                self.rt,
                alloc,
                administered,
                text,
            ) {
                Ok(()) => Ok(()),
                Err(_) => Err(LineFault::NoMemory),
            },
            Stage::Empty | Stage::Facts(_) => Err(LineFault::Bad),
        }
    }

    /// Works a line up to what it decides: the request of a line that asks for a decision is given back.
    pub fn prepare(
        &mut self,
        alloc: Global,
        line: Line,
        text: &mut String,
    ) -> Result<Option<AccessRequest>, LineFault>
        ensures request { IfOk result (λ request. request ≡ request_in line) }
        ensures worked { OnOk result (IsWorked (prepare_work self.old line) self.new
            (string_bytes text.old) (string_bytes text.new)) }
        ensures bad { result ≡ Err LineFault.Bad → prepare_work self.old line ≡ None }
        ensures unchanged { result ≡ Err LineFault.Bad
            → (self.new ≡ self.old) × (string_bytes text.new ≡ string_bytes text.old) }
    {
        match line {
            Line::Blank => Ok(None),
            Line::Facts(facts) => {
                self.begin(alloc, facts)?;
                Ok(None)
            }
            Line::Config(config) => {
                self.start(alloc, config)?;
                Ok(None)
            }
            Line::Admin(ask) => {
                self.ask(alloc, ask, text)?;
                Ok(None)
            }
            Line::Refresh => {
                self.refresh(alloc, text)?;
                Ok(None)
            }
            Line::Decide(request) => Ok(Some(request)),
        }
    }

    /// Decides the request by what is published last, prints the decision, and audits it.
    #[tactic(auto, using(rg_run_script::proofs::Hooks::judges), unfolding(crate::specs::Replay::judge_work))]
    fn decide<H: RequestHooks>(
        &mut self,
        alloc: Global,
        request: &mut AccessRequest,
        text: &mut String,
        hooks: &mut H,
    ) -> Result<(), LineFault>
        ensures same { self.new ≡ self.old }
        ensures worked { OnOk result
            (IsWorked (judge_work self.old (H.enrichers hooks.old) request.old) (hooked self.old
            (H.enrichers hooks.new)) (string_bytes text.old) (string_bytes text.new)) }
        ensures audited { OnOk result (IsAudited (judge_work self.old (H.enrichers hooks.old)
            request.old) (hooks_of (H.sinks hooks.old) (H.enrichers hooks.old))
            (hooks_of (H.sinks hooks.new) (H.enrichers hooks.new))) }
        ensures bad { result ≡ Err LineFault.Bad
            → judge_work self.old (H.enrichers hooks.old) request.old ≡ None }
        ensures unchanged { result ≡ Err LineFault.Bad → (string_bytes text.new
            ≡ string_bytes text.old) × (H.enrichers hooks.new ≡ H.enrichers hooks.old) }
        ensures unheard { OnErr result (H.sinks hooks.new ≡ H.sinks hooks.old) }
        ensures in_part { OnErr result (HaveRunOn (H.enrichers hooks.old) (H.enrichers hooks.new)) }
    {
        match &mut self.stage {
            Stage::Empty => Err(LineFault::Bad),
            Stage::Facts(published) => match judge(alloc, published, request, text, hooks) {
                Ok(()) => Ok(()),
                Err(_) => Err(LineFault::NoMemory),
            },
            Stage::Config(administered) => match judge(alloc, administered, request, text, hooks) {
                Ok(()) => Ok(()),
                Err(_) => Err(LineFault::NoMemory),
            },
        }
    }
}

impl<'a, R: Wait> HookedWorker for Replay<'a, R> {
    ghost use Rattle.rg_run_replay.specs.Replay.{replay_step_with};

    ghost hooked_step = { replay_step_with };

    #[tactic(auto, using(crate::proofs::Working::preparing))]
    fn work_hooked<H: RequestHooks>(
        &mut self,
        alloc: Global,
        line: &[u8],
        now: Moment,
        text: &mut String,
        hooks: &mut H,
    ) -> Result<(), LineFault> {
        let read = match read_line(alloc, line, now) {
            Ok(read) => read,
            Err(fault) => return Err(fault),
        };
        match self.prepare(alloc, read, text) {
            Ok(None) => Ok(()),
            Ok(Some(mut request)) => self.decide(alloc, &mut request, text, hooks),
            Err(fault) => Err(fault),
        }
    }
}
