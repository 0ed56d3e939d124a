// The script of the command `serve`: a configuration, and commands of the administration.
ghost use Rattle.std.specs.Prelude.{◌≡◌, ◌≤◌, ◌<◌, ◌+◌, ◌^◌, ◌++◌, ℕ, List, [], Err, None, Some, length, IfOk, OnOk, string_bytes};
ghost use Rattle.rg_admin_laws.specs.Starts.{IsStart};
ghost use Rattle.rg_script.specs.Lines.{lines_of};
ghost use Rattle.rg_run_script.specs.Follow.{IsWorked, Output, bad_line_text};
ghost use Rattle.rg_run_serve.specs.Preparing.{AreAsked, IsPrepared, IsReady};
ghost use Rattle.rg_run_script.specs.Printed.{reply_line};
ghost use Rattle.rg_run_serve.specs.Serve.{Asked, ask_taken, config_taken};

use rg_admin::{Admin, StartFault};
use rg_base::{Moment, NoMemory};
use rg_cmd::{Ask, Config};
use rg_ports::Clock;
use rg_run_script::{Status, Worked, Worker, add_reply, follow, name_bad_line};
use rg_script::{Line, LineFault, read_line, split_line};
use rg_serve::Opened;
use std::alloc::Global;
use std::marker::Model;
use std::sync::Wait;

/// The administration of a script, and what it is to be asked. Contracts see both.
#[derive(Drop)]
struct Preparing {
    admin: Option<Admin>,
    asks: Vec<Ask>,
}

impl Model for Preparing {
    ghost use Rattle.rg_run_serve.specs.Preparing.{IsPreparing, asking};
    ghost use Rattle.rg_run_serve.specs.Serve.{Asking};

    ghost Value = { Asking };

    ghost view = { λ p. asking p.admin p.asks.items };

    ghost invariant = { λ p. IsPreparing p.admin p.asks.items };
}

/// A command that stands out of place is let go.
fn refuse(_ask: Ask) -> LineFault
    ensures { result ≡ LineFault.Bad }
{
    LineFault::Bad
}

impl Preparing {
    fn new(alloc: Global) -> Preparing
        ensures { result ≡ None }
    {
        Preparing {
            admin: None,
            asks: Vec::new(alloc),
        }
    }

    /// Starts the administration, where the script begins with its configuration, which breaks no rule.
    #[tactic(auto, unfolding(crate::specs::Serve::config_taken))]
    fn start(&mut self, alloc: Global, config: Config) -> Result<(), LineFault>
        ensures worked { OnOk result (IsWorked (config_taken self.old config) self.new [] []) }
        ensures bad { result ≡ Err LineFault.Bad
            → (config_taken self.old config ≡ None) × (self.new ≡ self.old) }
    {
        match self.admin {
            None => {}
            Some(_) => return Err(LineFault::Bad),
        }
        match Admin::start(alloc, config) {
            Ok(admin) => {
                self.admin = Some(admin);
                Ok(())
            }
            Err(StartFault::Rule(_)) => Err(LineFault::Bad),
            Err(StartFault::NoMemory) => Err(LineFault::NoMemory),
        }
    }

    /// Keeps what the administration is to be asked.
    #[tactic(auto, unfolding(crate::specs::Serve::ask_taken))]
    fn ask(&mut self, ask: Ask) -> Result<(), LineFault>
        ensures worked { OnOk result (IsWorked (ask_taken self.old ask) self.new [] []) }
        ensures bad { result ≡ Err LineFault.Bad
            → (ask_taken self.old ask ≡ None) × (self.new ≡ self.old) }
    {
        match self.admin {
            None => return Err(refuse(ask)),
            Some(_) => {}
        }
        match self.asks.push(ask) {
            Ok(()) => Ok(()),
            Err(_) => Err(LineFault::NoMemory),
        }
    }
}

impl Worker for Preparing {
    ghost use Rattle.rg_run_serve.specs.Serve.{serve_step};

    ghost step = { serve_step };

    fn work(
        &mut self,
        alloc: Global,
        line: &[u8],
        now: Moment,
        _text: &mut String,
    ) -> Result<(), LineFault> {
        match read_line(alloc, line, now) {
            Ok(Line::Blank) => Ok(()),
            Ok(Line::Config(config)) => self.start(alloc, config),
            Ok(Line::Admin(ask)) => self.ask(ask),
            Ok(Line::Facts(_)) => Err(LineFault::Bad),
            Ok(Line::Refresh) => Err(LineFault::Bad),
            Ok(Line::Decide(_)) => Err(LineFault::Bad),
            Err(fault) => Err(fault),
        }
    }
}

/// How many lines there are.
fn count_lines(bytes: &[u8]) -> u64
    requires { length bytes.now < 2 ^ 32 }
    ensures value { result ≡ length (lines_of bytes.now) }
    ensures few { result ≤ length bytes.now }
{
    let mut rest = bytes;
    let mut count: u64 = 0;
    'lines: while !rest.is_empty() {
        let (_, more) = split_line(rest);
        rest = more;
        count += 1;
    }
    count
}

/// Asks in order, and gives the lines of the replies.
fn ask_all<R: Wait, Q: Wait + Drop>(
    rt: &R,
    alloc: Global,
    opened: &mut Opened<Q>,
    asks: Vec<Ask>,
) -> Result<String, NoMemory>
    ensures { IfOk result (λ text. AreAsked opened.old asks.items opened.new (string_bytes text)) }
{
    let mut text = String::new(alloc);
    for ask in asks {
        let reply = opened.ask(rt, alloc, ask)?;
        add_reply(alloc, &mut text, reply)?;
    }
    Ok(text)
}

/// The service over the administration, which was asked this and refreshed then; and the lines of the replies.
fn ready<'a, R: Wait>(
    rt: &'a R,
    alloc: Global,
    admin: Admin,
    asks: Vec<Ask>,
    workers: u32,
) -> Result<(Opened<&'a R>, String), NoMemory>
    requires start { IsStart admin }
    requires workers { (1 ≤ workers) × (workers ≤ 64) }
    ensures { IfOk result (λ t. IsReady admin asks.items workers t.0 (string_bytes t.1)) }
{
    let mut opened = Opened::over(rt, alloc, admin, workers)?;
    let text = ask_all(rt, alloc, &mut opened, asks)?;
    let (opened, _) = opened.refresh(rt, alloc)?;
    Ok((opened, text))
}

/// What the script of a service printed, and the service, which isn't there after a bad line.
#[derive(Drop)]
pub(crate) struct Prepared<Q: Wait + Drop> {
    pub text: String,
    pub opened: Option<Opened<Q>>,
}

/// Names the line behind the last where none was bad.
fn unless_bad(worked: Worked, bytes: &[u8]) -> Result<String, NoMemory>
    requires { length bytes.now < 2 ^ 32 }
    ensures done { worked.status ≡ Status.Done → IfOk result (λ text. string_bytes text
        ≡ string_bytes worked.text ++ bad_line_text (length (lines_of bytes.now) + 1)) }
    ensures bad { worked.status ≡ Status.BadLine
        → IfOk result (λ text. string_bytes text ≡ string_bytes worked.text) }
{
    match worked.status {
        Status::Done => Ok(name_bad_line(worked.text, count_lines(bytes) + 1)?.text),
        _ => Ok(worked.text),
    }
}

/// Works the script of these bytes, for so many workers. The replies are given when it is known that nobody else asked. Where a
/// line is bad the replies to those before it stand before what names it, and no service is left.
pub(crate) fn prepare<'a, R: Wait, C: Clock>(
    rt: &'a R,
    alloc: Global,
    bytes: &[u8],
    clock: &mut C,
    workers: u32,
) -> Result<Prepared<&'a R>, NoMemory>
    requires bytes { length bytes.now < 2 ^ 32 }
    requires workers { (1 ≤ workers) × (workers ≤ 64) }
    ensures { IfOk result (λ p. IsPrepared workers bytes.now
        (C.given clock.old) (C.given clock.new) (string_bytes p.text) p.opened) }
{
    let mut preparing = Preparing::new(alloc);
    let worked = follow(alloc, &mut preparing, bytes, clock)?;
    let Preparing { admin, asks } = preparing;
    let admin = match admin {
        Some(admin) => admin,
        None => {
            let text = unless_bad(worked, bytes)?;
            return Ok(Prepared { text, opened: None });
        }
    };
    let (opened, mut text) = ready(rt, alloc, admin, asks, workers)?;
    text.push_str(worked.text.as_str())?;
    match worked.status {
        Status::Done => Ok(Prepared {
            text,
            opened: Some(opened),
        }),
        _ => Ok(Prepared { text, opened: None }),
    }
}
