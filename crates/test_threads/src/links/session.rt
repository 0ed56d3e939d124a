// A link served by an administration of its own.
ghost use Rattle.std.specs.Prelude.{◌<◌, All, IfOk};

use crate::links::hearing::HearingLink;
use crate::links::telling::{Left, told};
use crate::links::watched::{Sinks, watch};
use crate::service::OpenService;
use anyhow::{Result, anyhow};
use rg_base::{Moment, Pair, Seq, Text};
use rg_hook::{AuditFan, AuditSink, Enricher, Enrichers, FixedPair, RequestHooks, WorkerHooks};
use rg_link::{LinkFault, Report, serve_link};
use rg_ports::{FreeGate, Link, ListClock, MemLink};
use rg_publish::Pass;
use rg_session::{Bell, right_lists_stay_right};
use std::alloc::{AllocError, Global};
use std::sync::Wait;
use test_tables::{no_hooks, written};

/// The plugin's service.
const PLUGIN: &str = "hive1";

/// A link, and what it meets.
#[derive(Clone, Copy)]
pub(crate) struct Case<'c> {
    pub(crate) config: &'c str,
    /// The bytes of an earlier link, after which there is a refresh; none where it is empty.
    pub(crate) before: &'c [u8],
    pub(crate) bytes: &'c [u8],
    /// The most bytes that a call moves; 0 sets no bound.
    pub(crate) piece: u32,
    /// The calls that fail.
    pub(crate) fails: &'c [u64],
    /// The calls of the first sink that fail.
    pub(crate) sink: &'c [u64],
    /// Whether it is told before which writes the bell was rung.
    pub(crate) is_heard: bool,
}

/// How many bytes each call moves at most: so many, or all where it is 0.
fn pieces_of(alloc: Global, piece: u32) -> Result<Seq<u32>, AllocError>
    ensures { IfOk result (λ pieces. All (λ size. 0 < size) pieces.items) }
{
    if piece == 0 {
        return Ok(Seq::new(alloc));
    }
    let mut pieces = Vec::new(alloc);
    pieces.push(piece)?;
    Ok(Seq::from_vec(pieces))
}

/// A link with these bytes to come.
fn link_of(alloc: Global, bytes: &[u8], piece: u32, fails: &[u64]) -> Result<MemLink, AllocError> {
    let bytes = Seq::from_vec(Vec::from_slice(alloc, bytes)?);
    let fails = Seq::from_vec(Vec::from_slice(alloc, fails)?);
    let pieces = pieces_of(alloc, piece)?;
    Ok(MemLink::new(bytes, Seq::new(alloc), pieces, fails))
}

/// The moments of a session's messages: 100, 200, and 300 for the third and all later ones.
fn clock(alloc: Global) -> Result<ListClock, AllocError> {
    let moments = Vec::from_slice(alloc, &[Moment(100), Moment(200), Moment(300)])?;
    Ok(ListClock::new(Seq::from_vec(moments)))
}

/// Serves the link, at moments of a clock of its own.
fn serve<T: Link, H: RequestHooks, R: Wait, P: Wait + Drop>(
    rt: &R,
    service: &mut OpenService<P>,
    pass: &mut Pass,
    hooks: &mut H,
    bell: &Bell,
    link: &mut T,
) -> Result<Result<Report, LinkFault>, AllocError> {
    right_lists_stay_right();
    let alloc = service.alloc;
    let mut clock = clock(alloc)?;
    Ok(serve_link(
        rt,
        alloc,
        link,
        &service.turn,
        &mut service.seat,
        pass,
        &mut clock,
        hooks,
        &FreeGate,
        bell,
        PLUGIN,
        0,
    ))
}

/// Serves the earlier link, and publishes what it changed.
fn serve_before<R: Wait, P: Wait + Drop>(
    rt: &R,
    service: &mut OpenService<P>,
    pass: &mut Pass,
    bytes: &[u8],
) -> Result<(), AllocError> {
    let alloc = service.alloc;
    let mut hooks = no_hooks(alloc);
    let mut link = link_of(alloc, bytes, 0, &[])?;
    let bell = Bell::new();
    let _end = serve(rt, service, pass, &mut hooks, &bell, &mut link)?;
    let _is_published = service.refresh(rt);
    Ok(())
}

/// What the enricher adds to each request: `k` with the value `v`.
fn added(alloc: Global) -> Result<FixedPair, AllocError> {
    let key = Text::of(String::from_str(alloc, "k")?);
    let value = Text::of(String::from_str(alloc, "v")?);
    Ok(FixedPair {
        pair: Pair { key, value },
    })
}

/// Serves the link with these sinks and one enricher. Gives how it ended, and how many sinks were dropped.
fn serve_watched<T: Link, R: Wait, P: Wait + Drop>(
    rt: &R,
    service: &mut OpenService<P>,
    pass: &mut Pass,
    sinks: &Sinks,
    bell: &Bell,
    link: &mut T,
) -> Result<(Result<Report, LinkFault>, u32), AllocError> {
    let alloc = service.alloc;
    let mut watched: Vec<Box<dyn AuditSink + Send>> = Vec::new(alloc);
    watched.push(Box::new(alloc, watch(&sinks.first)?)?)?;
    watched.push(Box::new(alloc, watch(&sinks.second)?)?)?;
    let mut enrichers: Vec<Box<dyn Enricher + Send>> = Vec::new(alloc);
    enrichers.push(Box::new(alloc, added(alloc)?)?)?;
    let mut hooks = WorkerHooks {
        sinks: AuditFan::new(watched),
        enrichers: Enrichers::new(enrichers),
    };
    let end = serve(rt, service, pass, &mut hooks, bell, link)?;
    Ok((end, hooks.sinks.dropped()))
}

/// Serves the link, and tells what it left.
fn told_of_link<R: Wait + Sync, P: Wait + Drop>(
    rt: &R,
    service: &mut OpenService<P>,
    pass: &mut Pass,
    case: &Case,
) -> Result<String, AllocError> {
    let alloc = service.alloc;
    let sinks = Sinks::new(alloc, case.sink)?;
    let bell = Bell::new();
    let link = link_of(alloc, case.bytes, case.piece, case.fails)?;
    let mut link = HearingLink::new(alloc, rt, &bell, link);
    let calls = service.seat.calls();
    let (end, dropped) = serve_watched(rt, service, pass, &sinks, &bell, &mut link)?;
    let left = Left {
        end,
        calls: service.seat.calls().saturating_sub(calls),
        dropped,
    };
    let text = written(alloc, link.link.held(), "\r\n")?;
    let mut told = told(alloc, &left, text.as_str(), &sinks)?;
    if case.is_heard {
        write!(told, "|bell{}", link.heard.as_str())?;
    }
    Ok(told)
}

/// Serves the earlier link, where there is one, and the link, and tells what that left.
fn told_in<R: Wait + Sync, P: Wait + Drop>(
    rt: &R,
    service: &mut OpenService<P>,
    pass: &mut Pass,
    case: &Case,
) -> Result<String, AllocError> {
    if !case.before.is_empty() {
        serve_before(rt, service, pass, case.before)?;
    }
    told_of_link(rt, service, pass, case)
}

/// Starts an administration, serves the case's link, and tells what that left.
pub(crate) fn told_of<R: Wait + Sync>(rt: &R, alloc: Global, case: &Case) -> Result<String> {
    let Some((mut service, mut pass, _other)) = OpenService::open(rt, alloc, case.config) else {
        return Err(anyhow!("the configuration starts nothing"));
    };
    match told_in(rt, &mut service, &mut pass, case) {
        Ok(told) => Ok(told),
        Err(_) => Err(anyhow!("memory was refused")),
    }
}
