// Serves links in memory: the first creates policies, the others ask for decisions.
mod stream;

use crate::service::{OpenService, opened};
use crate::words::{number, refused};
use anyhow::Result;
use rg_publish::Pass;
use std::alloc::{AllocError, Global};
use std::sync::Wait;
use stream::{policies, requests};

/// How much is done.
#[derive(Clone, Copy)]
struct Load {
    /// How many policies there are, 10,000 at most.
    policies: u32,
    /// How many links ask for decisions.
    links: u32,
    /// How many decisions each of them asks for, 10,000 at most.
    messages: u32,
}

/// The load that the words name; a small one where there are none.
fn load_of(words: &[String]) -> Result<Load> {
    if words.is_empty() {
        return Ok(Load {
            policies: 20,
            links: 2,
            messages: 30,
        });
    }
    Ok(Load {
        policies: number(words, 0, "the policies are missing")?,
        links: number(words, 1, "the links are missing")?,
        messages: number(words, 2, "the messages are missing")?,
    })
}

/// What was done.
#[derive(Clone, Copy)]
struct Counts {
    /// Calls of the administration by the first link.
    created: u64,
    /// Messages answered on the other links.
    answered: u64,
    decisions: u64,
    /// The publication of the last decision.
    serial: u64,
}

/// Serves the links that ask for decisions, and says how many messages were answered.
fn decided<R: Wait, P: Wait + Drop>(
    rt: &R,
    alloc: Global,
    service: &mut OpenService<P>,
    pass: &mut Pass,
    load: Load,
) -> Result<u64, AllocError> {
    let mut answered = 0u64;
    for _ in 0..load.links {
        let link = requests(alloc, load.policies, load.messages)?;
        let messages = service.serve(rt, alloc, pass, link)?;
        answered = answered.saturating_add(u64::from(messages));
    }
    Ok(answered)
}

/// Creates the policies, publishes them, and asks for the decisions.
fn served<R: Wait>(rt: &R, alloc: Global, load: Load) -> Result<Counts> {
    let Some((mut service, mut passes)) = opened(rt, alloc, 1) else {
        return Err(refused());
    };
    let Some(mut pass) = passes.pop() else {
        return Err(refused());
    };
    let link = policies(alloc, load.policies)?;
    let _messages = service.serve(rt, alloc, &mut pass, link)?;
    let created = service.calls();
    let _published = service.refresh(rt, alloc);
    let answered = decided(rt, alloc, &mut service, &mut pass, load)?;
    Ok(Counts {
        created,
        answered,
        decisions: pass.answered(),
        serial: pass.serial().0,
    })
}

/// `POLICIES LINKS MESSAGES`: so many policies, and so many decisions on each of so many links.
pub(crate) fn run<R: Print + Wait>(rt: &R, alloc: Global, words: &[String]) -> Result<()> {
    let counts = served(rt, alloc, load_of(words)?)?;
    println!(rt;
        "created={} answered={} decisions={} serial={}",
        counts.created, counts.answered, counts.decisions, counts.serial
    )?;
    Ok(())
}
