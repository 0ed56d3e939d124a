// What passes have seen, beside their publisher.
ghost use Rattle.std.specs.Prelude.{◌≡◌, ◌≤◌, All, length, IfOk};
ghost use Rattle.rg_session.specs.Closing.{IsKnown, IsOwn, ahead_of, answers_of};

use rg_base::{NoMemory, Serial};
use rg_publish::{Pass, Publisher};
use std::sync::Wait;

/// A pass has seen a publication that its publisher doesn't have.
#[derive(Clone, Copy, Debug, PartialEq, Eq)]
pub struct Ahead {
    /// The publisher's serial.
    pub told: Serial,
    /// The pass's.
    pub seen: Serial,
}

/// The first pass that has seen more.
pub(crate) fn first_ahead(told: Serial, passes: &[Pass]) -> Option<Ahead>
    ensures { result ≡ ahead_of told.0 passes.now }
{
    let mut rest = passes;
    while let Some((pass, tail)) = rest.split_first() {
        let seen = pass.serial();
        if told.0 < seen.0 {
            return Some(Ahead { told, seen });
        }
        rest = tail;
    }
    None
}

/// How often they answered; it stays at its last value.
pub(crate) fn decisions_of(passes: &[Pass]) -> u64
    ensures { result ≡ answers_of passes.now }
{
    let mut sum: u64 = 0;
    let mut rest = passes;
    while let Some((pass, tail)) = rest.split_first() {
        sum = sum.saturating_add(pass.answered());
        rest = tail;
    }
    sum
}

/// The pass learns what the publisher has, and enters.
fn settle<R: Wait + Drop>(publisher: &Publisher<R>, pass: Pass) -> Result<(), NoMemory>
    requires { (length pass.list ≤ length publisher.now.list) × (pass.book ≡ publisher.now.book) }
    ensures { IfOk result (λ _. IsKnown publisher.now pass) }
{
    let mut pass = pass;
    let told = publisher.tell()?;
    pass.learn(told);
    if !pass.enter() {
        return Err(NoMemory);
    }
    Ok(())
}

/// All of them do.
pub(crate) fn settle_all<R: Wait + Drop>(
    publisher: &Publisher<R>,
    passes: Vec<Pass>,
) -> Result<(), NoMemory>
    requires { All (λ p. (length p.list ≤ length publisher.now.list)
        × (p.book ≡ publisher.now.book)) passes.items }
    ensures { IfOk result (λ _. All (IsKnown publisher.now) passes.items) }
{
    let mut passes = passes;
    while let Some(pass) = passes.pop() {
        settle(publisher, pass)?;
    }
    Ok(())
}
