// The end of a service.
ghost use Rattle.std.specs.Prelude.{All};
ghost use Rattle.rg_session.specs.Closing.{IsOwn};

use crate::administration::CREATE;
use crate::lists::pair;
use crate::service::OpenService;
use rg_publish::Pass;
use rg_session::Totals;
use std::alloc::Global;
use std::sync::Wait;

/// What the totals tell.
fn told_of(alloc: Global, totals: &Totals) -> Option<String> {
    let entries = totals.past.entries();
    let publications = totals.publications;
    let decisions = totals.decisions;
    match &totals.ahead {
        Some(ahead) => format!(in alloc;
            "ahead told {} seen {}, entries {entries}, publications {publications}, decisions {decisions}",
            ahead.told.0, ahead.seen.0
        )
        .ok(),
        None => format!(in alloc;
            "none ahead, entries {entries}, publications {publications}, decisions {decisions}"
        ).ok(),
    }
}

/// Ends the service with these passes, and tells the totals.
pub(crate) fn told_of_end<R: Wait + Drop>(
    service: OpenService<R>,
    passes: Vec<Pass>,
) -> Option<String>
    requires { All (IsOwn service) passes.items }
{
    let alloc = service.alloc;
    match service.end(passes) {
        Some(totals) => {
            let told = told_of(alloc, &totals);
            drop(totals);
            told
        }
        None => None,
    }
}

/// The pass of a publisher that published twice, after it has entered.
fn pass_at_two<R: Wait>(rt: &R, alloc: Global, config: &str) -> Option<Pass> {
    let Some((mut service, mut pass, _other)) = OpenService::open(rt, alloc, config) else {
        return None;
    };
    if !service.change(rt, CREATE) {
        return None;
    }
    let _entered = pass.enter();
    Some(pass)
}

/// A publisher that published once, with the pass of another one that published twice.
pub(crate) fn ahead<R: Wait>(rt: &R, alloc: Global, config: &str) -> Option<String> {
    let pass = pass_at_two(rt, alloc, config)?;
    let Some((service, _own, _other)) = OpenService::open(rt, alloc, config) else {
        return None;
    };
    if pass.serial().0 <= service.serial().0 {
        return None;
    }
    let mut passes = Vec::new(alloc);
    if passes.push(pass).is_err() {
        return None;
    }
    told_of_end(service, passes)
}

/// A publisher that published once, with its own passes.
pub(crate) fn own<R: Wait>(rt: &R, alloc: Global, config: &str) -> Option<String> {
    let Some((service, pass, other)) = OpenService::open(rt, alloc, config) else {
        return None;
    };
    let passes = pair(alloc, pass, other)?;
    told_of_end(service, passes)
}

/// A publisher that published twice, with a pass that entered the second publication, and one that didn't.
pub(crate) fn one_behind<R: Wait>(rt: &R, alloc: Global, config: &str) -> Option<String> {
    let Some((mut service, mut pass, other)) = OpenService::open(rt, alloc, config) else {
        return None;
    };
    if !service.change(rt, CREATE) {
        return None;
    }
    let _entered = pass.enter();
    let passes = pair(alloc, other, pass)?;
    told_of_end(service, passes)
}
