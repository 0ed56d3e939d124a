// Decisions after a publication: by a pass that has learnt it, and by passes that haven't.
ghost use Rattle.std.specs.Prelude.{◌≡◌};

use crate::administration::{CREATE, request_of};
use crate::service::OpenService;
use rg_base::Steps;
use rg_facts::{Access, Answer};
use rg_policy::AccessRequest;
use rg_publish::{Pass, Told};
use rg_wire::access_word;
use std::alloc::Global;
use std::sync::Wait;
use std::thread;
use std::thread::{JoinHandle, Threads};

/// Decides after it has learnt.
fn decide_told(mut pass: Pass, told: Told, request: &AccessRequest) -> Answer
    requires { told.book ≡ pass.book }
{
    pass.learn(told);
    pass.verdict(request, &mut Steps::silent())
}

/// Decides without.
fn decide_untold(mut pass: Pass, request: &AccessRequest) -> Answer {
    pass.verdict(request, &mut Steps::silent())
}

/// Starts a thread on which the pass learns, and decides.
fn start_told<R: Threads>(
    rt: &R,
    pass: Pass,
    told: Told,
    request: AccessRequest,
) -> Option<JoinHandle<Answer>>
    requires { told.book ≡ pass.book }
{
    match thread::spawn(
        rt,
        move || -> Answer
            requires { told.book ≡ pass.book }
        { decide_told(pass, told, &request) },
    ) {
        Ok(handle) => Some(handle),
        Err(_) => None,
    }
}

/// Starts a thread on which the pass decides.
fn start_untold<R: Threads>(
    rt: &R,
    pass: Pass,
    request: AccessRequest,
) -> Option<JoinHandle<Answer>> {
    match thread::spawn(rt, move || -> Answer { decide_untold(pass, &request) }) {
        Ok(handle) => Some(handle),
        Err(_) => None,
    }
}

/// Whether the answer is one of the two that may come without learning.
fn is_either(answer: &Answer) -> bool {
    let verdict = (
        answer.serial.0,
        answer.policy_version.0,
        answer.verdict.policy.0,
    );
    match verdict {
        (1, 1, -1) => answer.verdict.access == Access::Denied,
        (2, 2, 1) => answer.verdict.access == Access::Allowed,
        _ => false,
    }
}

/// What a pass decides that has learnt the second publication, on another thread than the one that published it, and whether a
/// pass that decides beside that one, without learning, decides by the first or by the second.
pub(crate) fn learnt<R: Threads + Wait>(rt: &R, alloc: Global, config: &str) -> Option<String> {
    let Some((mut service, pass, other)) = OpenService::open(rt, alloc, config) else {
        return None;
    };
    let beside = start_untold(rt, other, request_of(alloc, "ann")?)?;
    let is_changed = service.change(rt, CREATE);
    let either = beside.join(rt);
    if !is_changed {
        return None;
    }
    let Ok(told) = service.tell() else {
        return None;
    };
    let answer = start_told(rt, pass, told, request_of(alloc, "ann")?)?.join(rt);
    format!(in alloc;
        "serial {}, policyVersion {}, {} {}; without: {}",
        answer.serial.0,
        answer.policy_version.0,
        access_word(answer.verdict.access),
        answer.verdict.policy.0,
        is_either(&either)
    )
    .ok()
}

/// What a pass decides that never learns, on the thread that has published.
pub(crate) fn entered<R: Wait>(rt: &R, alloc: Global, config: &str) -> Option<String> {
    let request = request_of(alloc, "ann")?;
    let Some((mut service, mut pass, _other)) = OpenService::open(rt, alloc, config) else {
        return None;
    };
    if !service.change(rt, CREATE) {
        return None;
    }
    let answer = pass.verdict(&request, &mut Steps::silent());
    format!(in alloc;
        "serial {}, entered {}, answered {}",
        answer.serial.0,
        pass.entered(),
        pass.answered()
    )
    .ok()
}
