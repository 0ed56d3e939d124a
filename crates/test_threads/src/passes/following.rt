// Many publications, and a pass that decides now and then.
ghost use Rattle.std.specs.Prelude.{◌≡◌};

use crate::administration::{CREATE, request_of};
use crate::lists::pair;
use crate::passes::closing::told_of_end;
use crate::service::OpenService;
use rg_base::Steps;
use rg_policy::AccessRequest;
use rg_publish::Pass;
use rg_wire::access_word;
use std::alloc::{AllocError, Global};
use std::sync::Wait;

/// The number of the last publication.
const LAST: u32 = 10_000;

/// The pass decides after each publication whose number is a multiple of this.
const STRIDE: u32 = 777;

/// Gives the policy to ann at even numbers, and to bob at odd ones.
const TO_ANN: &str =
    r#"{"command":"updatePolicy","policy":{"id":1,"service":"hive1","name":"p1","resources":{"database":{"values":["sales"]}},"policyItems":[{"users":["ann"],"accesses":[{"type":"select"}]}]}}"#;

const TO_BOB: &str =
    r#"{"command":"updatePolicy","policy":{"id":1,"service":"hive1","name":"p1","resources":{"database":{"values":["sales"]}},"policyItems":[{"users":["bob"],"accesses":[{"type":"select"}]}]}}"#;

/// The change that publication `number` brings.
fn text_of(number: u32) -> &'static str {
    if number == 2 {
        return CREATE;
    }
    if number % 2 == 0 {
        return TO_ANN;
    }
    TO_BOB
}

/// Appends what the pass decides, and by which publication.
fn tell_decision(
    told: &mut String,
    pass: &mut Pass,
    request: &AccessRequest,
) -> Result<(), AllocError>
    ensures { pass.new.book ≡ pass.old.book }
{
    let answer = pass.verdict(request, &mut Steps::silent());
    let serial = answer.serial.0;
    let access = access_word(answer.verdict.access);
    write!(told, "{serial} {access}, ")
}

/// The same where the number is one after which the pass decides.
fn decide_at(
    told: &mut String,
    pass: &mut Pass,
    request: &AccessRequest,
    number: u32,
) -> Result<(), AllocError>
    ensures { pass.new.book ≡ pass.old.book }
{
    if number % STRIDE != 0 {
        return Ok(());
    }
    tell_decision(told, pass, request)
}

/// Publishes one change after another, and appends what the pass decides now and then. False where memory is refused.
fn follow<R: Wait, P: Wait + Drop>(
    told: &mut String,
    rt: &R,
    service: &mut OpenService<P>,
    pass: &mut Pass,
    request: &AccessRequest,
) -> bool
    ensures { (service.new.book ≡ service.old.book) × (pass.new.book ≡ pass.old.book) }
{
    for place in 1..LAST {
        let number = place.saturating_add(1);
        if !service.change(rt, text_of(number)) {
            return false;
        }
        if decide_at(told, pass, request, number).is_err() {
            return false;
        }
    }
    true
}

/// What a pass decides that enters now and then, and what the end tells.
pub(crate) fn now_and_then<R: Wait>(rt: &R, alloc: Global, config: &str) -> Option<String> {
    let request = request_of(alloc, "ann")?;
    let Some((mut service, mut pass, other)) = OpenService::open(rt, alloc, config) else {
        return None;
    };
    let mut told = String::new(alloc);
    if !follow(&mut told, rt, &mut service, &mut pass, &request) {
        return None;
    }
    let entered = pass.entered();
    let passes = pair(alloc, pass, other)?;
    let end = told_of_end(service, passes)?;
    write!(told, "entered {entered}; {}", end.as_str()).ok()?;
    Some(told)
}
