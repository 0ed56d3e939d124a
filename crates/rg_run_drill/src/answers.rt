// How the requests of the workload are decided and counted.
ghost use Rattle.std.specs.Prelude.{◌≡◌, ◌+◌, ◌-◌, ◌<◌, ◌≤◌, ◌^◌, IfOk, OnOk, Some};
ghost use Rattle.std.specs.List.{sum_by};
ghost use Rattle.rg_publish.specs.Bounds.{bound_on};
ghost use Rattle.rg_publish.specs.Passes.{Ends};
ghost use Rattle.rg_publish.specs.declared.history.Publication.{Publication};
ghost use Rattle.rg_drill.specs.Workload.{request_of, requests_of};
ghost use Rattle.rg_facts.specs.Flow.{eval};
ghost use Rattle.rg_run_replay.specs.Running.{newest};
ghost use Rattle.rg_run_drill.specs.Drill.{answered, answers_to, none_answered, with_answer};

use rg_base::{Ledger, NoMemory, Steps};
use rg_drill::Generator;
use rg_facts::Access;
use rg_run_replay::Running;
use std::alloc::Global;
use std::sync::Wait;

/// How many requests were answered so.
#[derive(Clone, Copy)]
pub(crate) struct Answers {
    pub allowed: u32,
    pub denied: u32,
    pub undetermined: u32,
}

impl Answers {
    fn none() -> Answers
        ensures { result ≡ none_answered }
    {
        Answers {
            allowed: 0,
            denied: 0,
            undetermined: 0,
        }
    }

    /// The numbers after one more answer.
    fn with(self, access: Access) -> Answers
        requires { answered self < 2 ^ 32 - 1 }
        ensures { result ≡ with_answer access self }
    {
        match access {
            Access::Allowed => Answers {
                allowed: self.allowed + 1,
                ..self
            },
            Access::Denied => Answers {
                denied: self.denied + 1,
                ..self
            },
            Access::Undetermined => Answers {
                undetermined: self.undetermined + 1,
                ..self
            },
        }
    }
}

/// Draws a request, and decides it.
fn decide_one<W: Wait, L: Ledger>(
    alloc: Global,
    running: &mut Running<&W>,
    generator: &mut Generator,
    policies: u32,
    steps: &mut Steps<L>,
) -> Result<Access, NoMemory>
    ensures same { running.new ≡ running.old }
    ensures drawn { OnOk result (generator.new ≡ (request_of policies generator.old).next) }
    ensures access { IfOk result (λ access. Ends running.old.published
        (λ p. access ≡ (eval p.facts (request_of policies generator.old).value).access)) }
    ensures tries { IfOk result (λ access. Ends running.old.published (λ p. steps.new.tries
        ≤ steps.old.tries + bound_on p.facts (request_of policies generator.old).value)) }
{
    let request = generator.request(alloc, policies)?;
    let decision = running.decide(alloc, &request, steps)?;
    Ok(decision.access)
}

/// Draws so many requests, and decides each by what is published last.
pub(crate) fn decide_all<W: Wait, L: Ledger>(
    alloc: Global,
    running: &mut Running<&W>,
    generator: &mut Generator,
    policies: u32,
    requests: u32,
    steps: &mut Steps<L>,
) -> Result<Answers, NoMemory>
    ensures same { running.new ≡ running.old }
    ensures answers { IfOk result (λ a. (p : Publication) → newest running.old ≡ Some p
        → a ≡ answers_to p.facts (requests_of policies requests generator.old).value) }
    ensures tries { IfOk result (λ a. (p : Publication) → newest running.old ≡ Some p
        → steps.new.tries ≤ steps.old.tries + sum_by (bound_on p.facts) (requests_of policies requests generator.old).value) }
{
    let mut answers = Answers::none();
    let mut number: u32 = 0;
    'requests: while number < requests {
        let access = decide_one(alloc, running, generator, policies, steps)?;
        answers = answers.with(access);
        number += 1;
    }
    Ok(answers)
}
