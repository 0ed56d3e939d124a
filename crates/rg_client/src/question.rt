// Questions, and their bytes on a link.
ghost use Rattle.std.specs.Prelude.{◌≡◌, List, ℕ, IfOk, OnOk, OnErr, MatchResult, string_bytes};
ghost use Rattle.std.specs.Str.{chars};
ghost use mathlib.Core.List.{IsPrefix};
ghost use Rattle.rg_http.specs.Answers.{Counts, Wrote};
ghost use Rattle.rg_client.specs.Questions.{question_text};

use rg_http::{FrameFault, write_whole};
use rg_ports::Link;
use std::alloc::{AllocError, Global};

/// What a service is asked for: a GET of the target (RFC 9112, section 3). Its parts are written as they are, so who makes them sees
/// to it that none holds CR or LF, and the target no blank.
#[derive(Clone, Copy)]
pub struct Question<'a> {
    /// A path and its query, as `/path?name=value` (section 3.2.1).
    pub target: &'a str,
    /// The service's host, with its port where that isn't 80 (section 3.2).
    pub host: &'a str,
    /// Who asks, in the field `x-user`.
    pub user: &'a str,
}

// The bytes of a question.
#[tactic(auto, unfolding(crate::specs::Questions::question_text))]
fn question_text(alloc: Global, target: &str, host: &str, user: &str) -> Result<String, AllocError>
    ensures { IfOk result
        (λ s. string_bytes s ≡ question_text (chars target.now) (chars host.now) (chars user.now)) }
{
    format!(in alloc; "GET {target} HTTP/1.1\r\nHost: {host}\r\nx-user: {user}\r\n\r\n")
}

/// Writes a question whole.
pub(crate) fn send<T: Link>(
    alloc: Global,
    link: &mut T,
    question: &Question,
) -> Result<(), FrameFault>
    ensures ok { OnOk result
        (Wrote (T.held link.old) (T.held link.new) (question_text (chars question.now.target.now)
        (chars question.now.host.now) (chars question.now.user.now))) }
    ensures err { OnErr result ((part : List ℕ) × Wrote (T.held link.old) (T.held link.new) part
        × IsPrefix part (question_text (chars question.now.target.now) (chars question.now.host.now) (chars question.now.user.now))) }
    ensures faults { MatchResult result (λ _. T.faults link.new ≡ T.faults link.old)
        (λ fault. Counts fault (T.faults link.old) (T.faults link.new)) }
    ensures unread { (T.left link.new ≡ T.left link.old) × (T.ended link.new ≡ T.ended link.old) }
{
    let text = question_text(alloc, question.target, question.host, question.user)?;
    write_whole(link, text.as_bytes())?;
    Ok(())
}
