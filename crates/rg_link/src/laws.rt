// Laws of sessions, each the contract of a function that does nothing.
ghost use Rattle.std.specs.Prelude.{◌≡◌, ◌<◌, ◌++◌, ℕ, List, Some};
ghost use Rattle.rg_base.specs.declared.numbers.Moment.{Moment};
ghost use Rattle.rg_http.specs.declared.message.Message.{Message};
ghost use Rattle.rg_http.specs.declared.message.Response.{Response};
ghost use Rattle.rg_cmd.specs.declared.ask.AdminReply.{AdminReply};
ghost use Rattle.rg_cmd.specs.declared.ask.Ask.{Ask};
ghost use Rattle.rg_turn.specs.declared.rule.Entry.{Entry};
ghost use Rattle.rg_publish.specs.declared.history.Publication.{Publication};
ghost use Rattle.rg_hook.specs.Sinks.{drop_at};
ghost use Rattle.rg_hook.specs.Told.{SinkState};
ghost use Rattle.rg_link.specs.Answers.{Answers};
ghost use Rattle.rg_link.specs.Audits.{AfterLines, Decided};

/// A sink that isn't dropped, and whose count of faults didn't rise, holds its old lines and then those that were given, in order.
#[tactic(auto, using(crate::proofs::Held::lines_held))]
pub fn lines_are_held()
    ensures { (lines : List (List ℕ)) (old new : SinkState × ℕ) (held : List (List ℕ))
        → AfterLines lines old new → old.1 < drop_at → new.0.faults ≡ old.0.faults
        → old.0.heard ≡ Some held → new.0.heard ≡ Some (held ++ lines) }
{}

/// Messages, moments, entries and decisions decide the responses.
#[tactic(auto, using(crate::proofs::Once::answers_once))]
pub fn answers_are_one()
    ensures { (plugin : List ℕ) (pubs : List Publication) (ms : List Message) (ts : List Moment)
        (own : List (Entry Ask AdminReply)) (decided : List Decided) (rs qs : List Response)
        → Answers plugin pubs ms ts own decided rs
        → Answers plugin pubs ms ts own decided qs → rs ≡ qs }
{}
