// What holds of every end of a service.
ghost use Rattle.std.specs.Prelude.{◌≡◌, ◌≤◌, ℕ, List, length};
ghost use mathlib.Core.List.{IsPrefix};
ghost use Rattle.rg_cmd.specs.declared.ask.AdminReply.{AdminReply};
ghost use Rattle.rg_cmd.specs.declared.ask.Ask.{Ask};
ghost use Rattle.rg_turn.specs.History.{IsLegal};
ghost use Rattle.rg_turn.specs.declared.rule.Entry.{Entry};
ghost use Rattle.rg_admin_laws.specs.Steps.{step};
ghost use Rattle.rg_publish.specs.declared.history.Publication.{Publication};
ghost use Rattle.rg_session.specs.Right.{AreDownloadedFor, AreRightFor};
ghost use Rattle.rg_serve.specs.Opened.{Opened};
ghost use Rattle.rg_serve.specs.Runs.{IsRun, decided_by};
ghost use Rattle.rg_serve.specs.Served.{HasServed};

/// What `serve` says of an end is so of a run of the world: the past, the publications and each worker's decisions are those of
/// one list of calls, downloads, publications and entries of passes.
pub fn ends_are_runs()
    ensures { (o : Opened) (links : ℕ) (past : List (Entry Ask AdminReply))
        (list : List Publication) (decisions : ℕ) → IsLegal step o.start past
        → 1 ≤ length o.published → IsPrefix o.published list
        → AreRightFor o.start past list → AreDownloadedFor o.start past list
        → (served : HasServed o links past list decisions)
        → IsRun o.start past list (decided_by served.served.works) }
{}
