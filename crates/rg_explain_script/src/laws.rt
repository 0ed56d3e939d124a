// How a script ends that is explained, and that is replayed.
ghost use Rattle.std.specs.Prelude.{ℕ, List};
ghost use Rattle.rg_base.specs.declared.numbers.Moment.{Moment};
ghost use Rattle.rg_run_replay.specs.Replay.{replayed};
ghost use Rattle.rg_explain_script.specs.declared.options.Options.{Options};
ghost use Rattle.rg_explain_script.specs.Alike.{EndAlike};
ghost use Rattle.rg_explain_script.specs.Explained.{explained};

/// A script ends alike whether it is explained or replayed: with the same status, and where a line is bad at the same one.
pub fn explained_as_replayed()
    ensures { (options : Options) (lines : List (List ℕ)) (moments : List Moment)
        → EndAlike (replayed lines moments) (explained options lines moments) }
{}
