// How a script ends that is tested, and that is replayed.
ghost use Rattle.std.specs.Prelude.{◌≡◌, ℕ, List, Some};
ghost use Rattle.rg_base.specs.declared.numbers.Moment.{Moment};
ghost use Rattle.rg_run_replay.specs.Replay.{replayed};
ghost use Rattle.rg_run_script.specs.Follow.{Output};
ghost use Rattle.rg_run_script.specs.declared.status.Status.TheVariants.{Done};
ghost use Rattle.rg_test_script.specs.Alike.{EndsAlike};
ghost use Rattle.rg_test_script.specs.Testing.{Progress, tested};
ghost use Rattle.rg_test_script.specs.declared.form.Form.{Form};

/// Where the tests of lines are done, so is the replay of the same lines, and in the same state.
pub fn tested_as_replayed()
    ensures { (form : Form) (lines : List (List ℕ))
        (moments : List Moment) (tests : Output Progress) →
        tested form lines moments ≡ Some tests → tests.status ≡ Done → EndsAlike (replayed lines moments) tests }
{}
