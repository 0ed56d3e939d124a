// What a command makes of a script whose bad lines are named.
ghost use Rattle.std.specs.Prelude.{◌≡◌, ◌++◌, ℕ, List, None, Some};
ghost use Rattle.rg_base.specs.declared.numbers.Moment.{Moment};
ghost use Rattle.rg_hook.specs.Enriching.{EnricherState};
ghost use Rattle.rg_run_script.specs.Follow.{Output};
ghost use Rattle.rg_run_script.specs.Hooked.{Hooked};
ghost use Rattle.rg_run_replay.specs.Replay as replay;
ghost use Rattle.rg_run_grants.specs.Grants as grants;
ghost use Rattle.rg_run_report.specs.Report as report;
ghost use Rattle.rg_run_keep.specs.Keeps as keep;
ghost use Rattle.rg_run_serve.specs.Serve as serve;
ghost use Rattle.rg_check.specs.declared.command.Command.TheVariants as command;
ghost use Rattle.rg_check.specs.Checking.{found_by};
ghost use Rattle.rg_check.specs.Naming.{EndsAtFirst};

use rg_admin_laws::plugin_is_always_viewed;
use rg_facts_check::sound_without_cause;
use rg_zones::zones_apart_by_pairs;

/// A script of which nothing is named is worked to its end by its command; else the command ends at the line that is named first,
/// whatever the enrichers, and for `keep` whatever the records that it found, unless one of them is bad. It asks no moment for the
/// lines after that one.
pub fn scripts_end_at_first()
    ensures replay { (es : List EnricherState) (lines : List (List ℕ))
        (moments later : List Moment) (output : Output (Hooked replay.State))
        → replay.replayed_with es lines moments ≡ Some output → EndsAtFirst output (found_by command.Replay lines (moments ++ later)) }
    ensures grants { (es : List EnricherState) (lines : List (List ℕ))
        (moments later : List Moment) (output : Output (Hooked grants.State))
        → grants.grants es lines moments ≡ Some output → EndsAtFirst output (found_by command.Grants lines (moments ++ later)) }
    ensures report { (lines : List (List ℕ)) (moments later : List Moment)
        (output : Output report.State) → report.reported lines moments ≡ Some output
        → EndsAtFirst output (found_by command.Report lines (moments ++ later)) }
    ensures keep { (es : List EnricherState) (records lines : List (List ℕ))
        (moments later : List Moment) (output : Output (Hooked keep.State))
        → keep.keeps es records lines moments ≡ Some output → output.state.state.bad ≡ None → EndsAtFirst output (found_by command.Keep lines (moments ++ later)) }
    ensures serve { (lines : List (List ℕ)) (moments later : List Moment)
        (output : Output serve.Asking) → serve.taken lines moments ≡ Some output
        → EndsAtFirst output (found_by command.Serve lines (moments ++ later)) }
{
    plugin_is_always_viewed();
    sound_without_cause();
    zones_apart_by_pairs();
}
