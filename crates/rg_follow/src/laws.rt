// Laws of rounds, each the contract of a function that does nothing.
ghost use Rattle.std.specs.Prelude.{◌≡◌, ◌≤◌, ℕ, List, Option, Some, length};
ghost use Rattle.rg_turn.specs.History.{IsLegal, state_at};
ghost use Rattle.rg_turn.specs.declared.rule.Entry.{Entry};
ghost use Rattle.rg_facts.specs.declared.facts.Facts.{Facts};
ghost use Rattle.rg_cmd.specs.declared.ask.AdminReply.{AdminReply};
ghost use Rattle.rg_cmd.specs.declared.ask.Ask.{Ask};
ghost use Rattle.rg_cmd.specs.declared.download.Download.{Download};
ghost use Rattle.rg_admin_laws.specs.Laws.{AreNoLess, IsNotDeleted};
ghost use Rattle.rg_admin_laws.specs.Logs.{Administration};
ghost use Rattle.rg_admin_laws.specs.Starts.{IsStart};
ghost use Rattle.rg_admin_laws.specs.Steps.{step};
ghost use Rattle.rg_admin_laws.specs.Views.{view};
ghost use Rattle.rg_follow.specs.Answering.{AreAnswered, AreAnsweredAnew, IsRound, WasSeen};
ghost use Rattle.rg_follow.specs.Rounds.{Settles, SettlesAnew};

use rg_admin_laws::{downloads_lead, unchanged_from_present_versions, versions_never_fall};

/// The law of rounds. What a round settles at is what the service's plugin sees after so many entries of the one history: no fewer
/// than there were at the round's first question, and no more than at its last. It asks that what was had, if anything, is such a
/// view of an earlier moment, and that the service isn't deleted meanwhile.
pub fn settled_is_a_view()
    ensures on { (start : Administration) (h : List (Entry Ask AdminReply))
        → IsStart start → IsLegal step start h
        → (service : List ℕ) (j : ℕ) → IsNotDeleted h j (length h) service
        → (had : Facts) → view (state_at step start h j) service ≡ Some had
        → (first last : ℕ) → j ≤ first → (ds : List Download) → AreAnswered start h service had ds first last
        → (after : Facts) → Settles had ds after
        → (n : ℕ) × (first ≤ n) × (n ≤ last) × (view (state_at step start h n) service ≡ Some after) }
    ensures anew { (start : Administration) (h : List (Entry Ask AdminReply))
        → IsStart start → IsLegal step start h
        → (service : List ℕ) (first last : ℕ) → IsNotDeleted h first (length h) service
        → (ds : List Download) → AreAnsweredAnew start h service ds first last
        → (after : Facts) → SettlesAnew service ds after
        → (n : ℕ) × (first ≤ n) × (n ≤ last) × (view (state_at step start h n) service ≡ Some after) }
{
    downloads_lead();
    versions_never_fall();
    unchanged_from_present_versions();
}

/// A plugin never goes back. Of two rounds, where the later begins from what the earlier settled at, after the earlier's last
/// answer, what the later settles at is the view of no earlier moment, and none of its versions is less. It asks of the earlier
/// round what the law of rounds does.
pub fn rounds_go_on()
    ensures never_back { (start : Administration) (h : List (Entry Ask AdminReply))
        → IsStart start → IsLegal step start h
        → (service : List ℕ) (j : ℕ) → IsNotDeleted h j (length h) service
        → (had : Option Facts) → WasSeen start h service j had → (after later : Facts)
        → (first last again end : ℕ) → j ≤ first → IsRound start h service had after first last
        → last ≤ again → IsRound start h service (Some after) later again end
        → (n : ℕ) × (k : ℕ) × (first ≤ n) × (n ≤ last) × (n ≤ k) × (again ≤ k) × (k ≤ end)
        × (view (state_at step start h n) service ≡ Some after) × (view (state_at step start h k) service ≡ Some later) }
    ensures no_version_falls { (start : Administration) (h : List (Entry Ask AdminReply))
        → IsStart start → IsLegal step start h
        → (service : List ℕ) (j : ℕ) → IsNotDeleted h j (length h) service
        → (had : Option Facts) → WasSeen start h service j had → (after later : Facts)
        → (first last again end : ℕ) → j ≤ first → IsRound start h service had after first last
        → last ≤ again → IsRound start h service (Some after) later again end
        → AreNoLess after later }
{
    settled_is_a_view();
    versions_never_fall();
}
