// What holds of the documents and publications of every history.
ghost use Rattle.std.specs.Prelude.{◌≡◌, ◌≤◌, ◌<◌, ◌^◌, ◌+◌, ◌-◌, ℕ, [], ◌∷◌, ◌++◌, List, Some, length, slice_get};
ghost use mathlib.Core.List.{IsPrefix};
ghost use Rattle.rg_turn.specs.History.{IsLegal, state_at};
ghost use Rattle.rg_turn.specs.View.{entry};
ghost use Rattle.rg_turn.specs.declared.rule.Entry.{Entry};
ghost use Rattle.rg_facts.specs.declared.facts.Facts.{Facts};
ghost use Rattle.rg_cmd.specs.declared.ask.AdminReply.{AdminReply};
ghost use Rattle.rg_cmd.specs.declared.ask.AdminReply.TheVariants.{Downloaded};
ghost use Rattle.rg_cmd.specs.declared.ask.Ask.{Ask};
ghost use Rattle.rg_cmd.specs.declared.download.Download.{Download};
ghost use Rattle.rg_admin_laws.specs.Logs.{Administration};
ghost use Rattle.rg_admin_laws.specs.Machine.{Versions, download_ask, versions};
ghost use Rattle.rg_admin_laws.specs.Starts.{IsStart};
ghost use Rattle.rg_admin_laws.specs.Steps.{step};
ghost use Rattle.rg_admin_laws.specs.Views.{view};
ghost use Rattle.rg_publish.specs.Publications.{publication};
ghost use Rattle.rg_publish.specs.declared.history.Publication.{Publication};
ghost use Rattle.rg_session.specs.Documents.{Leads};
ghost use Rattle.rg_session.specs.Right.{AreDownloadedFor, AreRightFor};

use rg_admin::Admin;
use rg_admin_laws::{
    downloads_lead, plugin_is_always_viewed, publications_stay_right,
    unchanged_from_present_versions, versions_never_fall, views_are_sound,
};
use rg_turn::laws::{beginnings, one_more_entry};

/// The first publication, of serial 1 and seq 0, with what the plugin sees of a start, is right for every history from there.
pub fn first_is_right()
    ensures { (start : Administration) (facts : Facts) → view start start.state.plugin ≡ Some facts
        → (h : List (Entry Ask AdminReply)) → AreRightFor start h (publication 1 0 facts ∷ []) }
{}

/// Publications that are right for a history are right for it as it goes on.
pub fn right_lists_stay_right()
    ensures { (start : Administration)
        (h later : List (Entry Ask AdminReply)) (list : List Publication) → IsPrefix h later
        → AreRightFor start h list → AreRightFor start later list }
{
    publications_stay_right();
}

/// Publications that were made of downloads of a history are so as it goes on, and so is a first one.
pub fn downloaded_lists_stay()
    ensures first { (start : Administration) (h : List (Entry Ask AdminReply)) (p : Publication)
        → AreDownloadedFor start h (p ∷ []) }
    ensures later { (start : Administration) (h later : List (Entry Ask AdminReply))
        (list : List Publication) → IsPrefix h later
        → AreDownloadedFor start h list → AreDownloadedFor start later list }
{}

/// No rule refuses the plugin's download: its reply is a document.
pub(crate) fn documents_come()
    ensures { (start : Administration)
        (h : List (Entry Ask AdminReply)) (from : Versions) (reply : AdminReply)
        → IsStart start → IsLegal step start (h ++ entry (download_ask start.state.plugin from) reply ∷ [])
        → (d : Download) × (reply ≡ Downloaded d) }
{
    one_more_entry::<Admin>();
    plugin_is_always_viewed();
}

/// The document that ends a history, if it is the plugin's download from the versions of the newest of right publications.
pub fn documents_lead()
    ensures { (start : Administration) (h : List (Entry Ask AdminReply))
        (list : List Publication) (newest : Publication) (d : Download)
        → IsStart start → AreRightFor start h list → slice_get list (length list - 1) ≡ Some newest
        → IsLegal step start (h ++ entry (download_ask start.state.plugin (versions newest.facts)) (Downloaded d) ∷ []) → length h < 2 ^ 62
        → Leads start h list d }
{
    beginnings::<Admin>();
    one_more_entry::<Admin>();
    downloads_lead();
    versions_never_fall();
    plugin_is_always_viewed();
    unchanged_from_present_versions();
    views_are_sound();
}

/// One publication more: what the plugin sees after so many entries, more than the newest publication came after.
pub(crate) fn one_more_is_right()
    ensures { (start : Administration) (h : List (Entry Ask AdminReply))
        (list : List Publication) (newest : Publication) (n : ℕ) (facts : Facts)
        → AreRightFor start h list → slice_get list (length list - 1) ≡ Some newest → newest.seq < n → n < length h
        → view (state_at step start h n) start.state.plugin ≡ Some facts
        → AreRightFor start h (list ++ publication (length list + 1) n facts ∷ []) }
{}
