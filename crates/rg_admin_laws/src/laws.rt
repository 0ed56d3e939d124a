// Laws of the administration, each the contract of a function that does nothing.
ghost use Rattle.std.specs.Prelude.{◌≡◌, ◌==◌, ℕ, ◌≤◌, ◌<◌, ◌+◌, ◌^◌, ◌∷◌, ◌++◌, List, Contains, None, Some, length, map, slice_get, int_lt, is_some, false, true};
ghost use Rattle.std.specs.Ordering.{int_eq};
ghost use Rattle.rg_turn.specs.History.{IsLegal, state_at};
ghost use Rattle.rg_turn.specs.declared.rule.Entry.{Entry};
ghost use Rattle.rg_cmd.specs.declared.ask.AdminCommand.TheVariants.{CreatePolicy, DeletePolicy};
ghost use Rattle.rg_cmd.specs.declared.ask.AdminReply.{AdminReply};
ghost use Rattle.rg_cmd.specs.declared.ask.AdminReply.TheVariants.{Refused};
ghost use Rattle.rg_cmd.specs.declared.ask.Ask.{Ask};
ghost use Rattle.rg_cmd.specs.declared.changes.Log.{Log};
ghost use Rattle.rg_cmd.specs.declared.download.Download.{Download};
ghost use Rattle.rg_cmd.specs.Lookups.{is_of, is_of_tag, is_row_of, tag_service_of};
ghost use Rattle.rg_cmd.specs.declared.rule.Rule.{Rule};
ghost use Rattle.rg_cmd.specs.declared.state.ServiceRow.{ServiceRow};
ghost use Rattle.rg_cmd.specs.declared.state.State.{State};
ghost use Rattle.rg_base.specs.declared.numbers.PolicyId.{PolicyId};
ghost use Rattle.rg_policy.specs.declared.policy.Policy.{Policy};
ghost use Rattle.rg_tags.specs.declared.row.TagRow.{TagRow};
ghost use Rattle.rg_facts.specs.Sound.{sound};
ghost use Rattle.rg_facts.specs.declared.facts.Facts.{Facts};
ghost use Rattle.rg_validate.specs.Rules.{first_fault};
ghost use Rattle.rg_validate.specs.Valid.{IsKept, IsValid};
ghost use Rattle.rg_delegate.specs.Ready.{FormFits, IsReady};
ghost use Rattle.rg_admin_laws.specs.Changes.{after_command, created_form};
ghost use Rattle.rg_admin_laws.specs.Downloads.{download};
ghost use Rattle.rg_admin_laws.specs.Laws.{AreNoLess, IsNotDeleted, from_of, gave_id, is_refused, with_policies, with_tag_rows};
ghost use Rattle.rg_admin_laws.specs.Leading.{led};
ghost use Rattle.rg_admin_laws.specs.Logs.{Administration};
ghost use Rattle.rg_admin_laws.specs.Machine.{Events, IsOpened, administration, after_events, is_unchanged, same_policies, same_roles, same_tags, same_versions, versions};
ghost use Rattle.rg_admin_laws.specs.Starts.{IsStart};
ghost use Rattle.rg_admin_laws.specs.Steps.{counted, fault, step};
ghost use Rattle.rg_admin_laws.specs.Views.{view};
ghost use Rattle.rg_admin_laws.specs.World.{Answer, AreRight, Event, IsAnswered, Publication, publications};

use rg_roles::laws::{leads_is_decided, row_may_be_put, sound_in_lists, unnamed_role_may_go};
use rg_validate::zones_apart_by_pairs;

/// The law of downloads: for two states of one legal history, and a service that no entry between them deletes, the download
/// in the later state from the versions of the earlier view leads from that view to the later one.
pub fn downloads_lead()
    ensures { (start : Administration) (h : List (Entry Ask AdminReply))
        → IsStart start → IsLegal step start h
        → (j k : ℕ) → j ≤ k → k ≤ length h → (service : List ℕ) → IsNotDeleted h j k service
        → (before after : Facts) (d : Download) → view (state_at step start h j) service ≡ Some before → view (state_at step start h k) service ≡ Some after
        → download (state_at step start h k) service (from_of before) ≡ Some d → led before d ≡ after }
{}

/// No version of a service falls while no entry deletes the service.
pub fn versions_never_fall()
    ensures { (start : Administration) (h : List (Entry Ask AdminReply))
        → IsStart start → IsLegal step start h
        → (j k : ℕ) → j ≤ k → k ≤ length h → (service : List ℕ) → IsNotDeleted h j k service
        → (before after : Facts) → view (state_at step start h j) service ≡ Some before → view (state_at step start h k) service ≡ Some after
        → AreNoLess before after }
{}

/// In a state of a history an ask is refused exactly where it breaks a rule. The reply names the first, and the refused ask
/// changes nothing but the count of entries.
pub fn refusals_are_exact()
    ensures exact { (start : Administration) (h : List (Entry Ask AdminReply))
        → IsStart start → (k : ℕ) (ask : Ask)
        → is_refused (step (state_at step start h k) ask).1 ≡ is_some (fault (state_at step start h k).state ask) }
    ensures changes { (a : Administration) (ask : Ask) (rule : Rule) → fault a.state ask ≡ Some rule
        → step a ask ≡ (record a { state = counted a.state }, Refused rule) }
{}

/// The id of a policy is given once, also where the policy is deleted.
pub fn ids_are_given_once()
    ensures { (start : Administration) (h : List (Entry Ask AdminReply))
        → IsStart start → IsLegal step start h
        → (j k : ℕ) (e f : Entry Ask AdminReply) → j < k → slice_get h j ≡ Some e → slice_get h k ≡ Some f
        → (id other : PolicyId) → gave_id e.ask.command e.reply ≡ Some id → gave_id f.ask.command f.reply ≡ Some other → int_eq id.0 other.0 ≡ false }
{}

/// The ids of the policies rise in the order of their creation.
pub fn ids_rise()
    ensures { (start : Administration) (h : List (Entry Ask AdminReply))
        → IsStart start → IsLegal step start h
        → (j k : ℕ) (e f : Entry Ask AdminReply) → j < k → slice_get h j ≡ Some e → slice_get h k ≡ Some f
        → (id other : PolicyId) → gave_id e.ask.command e.reply ≡ Some id → gave_id f.ask.command f.reply ≡ Some other → int_lt id.0 other.0 ≡ true }
{}

/// In every state of a history there is one log for each service, in the order of the services.
pub fn logs_follow_services()
    ensures { (start : Administration) (h : List (Entry Ask AdminReply)) → IsStart start → (k : ℕ)
        → map (λ (log : Log). log.service) (state_at step start h k).logs ≡ map (λ (row : ServiceRow). row.name) (state_at step start h k).state.services.items }
{}

/// A version is at most one more than the number of the entries before.
pub fn versions_are_few()
    ensures logs { (start : Administration) (h : List (Entry Ask AdminReply))
        → IsStart start → (k : ℕ) → k ≤ length h
        → (log : Log) → Contains (state_at step start h k).logs log → (log.policy_version.0 ≤ k + 1) × (log.tag_version.0 ≤ k + 1) }
    ensures roles { (start : Administration) (h : List (Entry Ask AdminReply))
        → IsStart start → (k : ℕ) → k ≤ length h
        → (state_at step start h k).state.role_version.0 ≤ k + 1 }
{}

/// In a valid state, the rules of authority may be asked of each command that breaks no rule before them: the definitions, the
/// policies and the roles are as these rules want them, and so is the command's policy.
pub fn accepted_commands_are_ready()
    ensures ready { (s : State) → IsValid s → IsReady s }
    ensures fits { (s : State) → IsValid s
        → (ask : Ask) → first_fault s ask ≡ None → FormFits s ask.command }
{}

/// The download of a service from some versions is unchanged in each part exactly where that part's version is the present
/// one, and so in all parts exactly where all three are.
pub fn unchanged_from_present_versions()
    ensures policies { (a : Administration) (service : List ℕ) (before after : Facts) (d : Download)
        → view a service ≡ Some after
        → download a service (from_of before) ≡ Some d → same_policies d.policies ≡ (before.policy_version.0 == after.policy_version.0) }
    ensures tags { (a : Administration) (service : List ℕ) (before after : Facts) (d : Download)
        → view a service ≡ Some after
        → download a service (from_of before) ≡ Some d → same_tags d.tags ≡ (before.tag_version.0 == after.tag_version.0) }
    ensures roles { (a : Administration) (service : List ℕ) (before after : Facts) (d : Download)
        → view a service ≡ Some after
        → download a service (from_of before) ≡ Some d → same_roles d.roles ≡ (before.role_version.0 == after.role_version.0) }
    ensures together { (a : Administration) (service : List ℕ) (before after : Facts) (d : Download)
        → view a service ≡ Some after
        → download a service (from_of before) ≡ Some d → is_unchanged d ≡ same_versions (versions before) (versions after) }
{}

/// To delete the policy that was just created gives back the list of policies.
pub fn created_policy_may_go()
    ensures { (s : State) (p : Policy) → IsKept s
        → (after_command (after_command s (CreatePolicy p)) (DeletePolicy (created_form s p).id)).policies.items ≡ s.policies.items }
{}

/// A view rests on no policy of another service that isn't its tag service, and on no tag row of another service.
pub fn views_rest_on_their_own()
    ensures policies { (a : Administration)
        (service : List ℕ) (before after : List Policy) (p : Policy)
        → is_of service p ≡ false → is_of_tag (tag_service_of a.state service) p ≡ false
        → view (with_policies a (before ++ p ∷ after)) service ≡ view (with_policies a (before ++ after)) service }
    ensures tag_rows { (a : Administration) (service : List ℕ)
        (before after : List TagRow) (row : TagRow) → is_row_of service row ≡ false
        → view (with_tag_rows a (before ++ row ∷ after)) service ≡ view (with_tag_rows a (before ++ after)) service }
{}

/// The plugin's service is never deleted, and every state of a history has its view.
pub fn plugin_is_always_viewed()
    ensures stays { (start : Administration) (h : List (Entry Ask AdminReply))
        → IsStart start → IsLegal step start h
        → IsNotDeleted h 0 (length h) start.state.plugin }
    ensures viewed { (start : Administration) (h : List (Entry Ask AdminReply)) → IsStart start
        → (k : ℕ) → (f : Facts) × (view (state_at step start h k) start.state.plugin ≡ Some f) }
{}

/// Every state of a history is valid, and passes what else an administration keeps.
pub fn states_are_kept()
    ensures { (start : Administration) (h : List (Entry Ask AdminReply))
        → IsStart start → (k : ℕ) → IsKept (state_at step start h k).state }
{
    leads_is_decided();
    sound_in_lists();
    row_may_be_put();
    unnamed_role_may_go();
    zones_apart_by_pairs();
}

/// The law of sound views: every view in a state of a history before which there are fewer than `2^62` entries is sound, the
/// start's too.
pub fn views_are_sound()
    ensures { (start : Administration) (h : List (Entry Ask AdminReply))
        → IsStart start → (k : ℕ) → k ≤ length h → k < 2 ^ 62
        → (service : List ℕ) (facts : Facts) → view (state_at step start h k) service ≡ Some facts → sound facts ≡ true }
{
    leads_is_decided();
    sound_in_lists();
    row_may_be_put();
    unnamed_role_may_go();
    zones_apart_by_pairs();
}

/// Publications that are right for a history are right for it as it goes on.
pub fn publications_stay_right()
    ensures { (plugin : List ℕ) (start : Administration)
        (h more : List (Entry Ask AdminReply)) (ps : List (Publication (administration plugin)))
        → AreRight (administration plugin) start h ps → AreRight (administration plugin) start (h ++ more) ps }
{}

/// The law of the world. Whatever happens after an administration started, its history is legal and its publications are right
/// for it, each answer is the evaluation over the last publication that its pass had seen, and how many publications a pass
/// has seen never falls and is at least each number that it learnt.
pub fn world()
    ensures start { (start : Administration) (facts : Facts) (events : Events start)
        → IsOpened start facts
        → (after_events start facts events).start ≡ start }
    ensures legal { (start : Administration) (facts : Facts) (events : Events start)
        → IsOpened start facts
        → IsLegal step (after_events start facts events).start (after_events start facts events).history }
    ensures right { (start : Administration) (facts : Facts) (events : Events start)
        → IsOpened start facts
        → AreRight (administration start.state.plugin) (after_events start facts events).start (after_events start facts events).history
        (publications (administration start.state.plugin) (after_events start facts events)) }
    ensures answered { (start : Administration) (facts : Facts) (events : Events start)
        → IsOpened start facts
        → (a : Answer (administration start.state.plugin)) → Contains (after_events start facts events).answers a
        → IsAnswered (administration start.state.plugin) (after_events start facts events) a }
    ensures never_falls { (start : Administration) (facts : Facts) (events more : Events start)
        → IsOpened start facts
        → (pass : ℕ) → (after_events start facts events).seen pass ≤ (after_events start facts (events ++ more)).seen pass }
    ensures learnt { (start : Administration) (facts : Facts) (events more : Events start)
        → IsOpened start facts
        → (pass which n : ℕ) → slice_get (after_events start facts events).tokens which ≡ Some n
        → n ≤ (after_events start facts (events ++ Event.Learn pass which ∷ more)).seen pass }
{}
