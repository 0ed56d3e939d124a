// Laws of reports, each the contract of a function that does nothing.
ghost use Rattle.std.specs.Prelude.{◌≡◌, ◌↔◌, ◌<◌, ◌∷◌, ℕ, List, length, map, replicate, Contains, true};
ghost use Rattle.std.specs.Str.{encode_utf8_all};
ghost use Rattle.rg_facts.specs.Flow.{eval};
ghost use Rattle.rg_facts.specs.declared.facts.Facts.{Facts};
ghost use Rattle.rg_policy.specs.declared.request.AccessRequest.{AccessRequest};
ghost use Rattle.rg_roles.specs.Members.{names_of};
ghost use Rattle.rg_trie.specs.Blocks.{IsRising};
ghost use Rattle.rg_acl.specs.Laws.{Begins, HasRows, IsDecided, is_unnamed, values_are_plain};
ghost use Rattle.rg_acl.specs.Named.{named};
ghost use Rattle.rg_acl.specs.Ordered.{bytes_in_order};
ghost use Rattle.rg_acl.specs.Rows.{report_rows};
ghost use Rattle.rg_acl.specs.Sorting.{Below};
ghost use Rattle.rg_acl.specs.Strangers.{stranger};
ghost use Rattle.rg_acl.specs.declared.ask.ReportAsk.{ReportAsk};
ghost use Rattle.rg_acl.specs.declared.named.Listing.TheVariants.{Users, Groups};
ghost use Rattle.rg_acl.specs.declared.row.ReportRow.{ReportRow};

/// Each row says what is decided: for a user the decision of that user without groups, for a group that of a stranger who is
/// in that one group, for a role that of a stranger who is its member, and for all others that of the stranger.
pub fn rows_are_decisions()
    ensures { (facts : Facts) (ask : ReportAsk) (row : ReportRow)
        → Contains (report_rows facts ask) row → IsDecided facts ask row }
{}

/// The rows are complete: each named user, each named group and each role has a row for each access, whatever is decided, and
/// so have all others.
pub fn rows_are_complete()
    ensures { (facts : Facts) (ask : ReportAsk) → HasRows facts ask (report_rows facts ask) }
{}

/// Where no value has `{USER}`, any two users who aren't named, don't own the resource and aren't `{USER}` or `{OWNER}` get the
/// same verdicts, if they are in the same groups.
pub fn others_are_decided_alike()
    ensures { (facts : Facts) (q : AccessRequest) (user other : List ℕ)
        → values_are_plain facts ≡ true → is_unnamed facts q.resource.owner user ≡ true
        → is_unnamed facts q.resource.owner other ≡ true → eval facts (record q { user = user }) ≡ eval facts (record q { user = other }) }
{}

/// The stranger isn't named: its name begins the name of no named user, and not the owner's; of fewer `#` this isn't so.
pub fn strangers_are_unnamed()
    ensures unnamed { (facts : Facts) (owner : List ℕ)
        → is_unnamed facts owner (stranger facts owner) ≡ true }
    ensures begins { (facts : Facts) (owner text : List ℕ)
        → Contains (owner ∷ named Users facts) text → Begins (stranger facts owner) text → ⊥ }
    ensures least { (facts : Facts) (owner : List ℕ) (n : ℕ)
        → 0 < n → n < length (stranger facts owner)
        → (text : List ℕ) × Contains (owner ∷ named Users facts) text × Begins (replicate n 35) text }
{}

/// Names in order rise by their bytes, so that none stands twice, and they are those that were put in order.
pub fn names_stand_once()
    ensures rise { (all : List (List ℕ)) → IsRising Below (bytes_in_order all) }
    ensures same { (all : List (List ℕ)) (bytes : List ℕ)
        → Contains (bytes_in_order all) bytes ↔ Contains all bytes }
{}
