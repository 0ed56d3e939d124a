// Laws of membership, each the contract of a function that does nothing.
ghost use Rattle.std.specs.Prelude.{◌≡◌, ◌↔◌, ℕ, Bool, not, List, Contains, filter, IsTrue, Some, None};
ghost use Rattle.std.specs.Str.{bytes_eq};
ghost use Rattle.rg_roles.specs.declared.row.RoleRow.{RoleRow};
ghost use Rattle.rg_roles.specs.Chains.{Leads, leads};
ghost use Rattle.rg_roles.specs.declared.fault.RoleFault.TheVariants.{Duplicate, Unknown, Cycle};
ghost use Rattle.rg_roles.specs.Faults.{AreSound, IsApart, IsFirstRow, IsPut, NamesThere, NoRow, fault_of, is_on_cycle, names_absent, repeats};
ghost use Rattle.rg_roles.specs.Holding.{Holds, IsClosed, holds};
ghost use Rattle.rg_roles.specs.Members.{name_at, names_role};

/// The test decides whether a role holds a user, whatever the rows are.
pub fn holds_is_decided()
    ensures { (rows : List RoleRow) (role user : List ℕ) (groups : List (List ℕ))
        → IsTrue (holds rows role user groups) ↔ Holds rows role user groups }
{}

/// Holding is closed under the four cases, and every test that is closed under them passes where a role holds the user.
pub fn holds_is_least()
    ensures closed { (rows : List RoleRow) (user : List ℕ) (groups : List (List ℕ))
        → IsClosed rows user groups (λ role. Holds rows role user groups) }
    ensures least { (rows : List RoleRow) (user : List ℕ) (groups : List (List ℕ))
        (held : List ℕ → Bool) → IsClosed rows user groups (λ role. IsTrue (held role))
        → (role : List ℕ) → Holds rows role user groups → IsTrue (held role) }
{}

/// The test decides whether a chain of roles leads from a role to a row that passes, whatever the rows are.
pub fn leads_is_decided()
    ensures { (rows : List RoleRow) (test : RoleRow → Bool) (role : List ℕ)
        → IsTrue (leads rows test role) ↔ Leads rows test role }
{}

/// A row lies on a cycle where a chain of roles leads from it to a row that names it.
pub fn cycle_is_decided()
    ensures { (rows : List RoleRow) (place : ℕ) → IsTrue (is_on_cycle rows place)
        ↔ Leads rows (names_role (name_at rows place)) (name_at rows place) }
{}

/// There is no fault exactly where no row is at fault, and a fault has the least place of a row that is, where no row has
/// a fault that goes before it.
pub fn fault_is_first()
    ensures none { (rows : List RoleRow) → (fault_of rows ≡ None)
        ↔ (NoRow repeats rows × NoRow names_absent rows × NoRow is_on_cycle rows) }
    ensures duplicate { (rows : List RoleRow) (place : ℕ)
        → (fault_of rows ≡ Some (Duplicate place)) ↔ IsFirstRow repeats rows place }
    ensures unknown { (rows : List RoleRow) (place : ℕ) → (fault_of rows ≡ Some (Unknown place))
        ↔ (NoRow repeats rows × IsFirstRow names_absent rows place) }
    ensures cycle { (rows : List RoleRow) (place : ℕ) → (fault_of rows ≡ Some (Cycle place))
        ↔ (NoRow repeats rows × NoRow names_absent rows × IsFirstRow is_on_cycle rows place) }
{}

/// There is no fault exactly where no two rows have one name, each role that a row names is there, and no role names itself by
/// a chain.
pub fn sound_in_lists()
    ensures { (rows : List RoleRow) → (fault_of rows ≡ None) ↔ AreSound rows }
{}

/// Fewer rows keep it, where the roles that they name are kept.
pub fn fewer_rows_are_sound()
    ensures { (rows : List RoleRow) (keep : RoleRow → Bool) → fault_of rows ≡ None
        → ((row : RoleRow) → Contains (filter keep rows) row → NamesThere (filter keep rows) row) → fault_of (filter keep rows) ≡ None }
{}

/// A role that no other row names may go.
pub fn unnamed_role_may_go()
    ensures { (rows : List RoleRow) (role : List ℕ) → fault_of rows ≡ None
        → ((row : RoleRow) → Contains rows row → Contains row.roles.items role → row.name ≡ role)
        → fault_of (filter (λ (row : RoleRow). not (bytes_eq row.name role)) rows) ≡ None }
{}

/// A row may be put among the rows where each role that it names is there then, and its role doesn't name itself by a chain.
pub fn row_may_be_put()
    ensures { (rows new : List RoleRow) (row : RoleRow)
        → fault_of rows ≡ None → IsPut rows row new → NamesThere new row → IsApart new row.name
        → fault_of new ≡ None }
{}
