// Laws of candidates, each the contract of a function that does nothing.
ghost use Rattle.std.specs.Prelude.{◌≡◌, ℕ, ℤ, List, true};
ghost use Rattle.std.specs.List.{Contains};
ghost use Rattle.rg_defs.specs.declared.service_def.ServiceDef.{ServiceDef};
ghost use Rattle.rg_index.specs.declared.form.Form.{Form};
ghost use Rattle.rg_index.specs.Candidates.{candidates};
ghost use Rattle.rg_policy.specs.declared.request.Element.{Element};
ghost use Rattle.rg_resmatch.specs.Tests.{some_lies};

use rg_pattern::{prefix_begins_text, stands_is_decided};

/// Every form that lies on a resource for some user is among its candidates.
pub fn lying_forms_are_candidates()
    ensures { (def : ServiceDef) (forms : List Form)
        (elements : List Element) (form : Form) (user : List ℕ) → Contains forms form
        → some_lies def form.maps.items form.reach elements user ≡ true → Contains (candidates def forms elements) form.id }
{
    stands_is_decided();
    prefix_begins_text();
}

/// Each candidate is the id of one of the forms.
pub fn candidates_are_of_forms()
    ensures { (def : ServiceDef) (forms : List Form) (elements : List Element) (id : ℤ)
        → Contains (candidates def forms elements) id
        → (form : Form) × Contains forms form × (form.id ≡ id) }
{}
