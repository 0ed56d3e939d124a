// Whether forms may be filed.
ghost use Rattle.std.specs.Prelude.{◌≡◌};
ghost use Rattle.std.specs.List.{list_any};
ghost use Rattle.std.specs.Ordering.{int_eq};
ghost use Rattle.rg_index.specs.declared.form.Form.{Form};
ghost use Rattle.rg_index.specs.Changes.{form_fits, forms_fit, ids_differ};

use crate::form::Form;
use rg_defs::ServiceDef;
use rg_resmatch::all_values_fit;

fn form_fits(def: &ServiceDef, form: &Form) -> bool
    ensures { result ≡ form_fits def.now form.now }
{
    all_values_fit(def, form.maps.as_slice())
}

/// Whether the values of each map of each form pass rule V6.
pub fn forms_fit(def: &ServiceDef, forms: &[Form]) -> bool
    ensures { result ≡ forms_fit def.now forms.now }
{
    forms.iter().all(|form| form_fits(def, form))
}

fn has_id(forms: &[Form], id: i64) -> bool
    ensures { result ≡ list_any (λ (f : Form). int_eq f.id id) forms.now }
{
    forms.iter().any(|form| form.id == id)
}

/// Whether no two forms have one id. The work is quadratic in their number.
pub fn ids_differ(forms: &[Form]) -> bool
    ensures { result ≡ ids_differ forms.now }
{
    let mut rest = forms;
    while let Some((form, later)) = rest.split_first() {
        if has_id(later, form.id) {
            return false;
        }
        rest = later;
    }
    true
}
