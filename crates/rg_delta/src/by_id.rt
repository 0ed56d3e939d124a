// Values by ids.
ghost use Rattle.std.specs.Prelude.{◌≡◌, ℤ, OnOk, Some, if◌then◌else◌};
ghost use Rattle.std.specs.BTreeMap.{get};
ghost use Rattle.std.specs.Ordering.{int_cmp, int_eq};

use rg_base::NoMemory;
use std::collections::BTreeMap;

/// The id of a policy or of a tag row.
#[derive(Clone, Copy)]
pub struct Id(pub i64);

/// The value of the id.
pub(crate) fn value_at<V: Copy>(values: &BTreeMap<i64, V>, id: Id) -> Option<V>
    ensures { result ≡ get int_cmp values.now id.0 }
{
    values.get(&id.0).copied()
}

/// Gives the id this value.
pub(crate) fn set_at<V: Copy>(
    values: &mut BTreeMap<i64, V>,
    id: Id,
    value: V,
) -> Result<(), NoMemory>
    ensures { OnOk result ((other : ℤ) → get int_cmp values.new other
        ≡ (if int_eq id.0 other then Some value else get int_cmp values.old other)) }
{
    match values.insert(id.0, value) {
        Ok(_) => Ok(()),
        Err(_) => Err(NoMemory),
    }
}
