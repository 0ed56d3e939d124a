// What is noted of unsound facts.
ghost use Rattle.std.specs.Prelude.{◌≡◌, ◌++◌, OnOk};
ghost use Rattle.rg_facts_check.specs.Causes.{some_of, unless};

use crate::unsound::Unsound;
use rg_base::NoMemory;

/// The cause, unless the test holds.
pub(crate) fn unless(holds: bool, cause: Unsound) -> Option<Unsound>
    ensures { result ≡ unless holds cause }
{
    if holds { None } else { Some(cause) }
}

/// Adds the cause, if there is one.
pub(crate) fn note(causes: &mut Vec<Unsound>, cause: Option<Unsound>) -> Result<(), NoMemory>
    ensures { OnOk result (causes.new.items ≡ causes.old.items ++ some_of cause) }
{
    if let Some(cause) = cause {
        causes.push(cause)?;
    }
    Ok(())
}
