// How an index comes about.
ghost use Rattle.std.specs.Prelude.{◌≡◌};
ghost use Rattle.rg_index.specs.Origins.{seen_from};

use crate::form::Form;
use crate::seen::Seen;
use rg_defs::ServiceDef;
use std::marker::PhantomData;

/// What an index is made from.
#[derive(Clone, Copy)]
pub(crate) enum Origin<'a> {
    /// This definition and these forms.
    Built(&'a ServiceDef, &'a [Form]),
    /// Another index, with the new form in the place of the old one.
    Changed(&'a Seen, Option<&'a Form>, Option<&'a Form>),
}

impl Seen {
    /// What is seen of it.
    pub(crate) fn of(_origin: &Origin<'_>) -> Seen
        ensures { result.value ≡ seen_from _origin.now }
    {
        Seen {
            marker: PhantomData,
        }
    }
}
