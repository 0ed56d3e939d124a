// What contracts see of an index.
ghost use Rattle.rg_index.specs.Indexed.{Indexed};
ghost use base.Fml.{ftrue};

use std::marker::{Model, PhantomData, Send, Sync};

/// A definition and a list of forms that only contracts see: it takes no bytes, and no code can read it.
pub(crate) struct Seen {
    pub(crate) marker: PhantomData<()>,
    pub(crate) ghost value: { Indexed },
}

impl Model for Seen {
    ghost also_owns = { λ _. ftrue };
}

impl Drop for Seen {
    fn drop(self) {
        let Self { marker: _ } = self;
    }
}

unsafe impl Send for Seen {}

unsafe impl Sync for Seen {}
