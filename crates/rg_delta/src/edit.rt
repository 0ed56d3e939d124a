// Changes of one list of things with ids.
use crate::by_id::Id;
use rg_policy::Policy;
use rg_shared::Shared;
use rg_tags::TagRow;
use std::marker::Model;

/// A thing with an id.
pub trait Identified {
    ghost use Rattle.std.specs.Prelude.{◌≡◌, ℤ};

    /// Its id.
    ghost id_of: { Self → ℤ };

    /// Its id.
    fn id(&self) -> Id
        ensures { result.0 ≡ id_of self.now };
}

impl Identified for Shared<Policy> {
    ghost id_of = { λ policy. policy.id.0 };

    fn id(&self) -> Id {
        Id(self.id.0)
    }
}

impl Identified for TagRow {
    ghost id_of = { λ row. row.id };

    fn id(&self) -> Id {
        Id(self.id)
    }
}

/// A thing that was created, updated or deleted. Contracts see the thing itself.
#[derive(Drop)]
pub struct Edit<'a, X> {
    /// `CREATED`, `UPDATED` or `DELETED`.
    pub change_type: u8,
    /// The thing as it is now, or was before it was deleted.
    pub item: &'a X,
}

impl<'a, X> Model for Edit<'a, X> {
    ghost use Rattle.rg_delta.specs.Edits.{Edit as Seen};

    ghost Value = { Seen X };

    ghost view = { λ e. record { change_type = e.change_type; item = e.item.now } };
}
