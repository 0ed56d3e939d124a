// What a line of a script came to.
ghost use Rattle.std.specs.Prelude.{◌≡◌, string_bytes};

use rg_facts::Decision;
use rg_policy::AccessRequest;
use std::marker::Model;

/// What a line printed, with its LF. Contracts see the bytes.
#[derive(Drop)]
pub struct Printed {
    held: String,
}

impl Model for Printed {
    ghost use Rattle.std.specs.Prelude.{List, ℕ, string_bytes};

    ghost Value = { List ℕ };

    ghost view = { λ p. string_bytes p.held };
}

impl Printed {
    /// This text.
    pub(crate) fn of(held: String) -> Printed
        ensures { result ≡ string_bytes held }
    {
        Printed { held }
    }

    /// The text.
    pub(crate) fn as_str(&self) -> &str
        ensures { result.now ≡ self.now }
    {
        self.held.as_str()
    }
}

/// What a line of a script came to.
#[derive(Drop)]
pub enum Outcome {
    /// Nothing was printed.
    Nothing,
    Printed(Printed),
    /// The request was decided so.
    Decided(AccessRequest, Decision),
}
