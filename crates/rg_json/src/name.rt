// The names of the fields in JSON.
ghost use Rattle.std.specs.Prelude.{◌≡◌};

/// The fields of a crate's records, each of which has a name.
pub trait Name: Copy + 'static {
    ghost use Rattle.std.specs.Prelude.{List, ℕ};

    /// The name.
    ghost name_of: { Self → List ℕ };

    /// Its name in JSON.
    fn name(self) -> &'static str
        ensures { result.now ≡ name_of self };
}
