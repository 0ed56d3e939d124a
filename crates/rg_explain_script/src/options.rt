// What the words of the command line ask for.
ghost use Rattle.std.specs.Prelude.{◌≡◌};
ghost use Rattle.rg_explain_script.specs.Explained.{is_wanted, then_wanted};

/// How explanations are printed.
#[derive(Clone, Copy, Debug, PartialEq, Eq)]
pub enum Form {
    /// In sentences, with an empty line behind each explanation.
    Words,
    /// A line of JSON for each.
    Json,
}

/// How explanations are told.
#[derive(Clone, Copy, Debug, PartialEq, Eq)]
pub struct Style {
    pub form: Form,
    /// Whether policies are listed too of which no level matches.
    pub all: bool,
}

/// Which of the decisions to come are explained.
#[derive(Clone, Copy, Debug, PartialEq, Eq)]
pub enum Wanted {
    Every,
    /// One alone, so many after the next.
    After(u32),
    Nothing,
}

impl Wanted {
    /// Whether the next decision is explained.
    pub fn is_next(self) -> bool
        ensures { result ≡ is_wanted self }
    {
        match self {
            Wanted::Every | Wanted::After(0) => true,
            Wanted::After(_) | Wanted::Nothing => false,
        }
    }

    /// The same of those after the next.
    pub fn then(self) -> Wanted
        ensures { result ≡ then_wanted self }
    {
        match self {
            Wanted::Every => Wanted::Every,
            Wanted::After(0) | Wanted::Nothing => Wanted::Nothing,
            Wanted::After(more) => Wanted::After(more - 1),
        }
    }
}

/// What the words of the command line ask for.
#[derive(Clone, Copy, Debug, PartialEq, Eq)]
pub struct Options {
    pub style: Style,
    pub wanted: Wanted,
}
