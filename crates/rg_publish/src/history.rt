// The list of all publications, which exists in proofs alone, and the rule that is kept of it.
use logbook::{Gain, Plain, Play, Rule};
use rg_engine::Engine;
use rg_facts::Facts;
use std::sync::Arc;

/// A publication: its number, counted from 1, how many entries the history had before the download that it was made of, and
/// its facts. Contracts alone speak of it; no value of it is made.
pub struct Publication {
    pub serial: u64,
    pub seq: u64,
    pub facts: Facts,
}

/// What is kept of the list: a word holds its length, and it is numbered.
pub struct Numbering;

impl Rule<Publication, u64> for Numbering {
    ghost use Rattle.std.specs.Prelude.{[]};
    ghost use base.Fml.{ftrue};
    ghost use Rattle.rg_publish.specs.Publications.{IsKept};

    ghost holds = { IsKept };

    ghost first = { [] };

    ghost hinted = { λ word list. Unit {0} };

    ghost shows = { λ list. [] };

    ghost keeps = { λ names list. ftrue };

    ghost moves = { λ ask before after answer. Unit {0} };
}

/// A step is given nothing beside its word.
pub struct Nothing;

impl Gain<Publication, u64> for Nothing {
    ghost use base.Fml.{ftrue};

    ghost after = { λ names about answer. ftrue };
}

/// The step that adds a publication.
pub struct Add;

impl Play<Publication, u64> for Add {
    ghost use Rattle.rg_publish.specs.Publications.{Adds};

    ghost then = { Adds };
}

/// What is about to be published.
#[derive(Drop)]
pub struct Draft {
    pub engine: Arc<Engine>,
    pub serial: u64,
    pub seq: u64,
}

impl Plain<Draft, Publication, u64> for Add {
    ghost use Rattle.std.specs.Prelude.{None};
    ghost use Rattle.std.specs.Arc.{arc_value};

    ghost ask = { λ d. record { serial = d.serial; seq = d.seq; facts = arc_value d.engine } };

    ghost state = { λ d. None };
}
