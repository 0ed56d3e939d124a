// Of which service it is what lies under a lock.
use std::marker::Brand;
use std::sync::ledger::Ledger;

/// Names a turn, a publisher and a plugin, and how they stood when the first link was taken. What lies under a lock is known by
/// its type alone, so the type has these names. It is the ledger of the links too.
pub(crate) trait Naming: Ledger {
    ghost use Rattle.std.specs.Prelude.{ℕ, List};
    ghost use Rattle.rg_admin_laws.specs.Logs.{Administration};
    ghost use Rattle.rg_turn.specs.Values.{TurnName};
    ghost use Rattle.rg_publish.specs.Publications.{Published};
    ghost use Rattle.rg_publish.specs.declared.history.Publication.{Publication};
    ghost use Rattle.rg_serve.specs.Trails.{Seated};

    ghost turn: { TurnName Administration };

    /// The publisher, with the publications that the passes began with.
    ghost opening: { Published };

    ghost plugin: { List ℕ };

    /// The refresher's seat.
    ghost before: { Seated };

    /// What was published.
    ghost published: { List Publication };
}

impl Naming for Brand {
    ghost use Rattle.std.specs.Prelude.{[]};
    ghost use Rattle.rg_serve.specs.Names.{no_publisher, no_seat, no_turn};

    ghost turn = { no_turn };

    ghost opening = { no_publisher };

    ghost plugin = { [] };

    ghost before = { no_seat };

    ghost published = { [] };
}
