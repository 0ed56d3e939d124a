// Laws of kept administration, each the contract of a function that does nothing.
ghost use Rattle.std.specs.Prelude.{List, ℕ};
ghost use Rattle.std.specs.List.{AllByRecursion};
ghost use Rattle.rg_cmd.specs.declared.config.Config.{Config};
ghost use Rattle.rg_keep.specs.Events.{AgreesWith, Event, HasAcknowledged, IsReadAgain, opened, run};
ghost use Rattle.rg_keep.specs.Keeping.{IsKeptBy};
ghost use Rattle.rg_keep.specs.Replay.{replayed};

/// Whatever is asked, and whenever a crash or a fault of the keeper comes, the list has the record of each acknowledged command,
/// in order, behind those that were found.
pub fn acknowledged_commands_are_kept()
    ensures { (config : Config) (found : List (List ℕ)) (events : List Event)
        → HasAcknowledged found (run config events (opened config found)) }
{}

/// Then the list is opened again as well: it has no bad record, and an administration that is there agrees with it.
pub fn lists_are_reopened()
    ensures { (config : Config) (found : List (List ℕ)) (events : List Event)
        → IsKeptBy config found (replayed config found) → AllByRecursion IsReadAgain events
        → AgreesWith config (run config events (opened config found)).entries (run config events (opened config found)).admin }
{}
