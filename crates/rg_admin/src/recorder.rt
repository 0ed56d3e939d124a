// What an administration tells of each ask that it accepts, before it is done.
ghost use Rattle.std.specs.Prelude.{◌≡◌, None, OnErr, OnOk};
ghost use Rattle.rg_cmd.specs.declared.ask.Ask.{Ask};
ghost use Rattle.rg_admin_laws.specs.Logs.{Administration};
ghost use Rattle.rg_admin_laws.specs.Steps.{accepted, fault, refused};

use rg_base::NoMemory;
use rg_cmd::Ask;
use std::alloc::Global;

/// What keeps the asks that an administration accepts.
pub trait Recorder: Drop {
    /// What it has is opened again as this administration.
    ghost holds: { Self → Administration → Type 0 };

    /// It would be, if it ended here: the ask that it took last can't be done.
    ghost undoes: { Self → Administration → Type 0 };

    /// Keeps an ask that passes every rule and isn't done yet. Where memory is refused, or it can keep no more, the ask isn't done.
    fn record(&mut self, alloc: Global, ask: &Ask) -> Result<(), NoMemory>
        ensures kept { OnOk result ((a : Administration) → holds self.old a
            → fault a.state ask.now ≡ None → holds self.new (accepted a ask.now.command)) }
        ensures undone { OnOk result ((a : Administration)
            → holds self.old a → fault a.state ask.now ≡ None → undoes self.new a) }
        ensures unkept { OnErr result ((a : Administration)
            → holds self.old a → fault a.state ask.now ≡ None → holds self.new a) };

    /// Ends the keeping, where an ask was kept and can't be done.
    fn stop(&mut self)
        ensures { (a : Administration) → undoes self.old a → holds self.new a };

    /// A refused ask counts for nothing.
    ghost refusals_count_for_nothing: { (recorder : Self) (a : Administration)
        → holds recorder a → holds recorder (refused a) };
}

/// Keeps nothing.
#[derive(Drop)]
pub struct Unkept;

impl Recorder for Unkept {
    ghost holds = { λ recorder a. Unit {0} };

    ghost undoes = { λ recorder a. Unit {0} };

    ghost refusals_count_for_nothing = { λ recorder a is. tt };

    fn record(&mut self, _alloc: Global, _ask: &Ask) -> Result<(), NoMemory> {
        Ok(())
    }

    fn stop(&mut self) {}
}
