// What an accepted command does to a log: room is made first, then the log is touched, which takes no memory.
ghost use Rattle.std.specs.Prelude.{◌≡◌, OnOk};
ghost use Rattle.rg_delta.specs.Touches.{IsReady, touched};

use crate::log::DeltaLog;
use rg_base::NoMemory;

/// What an accepted command does to a log.
#[derive(Drop)]
pub enum Touch<C> {
    /// It changes nothing that the log is for.
    Leaves,
    /// The log notes a change.
    Notes(C),
    /// The log is emptied.
    Restarts,
}

impl<C: Drop> DeltaLog<C> {
    /// Sees to it that the log can be touched so.
    pub fn prepare(&mut self, touch: &Touch<C>) -> Result<(), NoMemory>
        ensures book { self.new.book ≡ self.old.book }
        ensures ready { OnOk result (IsReady touch.now self.new.spare) }
    {
        match touch {
            Touch::Notes(_) => self.reserve(),
            _ => Ok(()),
        }
    }

    /// The log after the change. There is room for it.
    pub fn touch(&mut self, touch: Touch<C>)
        requires { IsReady touch self.old.spare }
        ensures { self.new.book ≡ touched touch self.old.book }
    {
        match touch {
            Touch::Leaves => {}
            Touch::Notes(change) => match self.note(change) {
                Ok(()) => {}
                Err(_) => unreachable!(),
            },
            Touch::Restarts => self.restart(),
        }
    }
}
