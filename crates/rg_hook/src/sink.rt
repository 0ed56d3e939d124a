// What takes audit lines.
ghost use Rattle.std.specs.Prelude.{◌≡◌, ◌<◌, ℕ, List, Option, OnErr, OnOk};
ghost use Rattle.std.specs.Str.{chars};
ghost use Rattle.rg_hook.specs.Sinks.{Added};

use rg_base::Failed;

/// Where audit lines go, in order. The count of its faults rises where a call fails, and stands still where it succeeds.
pub trait AuditSink: Drop {
    /// The lines that it holds, each as its characters, where the object tells them.
    ghost heard: { Self → Option (List (List ℕ)) };

    /// How many calls failed.
    ghost sink_faults: { Self → ℕ };

    /// Takes the line, which has no line end. After `Failed` it holds what it held.
    fn write(&mut self, line: &str) -> Result<(), Failed>
        ensures added { OnOk result (Added (heard self.old) (heard self.new) (chars line.now)) }
        ensures kept { OnOk result (sink_faults self.new ≡ sink_faults self.old) }
        ensures failed { OnErr result (sink_faults self.old < sink_faults self.new) }
        ensures unheard { OnErr result (heard self.new ≡ heard self.old) };
}
