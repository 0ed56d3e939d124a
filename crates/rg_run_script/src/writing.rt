// Writing all of a text.
ghost use Rattle.std.specs.Prelude.{◌≡◌, ◌<◌, OnOk, OnErr};
ghost use Rattle.rg_run_script.specs.Streams.{Wrote, WrotePrefix};

use rg_base::Failed;
use rg_ports::Sink;

/// Writes the text, in as many calls as the sink needs. Where a call fails, a prefix of the text is written and no more is tried.
pub fn write_all<K: Sink>(sink: &mut K, text: &[u8]) -> Result<(), Failed>
    ensures ok { OnOk result (Wrote (K.held sink.old) (K.held sink.new) text.now) }
    ensures err { OnErr result (WrotePrefix (K.held sink.old) (K.held sink.new) text.now) }
    ensures kept { OnOk result (K.faults sink.new ≡ K.faults sink.old) }
    ensures failed { OnErr result (K.faults sink.old < K.faults sink.new) }
{
    let mut written = 0;
    while written < text.len() {
        written += sink.write(text.split_at(written).1)?;
    }
    Ok(())
}
