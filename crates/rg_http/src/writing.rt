// Bytes written to a link.
ghost use Rattle.std.specs.Prelude.{◌≡◌, ◌<◌, List, ℕ, OnOk, OnErr, MatchResult};
ghost use mathlib.Core.List.{IsPrefix};
ghost use Rattle.rg_http.specs.Answers.{Wrote};

use rg_base::Failed;
use rg_ports::Link;

/// Writes all bytes, or those before the link failed.
pub fn write_whole<T: Link>(link: &mut T, bytes: &[u8]) -> Result<(), Failed>
    ensures ok { OnOk result (Wrote (T.held link.old) (T.held link.new) bytes.now) }
    ensures err { OnErr result ((part : List ℕ)
        × Wrote (T.held link.old) (T.held link.new) part × IsPrefix part bytes.now) }
    ensures faults { MatchResult result
        (λ _. T.faults link.new ≡ T.faults link.old) (λ _. T.faults link.old < T.faults link.new) }
    ensures unread { (T.left link.new ≡ T.left link.old) × (T.ended link.new ≡ T.ended link.old) }
{
    let mut done: usize = 0;
    while done < bytes.len() {
        match link.write(&bytes[done..]) {
            Ok(n) => {
                done += n;
            }
            Err(failed) => return Err(failed),
        }
    }
    Ok(())
}
