// Bytes that are taken into memory, by a sink or a link.
ghost use Rattle.std.specs.Prelude.{◌≡◌, ◌<◌, ◌≤◌, ◌++◌, take, length, IfOk, IsErr, OnErr};
ghost use Rattle.rg_base.specs.Listed.{Listed};
ghost use Rattle.rg_ports.specs.Calls.{IsToFail, failed, moves, succeeded};

use crate::calls::Calls;
use rg_base::{Failed, Seq};

// Appends as many of the bytes as there is memory for.
fn append(held: &mut Seq<u8>, bytes: &[u8]) -> usize
    ensures within { result ≤ length bytes.now }
    ensures taken { held.new.items ≡ held.old.items ++ take result bytes.now }
{
    let mut n = 0;
    for byte in bytes {
        if held.push(*byte).is_err() {
            return n;
        }
        n += 1;
    }
    n
}

/// One write, as the calls have it: it fails where the call is listed, or where there is no memory for even one byte of a
/// piece that isn't empty. Else it takes as many bytes as the call's size allows, or fewer where there is no memory for all.
pub fn take_bytes(held: &mut Seq<u8>, calls: &mut Calls, piece: &[u8]) -> Result<usize, Failed>
    ensures fails { IsToFail calls.old → IsErr result }
    ensures empty { length piece.now ≡ 0 → IsErr result → IsToFail calls.old }
    ensures failed { OnErr result ((held.new.items ≡ held.old.items)
        × (calls.new ≡ failed calls.old)) }
    ensures within { IfOk result (λ n. n ≤ moves calls.old (length piece.now)) }
    ensures some { IfOk result (λ n. 0 < length piece.now → 0 < n) }
    ensures after { IfOk result (λ n. held.new.items ≡ held.old.items ++ take n piece.now) }
    ensures succeeded { IfOk result (λ n. calls.new ≡ succeeded calls.old) }
{
    if calls.is_to_fail() {
        calls.fail();
        return Err(Failed);
    }
    let most = calls.moves(piece.len());
    let n = append(held, piece.split_at(most).0);
    if n == 0 && !piece.is_empty() {
        calls.fail();
        return Err(Failed);
    }
    calls.succeed();
    Ok(n)
}
