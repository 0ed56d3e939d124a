// Reading all of a source, within the limits.
ghost use Rattle.std.specs.Prelude.{◌≡◌, ◌⊎◌, ◌≤◌, ◌<◌, false, true, length, IfOk, IfSome, IsErrOf, OnOk};
ghost use Rattle.rg_run_script.specs.Limits.{byte_after, is_too_long, limit, line_after, line_limit};
ghost use Rattle.rg_run_script.specs.Runs.{Overran};
ghost use Rattle.rg_run_script.specs.Streams.{IsAll};

use rg_ports::Source;
use std::alloc::Global;

/// The most bytes of a line, without its LF and with its CR.
const LINE_LIMIT: usize = 1_048_576;

/// The most bytes of all.
const LIMIT: usize = 268_435_456;

/// Why a source wasn't read to its end.
#[derive(Clone, Copy, Debug, PartialEq, Eq)]
pub(crate) enum Stop {
    /// A read failed.
    Fault,
    /// There are more bytes than the limit, or more in one line.
    TooLong,
    NoMemory,
}

// How many bytes the line has after one more, unless it is too long.
#[tactic(auto, unfolding(crate::specs::Limits::byte_after))]
fn after_byte(line: usize, byte: u8) -> Option<usize>
    requires { line ≤ line_limit }
    ensures value { result ≡ byte_after line byte }
    ensures bound { IfSome result (λ n. n ≤ line_limit) }
{
    if byte == b'\n' {
        Some(0)
    } else if line < LINE_LIMIT {
        Some(line + 1)
    } else {
        None
    }
}

// How many bytes the last line has after these, unless one is too long.
fn after_bytes(line: usize, bytes: &[u8]) -> Option<usize>
    requires { line ≤ line_limit }
    ensures value { result ≡ line_after line bytes.now }
    ensures bound { IfSome result (λ n. n ≤ line_limit) }
{
    let mut last = line;
    for byte in bytes {
        last = after_byte(last, *byte)?;
    }
    Some(last)
}

/// All bytes of the source, read to its end. Reading stops at the read that fails or goes beyond a limit.
pub(crate) fn read_all<S: Source>(alloc: Global, source: &mut S) -> Result<Vec<u8>, Stop>
    ensures ended { OnOk result (S.ended source.new ≡ true) }
    ensures all { IfOk result (λ bytes. IsAll (S.left source.old) bytes.items) }
    ensures within { IfOk result (λ bytes. length bytes.items ≤ limit) }
    ensures short { IfOk result (λ bytes. is_too_long bytes.items ≡ false) }
    ensures long { IsErrOf result Stop.TooLong → Overran (S.left source.old) (S.left source.new) }
    ensures fault { IsErrOf result Stop.Fault → S.faults source.old < S.faults source.new }
    ensures kept { (result ≡ Err Stop.Fault) ⊎ (S.faults source.new ≡ S.faults source.old) }
{
    let mut bytes = Vec::new(alloc);
    let mut room = [0u8; 16384];
    let mut line = 0;
    'reads: loop {
        let n = match source.read(&mut room) {
            Ok(n) => n,
            Err(_) => return Err(Stop::Fault),
        };
        if n == 0 {
            return Ok(bytes);
        }
        let piece = &room[..n];
        let spare = LIMIT - bytes.len();
        if spare < n {
            return Err(Stop::TooLong);
        }
        line = match after_bytes(line, piece) {
            Some(line) => line,
            None => return Err(Stop::TooLong),
        };
        if bytes.extend_from_slice(piece).is_err() {
            return Err(Stop::NoMemory);
        }
    }
}
