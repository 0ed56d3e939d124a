// The law of reading and printing.
ghost use Rattle.std.specs.Prelude.{◌≡◌, IfOk};
ghost use Rattle.rg_json.specs.Reading.{Answers, first_of, reading};
ghost use Rattle.rg_wire.specs.Records.{policy_of};
ghost use Rattle.rg_wire.specs.Shapes.{policy_shape};

use crate::policy_text::print_policy;
use crate::read::read_policy;
use rg_json::WireFault;
use rg_policy::Policy;
use std::alloc::Global;

/// A policy that was read is read again, from the text that is printed for it, as itself. The answer has the policy as it
/// was read first, and as it was read again.
pub fn read_again(alloc: Global, text: &[u8]) -> Result<(Policy, Policy), WireFault>
    ensures first { Answers (first_of result) (reading policy_shape policy_of text.now) }
    ensures again { IfOk result (λ r. r.1 ≡ r.0) }
{
    let policy = read_policy(alloc, text)?;
    let Ok(printed) = print_policy(alloc, &policy) else {
        return Err(WireFault::NoMemory);
    };
    let again = read_policy(alloc, printed.as_str().as_bytes())?;
    Ok((policy, again))
}
