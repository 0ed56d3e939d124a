// What is kept of a publication, printed and read.
ghost use Rattle.std.specs.Prelude.{◌≡◌, ◌≢◌, IfOk, IfErr, MatchResult, Ok, Err, Option, Some, option_map, string_bytes, true};
ghost use Rattle.rg_facts.specs.declared.facts.Facts.{Facts};
ghost use Rattle.rg_facts.specs.Sound.{sound};
ghost use Rattle.rg_download_wire.specs.InOrder.{AreFacts};
ghost use Rattle.rg_cache.specs.Kept.{kept_in, kept_text, line_of};
ghost use Rattle.rg_cache.specs.declared.fault.KeptFault.{KeptFault};

use crate::fault::KeptFault;
use rg_base::NoMemory;
use rg_download_wire::print_facts;
use rg_facts::Facts;
use rg_facts_check::facts_fault;
use rg_json::WireFault;
use rg_wire::read_facts;
use std::alloc::Global;

/// Prints what is kept of these facts: one line of compact JSON, with its LF.
pub fn print_kept(alloc: Global, facts: &Facts) -> Result<String, NoMemory>
    ensures text { IfOk result (λ s. string_bytes s ≡ kept_text facts.now) }
    ensures again { IfOk result (λ _. AreFacts facts.now
        → sound facts.now ≡ true → kept_in (kept_text facts.now) ≡ Ok facts.now) }
{
    let facts = print_facts(alloc, facts)?;
    let facts = facts.as_str();
    Ok(format!(in alloc; "{facts}\n")?)
}

/// The bytes before the LF at the end.
#[tactic(auto, using(crate::proofs::Lines::lines))]
fn line_of(bytes: &[u8]) -> Option<&[u8]>
    ensures { option_map (λ line. line.now) result ≡ line_of bytes.now }
{
    match bytes.split_last() {
        Some((b'\n', line)) => Some(line),
        _ => None,
    }
}

/// Reads what is kept: exactly one line of facts that break no rule. Else the first of what is wrong is named.
#[tactic(auto, unfolding(crate::specs::Kept::kept_in))]
pub fn read_kept(alloc: Global, bytes: &[u8]) -> Result<Facts, KeptFault>
    ensures read { IfOk result (λ facts. kept_in bytes.now ≡ Ok facts) }
    ensures sound { IfOk result (λ facts. sound facts ≡ true) }
    ensures fault { IfErr result (λ f. f ≢ KeptFault.NoMemory → kept_in bytes.now ≡ Err f) }
{
    let Some(line) = line_of(bytes) else {
        return Err(KeptFault::Cut);
    };
    let facts = match read_facts(alloc, line) {
        Ok(facts) => facts,
        Err(WireFault::NoMemory) => return Err(KeptFault::NoMemory),
        Err(WireFault::Bad { .. }) => return Err(KeptFault::Unread),
    };
    match facts_fault(alloc, &facts) {
        Ok(false) => Ok(facts),
        Ok(true) => Err(KeptFault::Unsound),
        Err(NoMemory) => Err(KeptFault::NoMemory),
    }
}
