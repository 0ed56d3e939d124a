// The law of reading and printing facts.
ghost use Rattle.std.specs.Prelude.{◌≡◌, IfOk, Ok, OnOk};
ghost use Rattle.rg_facts.specs.declared.facts.Facts.{Facts};
ghost use Rattle.rg_json.specs.Reading.{Answers, first_of, reading};
ghost use Rattle.rg_wire.specs.Records.{facts_of};
ghost use Rattle.rg_wire.specs.Shapes.{facts_shape};
ghost use Rattle.rg_download_wire.specs.InOrder.{AreFacts};

use crate::facts_text::print_facts;
use rg_ask_wire::json_is_orderly;
use rg_base::NoMemory;
use rg_facts::Facts;
use rg_json::WireFault;
use rg_wire::read_facts;
use std::alloc::Global;

/// Facts that read from this text are in key order. Nothing is answered: it looks at the text.
fn facts_are_in_order(alloc: Global, text: &[u8]) -> Result<(), NoMemory>
    ensures { OnOk result ((facts : Facts)
        → reading facts_shape facts_of text.now ≡ Ok facts → AreFacts facts) }
{
    json_is_orderly(alloc, text)
}

fn read_in_order(alloc: Global, text: &[u8]) -> Result<Facts, WireFault>
    ensures reads { Answers result (reading facts_shape facts_of text.now) }
    ensures owned { IfOk result AreFacts }
{
    let facts = read_facts(alloc, text)?;
    match facts_are_in_order(alloc, text) {
        Err(_) => Err(WireFault::NoMemory),
        Ok(()) => Ok(facts),
    }
}

/// Facts that were read are read again, from the text that is printed for them, as themselves. The answer has the facts as they
/// were read first, and as they were read again.
pub fn facts_read_again(alloc: Global, text: &[u8]) -> Result<(Facts, Facts), WireFault>
    ensures first { Answers (first_of result) (reading facts_shape facts_of text.now) }
    ensures again { IfOk result (λ r. r.1 ≡ r.0) }
{
    let facts = read_in_order(alloc, text)?;
    let Ok(printed) = print_facts(alloc, &facts) else {
        return Err(WireFault::NoMemory);
    };
    let again = read_facts(alloc, printed.as_str().as_bytes())?;
    Ok((facts, again))
}
