// Decisions of a publication.
ghost use Rattle.std.specs.Prelude.{◌≡◌};
ghost use Rattle.rg_facts.specs.Texts.{decide};
ghost use Rattle.rg_facts.specs.declared.facts.Facts.{Facts};
ghost use Rattle.rg_policy.specs.declared.request.AccessRequest.{AccessRequest};

use rg_base::Serial;
use rg_facts::Decision;

/// The decision as one of the publication of this serial.
pub fn numbered(decision: Decision, serial: Serial) -> Decision
    ensures { (facts : Facts) (q : AccessRequest)
        → decision ≡ decide facts q (record { 0 = 0 }) → result ≡ decide facts q serial }
{
    let mut decision = decision;
    decision.serial = serial;
    decision
}
