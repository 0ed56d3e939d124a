// Laws of framing, each the contract of a function that does nothing.
ghost use Rattle.std.specs.Prelude.{◌≡◌, ℕ, List, ◌++◌};
ghost use Rattle.rg_http.specs.declared.message.Message.{Message};
ghost use Rattle.rg_http.specs.declared.message.End.{End};
ghost use Rattle.rg_http.specs.Framing.{HasMessage, HasBad};
ghost use Rattle.rg_http.specs.Messages.{Messages};

/// The bytes alone decide: the messages of a stream and their end are one.
#[tactic(auto, using(crate::proofs::Unique::messages_once))]
pub fn messages_are_one()
    ensures { (most : ℕ) (bytes : List ℕ) (ms ns : List Message) (e f : End)
        → Messages most bytes ms e → Messages most bytes ns f → (ms ≡ ns) × (e ≡ f) }
{}

/// Each stream has a reading: there are messages and an end that its bytes decide.
#[tactic(auto, using(crate::proofs::Reading::stream_reads))]
pub fn each_stream_reads()
    ensures { (most : ℕ) (bytes : List ℕ)
        → (ms : List Message) × (end : End) × Messages most bytes ms end }
{}

/// What is judged stays judged: bytes that follow change neither a message nor a refusal.
pub fn judged_stays_judged()
    ensures message { (bytes more : List ℕ) (m : Message) (rest : List ℕ)
        → HasMessage bytes m rest → HasMessage (bytes ++ more) m (rest ++ more) }
    ensures bad { (bytes more : List ℕ) (status : ℕ)
        → HasBad bytes status → HasBad (bytes ++ more) status }
{}
