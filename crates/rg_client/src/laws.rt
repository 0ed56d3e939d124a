// A law of replies, the contract of a function that does nothing.
ghost use Rattle.std.specs.Prelude.{◌≡◌, ℕ, List};
ghost use Rattle.rg_http.specs.declared.message.Response.{Response};
ghost use Rattle.rg_client.specs.Replies.{HasNone, HasReply, IsUnfinished};

/// The bytes alone decide: at their front stands one reply, and one rest follows. Where it does, nothing is refused or awaited.
pub fn replies_are_one()
    ensures one { (bytes : List ℕ) (r s : Response) (rest more : List ℕ)
        → HasReply bytes r rest → HasReply bytes s more → (r ≡ s) × (rest ≡ more) }
    ensures read { (bytes : List ℕ) (r : Response) (rest : List ℕ)
        → HasReply bytes r rest → ¬ (HasNone bytes) }
    ensures whole { (bytes : List ℕ) (r : Response) (rest : List ℕ)
        → HasReply bytes r rest → ¬ (IsUnfinished bytes) }
{}
