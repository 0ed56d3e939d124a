// Texts, split.
ghost use Rattle.std.specs.Prelude.{◌≡◌, ◌==◌, ◌<◌};
ghost use Rattle.std.specs.List.{after_first, before_first};

/// What stands before the first of these characters, and what stands behind it. Where the text has none, it stands before it.
#[tactic(auto, using(crate::proofs::Pairs::parts))]
pub(crate) fn split_around(text: &str, stop: char) -> (&str, &str)
    requires { stop < 128 }
    ensures front { result.0.now ≡ before_first (λ b. b == stop) text.now }
    ensures back { result.1.now ≡ after_first (λ b. b == stop) text.now }
{
    match text.split_once(stop) {
        Some((front, back)) => (front, back),
        None => (text, ""),
    }
}
