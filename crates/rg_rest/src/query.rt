// What a query says of the version that its sender has.
ghost use Rattle.std.specs.Prelude.{◌≡◌, ◌∷◌, ◌<◌, [], MatchOption, IfSome, length};
ghost use Rattle.std.specs.Char.{is_ascii_digit};
ghost use Rattle.std.specs.List.{list_all};
ghost use Rattle.rg_rest.specs.Query.{has_version, is_number, known_version, name_of, pairs_of, value_of, version_of};

use crate::split::split_around;
use rg_base::Version;

fn has_digits_alone(text: &str) -> bool
    ensures { result ≡ list_all is_ascii_digit text.now }
{
    text.bytes().all(|byte| byte.is_ascii_digit())
}

/// Whether there are 1 to so many bytes, each a digit.
pub(crate) fn is_number(most: usize, text: &str) -> bool
    ensures { result ≡ is_number most text.now }
{
    1 <= text.len() && text.len() <= most && has_digits_alone(text)
}

// The version that a value gives.
#[tactic(auto, using(crate::proofs::Numbers::numbers), unfolding(crate::specs::Query::version_of))]
fn version_of(value: &str) -> Option<Version>
    ensures { result ≡ version_of value.now }
{
    if !is_number(19, value) {
        return None;
    }
    match value.parse::<u64>() {
        Ok(number) => Some(Version(number)),
        Err(_) => None,
    }
}

// The first pair, and the others, where there are any.
#[tactic(auto, using(crate::proofs::Pairs::pairs))]
fn split_pairs(query: &str) -> (&str, Option<&str>)
    ensures pairs { MatchOption result.1 (pairs_of query.now ≡ result.0.now ∷ [])
        (λ others. pairs_of query.now ≡ result.0.now ∷ pairs_of others.now) }
    ensures shorter { IfSome result.1 (λ others. length others.now < length query.now) }
{
    match query.split_once('&') {
        Some((pair, others)) => (pair, Some(others)),
        None => (query, None),
    }
}

/// The version that the first pair of this name gives.
#[tactic(auto, unfolding(crate::specs::Query::known_version))]
pub(crate) fn known_version(query: &str) -> Option<Version>
    ensures { result ≡ known_version query.now }
{
    let mut rest = query;
    loop {
        let (pair, others) = split_pairs(rest);
        let (name, value) = split_around(pair, '=');
        if name == "lastKnownVersion" {
            return version_of(value);
        }
        match others {
            None => return None,
            Some(next) => rest = next,
        }
    }
}
