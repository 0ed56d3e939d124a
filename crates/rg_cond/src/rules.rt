// What a compiled condition asks, and when it holds.
ghost use Rattle.std.specs.Prelude.{◌≡◌, ◌∷◌, [], option_map};
ghost use Rattle.std.specs.List.{list_any};
ghost use Rattle.std.specs.Str.{chars};
ghost use Rattle.rg_cond.specs.Conditions.{as_wanted, expiry_date, expiry_of, expiry_second, has_address, has_value, is_expired, is_in_range, is_lone_star, rule_holds};

use crate::dates::{read_day, read_moment};
use rg_base::{Moment, Pair, Seq, Text, is_among, same_text, split_char, value_of};
use rg_policy::{AccessRequest, Tag};

/// What a compiled condition asks.
#[derive(Drop)]
pub enum Rule {
    /// Whether the tag has expired, or, where that isn't wanted, whether it hasn't.
    Expired(bool),
    /// Whether one of these values stands for the client's address.
    Address(Seq<Text>),
    /// Whether the context has this key with one of these values, or, where that isn't wanted, whether it hasn't.
    Context(Text, Seq<Text>, bool),
}

/// The second that an expiry date writes.
#[tactic(auto, unfolding(crate::specs::Conditions::expiry_second))]
fn expiry_second(date: &str) -> Option<i64>
    ensures { result ≡ expiry_second date.now }
{
    match read_moment(date) {
        Some(local) => Some(local.second()),
        None => match read_day(date) {
            Some(local) => Some(local.second()),
            None => None,
        },
    }
}

/// The tag's expiry date as it is written.
#[tactic(auto, using(crate::proofs::Spelled::words))]
fn expiry_date(tag: &Tag) -> Option<&Text>
    ensures { option_map (λ t. t.now) result ≡ expiry_date tag.now }
{
    value_of(tag.attributes.as_slice(), "expiry_date")
}

/// The second at which the tag expires, where it has a readable expiry date.
#[tactic(auto, unfolding(crate::specs::Conditions::expiry_of))]
fn expiry_of(tag: Option<&Tag>) -> Option<i64>
    ensures { result ≡ expiry_of (option_map (λ t. t.now) tag.entry) }
{
    let tag = tag?;
    let date = expiry_date(tag)?;
    expiry_second(date.as_str())
}

/// Whether the tag has a readable expiry date and the moment is later.
#[tactic(auto, unfolding(crate::specs::Conditions::is_expired))]
fn is_expired(moment: Moment, tag: Option<&Tag>) -> bool
    ensures { result ≡ is_expired moment (option_map (λ t. t.now) tag.entry) }
{
    match expiry_of(tag) {
        Some(second) => second < moment.0,
        None => false,
    }
}

/// Whether the character is a `*` with nothing after it.
#[tactic(auto, using(crate::proofs::Spelled::words))]
fn is_lone_star(mark: char, rest: &str) -> bool
    ensures { result ≡ is_lone_star mark (chars rest.now) }
{
    mark == '*' && same_text(rest, "")
}

/// Whether the value is the address, or is a front of it followed by `*`.
fn is_in_range(value: &str, address: &str) -> bool
    ensures { result ≡ is_in_range (chars value.now) (chars address.now) }
{
    let mut value = value;
    let mut address = address;
    'characters: loop {
        let Some((mark, rest)) = split_char(value) else {
            return same_text(address, "");
        };
        if is_lone_star(mark, rest) {
            return true;
        }
        match split_char(address) {
            Some((first, others)) if first == mark => {
                value = rest;
                address = others;
            }
            _ => return false,
        }
    }
}

fn any_in_range(values: &[Text], address: &str) -> bool
    ensures { result ≡ list_any (λ value. is_in_range value (chars address.now)) values.now }
{
    values
        .iter()
        .any(|value| is_in_range(value.as_str(), address))
}

/// Whether a value stands for the address, which isn't empty.
#[tactic(auto, using(crate::proofs::Spelled::words))]
fn has_address(values: &[Text], address: &str) -> bool
    ensures { result ≡ has_address values.now (chars address.now) }
{
    !same_text(address, "") && any_in_range(values, address)
}

/// Whether the first value of the key is one of these.
#[tactic(auto, unfolding(crate::specs::Conditions::has_value))]
fn has_value(key: &str, values: &[Text], context: &[Pair]) -> bool
    ensures { result ≡ has_value (chars key.now) values.now context.now }
{
    match value_of(context, key) {
        Some(value) => is_among(value.as_str(), values),
        None => false,
    }
}

/// The fact where it is wanted, else the contrary.
fn as_wanted(wanted: bool, fact: bool) -> bool
    ensures { result ≡ as_wanted wanted fact }
{
    if wanted { fact } else { !fact }
}

impl Rule {
    /// Whether the rule holds for the request and the tag.
    #[tactic(auto, unfolding(crate::specs::Conditions::rule_holds))]
    pub(crate) fn holds(&self, request: &AccessRequest, tag: Option<&Tag>) -> bool
        ensures { result ≡ rule_holds self.now request.now (option_map (λ t. t.now) tag.entry) }
    {
        match self {
            Rule::Expired(wanted) => as_wanted(*wanted, is_expired(request.moment, tag)),
            Rule::Address(values) => has_address(values.as_slice(), request.address.as_str()),
            Rule::Context(key, values, wanted) => as_wanted(
                *wanted,
                has_value(key.as_str(), values.as_slice(), request.context.as_slice()),
            ),
        }
    }
}
