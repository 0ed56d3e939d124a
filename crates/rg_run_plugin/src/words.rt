// The words of the command line.
ghost use Rattle.std.specs.Prelude.{◌≡◌, map, option_map, string_bytes};
ghost use Rattle.std.specs.Char.{is_ascii_digit};
ghost use Rattle.std.specs.List.{list_all};
ghost use Rattle.rg_run_plugin.specs.Words.{Wanted, is_numeral, seconds_of, wanted, wanted_of, within_a_day};

use rg_client::is_plain;

/// What the words ask for.
#[derive(Clone, Copy)]
pub(crate) struct Words<'a> {
    /// Where the administration listens: a host and a port.
    pub administration: &'a str,
    pub service: &'a str,
    /// The file in which the last publication is kept.
    pub cache: &'a str,
    /// Where decisions are asked for: a host and a port.
    pub address: &'a str,
    /// How many seconds pass between two rounds, 1 to 86,400.
    pub seconds: u64,
    /// The file to which audit lines are appended, if any.
    pub audit: Option<&'a str>,
}

fn has_digits_alone(word: &str) -> bool
    ensures { result ≡ list_all is_ascii_digit word.now }
{
    word.bytes().all(|byte| byte.is_ascii_digit())
}

fn is_numeral(word: &str) -> bool
    ensures { result ≡ is_numeral word.now }
{
    1 <= word.len() && word.len() <= 5 && has_digits_alone(word)
}

fn within_a_day(number: u64) -> Option<u64>
    ensures { result ≡ within_a_day number }
{
    if 1 <= number && number <= 86_400 {
        return Some(number);
    }
    None
}

/// The number that 1 to 5 digits write, where it is from 1 to 86,400.
fn seconds_of(word: &str) -> Option<u64>
    ensures { result ≡ seconds_of word.now }
{
    if !is_numeral(word) {
        return None;
    }
    match word.parse::<u64>() {
        Ok(number) => within_a_day(number),
        Err(_) => None,
    }
}

fn wanted<'a>(
    administration: &'a str,
    service: &'a str,
    cache: &'a str,
    address: &'a str,
    seconds: &str,
    audit: Option<&'a str>,
) -> Option<Words<'a>>
    ensures { option_map (λ w. record {
      administration = w.administration.now;
      service = w.service.now;
      cache = w.cache.now;
      address = w.address.now;
      seconds = w.seconds;
      audit = option_map (λ a. a.now) w.audit;
    }) result
        ≡ wanted administration.entry.now service.entry.now cache.entry.now address.entry.now seconds.now (option_map (λ a. a.now) audit.entry) }
{
    if !is_plain(administration) || !is_plain(service) {
        return None;
    }
    match seconds_of(seconds) {
        None => None,
        Some(seconds) => Some(Words {
            administration,
            service,
            cache,
            address,
            seconds,
            audit,
        }),
    }
}

/// What the words ask for.
pub(crate) fn wanted_of<'a>(words: &'a [String]) -> Option<Words<'a>>
    ensures { option_map (λ w. record {
      administration = w.administration.now;
      service = w.service.now;
      cache = w.cache.now;
      address = w.address.now;
      seconds = w.seconds;
      audit = option_map (λ a. a.now) w.audit;
    }) result
        ≡ wanted_of (map string_bytes words.entry.now) }
{
    match words {
        [administration, service, cache, address, seconds] => wanted(
            administration.as_str(),
            service.as_str(),
            cache.as_str(),
            address.as_str(),
            seconds.as_str(),
            None,
        ),
        [administration, service, cache, address, seconds, audit] => wanted(
            administration.as_str(),
            service.as_str(),
            cache.as_str(),
            address.as_str(),
            seconds.as_str(),
            Some(audit.as_str()),
        ),
        _ => None,
    }
}
