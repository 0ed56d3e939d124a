// The words of the command line.
ghost use Rattle.std.specs.Prelude.{◌≡◌, map, option_map, string_bytes, true};
ghost use Rattle.rg_view.specs.Words.{wanted, wanted_of};

use rg_client::is_plain;

/// What the words ask for.
#[derive(Clone, Copy)]
pub(crate) struct Words<'a> {
    /// Where the administration listens: a host and a port.
    pub address: &'a str,
    pub service: &'a str,
    /// Who asks.
    pub user: &'a str,
}

fn wanted<'a>(address: &'a str, service: &'a str, user: &'a str) -> Option<Words<'a>>
    ensures { option_map
        (λ w. record { address = w.address.now; service = w.service.now; user = w.user.now }) result
        ≡ wanted address.entry.now service.entry.now user.entry.now }
{
    if is_plain(address) && is_plain(service) && is_plain(user) {
        return Some(Words {
            address,
            service,
            user,
        });
    }
    None
}

/// What the words ask for.
#[tactic(auto, unfolding(crate::specs::Words::own_name))]
pub(crate) fn wanted_of<'a>(words: &'a [String]) -> Option<Words<'a>>
    ensures { option_map (λ w. record {
      address = w.address.now;
      service = w.service.now;
      user = w.user.now;
    }) result ≡ wanted_of (map string_bytes words.entry.now) }
{
    match words {
        [address, service] => wanted(address.as_str(), service.as_str(), "rangerd-view"),
        [address, service, user] => wanted(address.as_str(), service.as_str(), user.as_str()),
        _ => None,
    }
}
