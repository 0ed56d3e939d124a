// Words that may stand in a head.
ghost use Rattle.std.specs.Prelude.{◌≡◌, true};
ghost use Rattle.std.specs.List.{list_all};
ghost use Rattle.rg_client.specs.Plain.{is_plain, is_visible};

fn is_visible(byte: &u8) -> bool
    ensures { result ≡ is_visible byte.now }
{
    32 < *byte && *byte < 127
}

fn are_visible(bytes: &[u8]) -> bool
    ensures { result ≡ list_all is_visible bytes.now }
{
    bytes.iter().all(|byte| is_visible(byte))
}

/// Whether the word may stand in a head as it is: 1 to 256 bytes that are printed and no space.
#[tactic(auto, unfolding(crate::specs::Plain::is_plain))]
pub fn is_plain(word: &str) -> bool
    ensures { result ≡ is_plain word.now }
{
    let bytes = word.as_bytes();
    !bytes.is_empty() && (bytes.len() <= 256 && are_visible(bytes))
}
