// Digits at fixed places of a text.
ghost use Rattle.std.specs.Prelude.{◌≡◌, ◌≤◌, ◌<◌, ◌+◌, length};
ghost use Rattle.rg_cond.specs.Digits.{has_form, digit_at, two_at, four_at};

/// Whether the text has the form, in which `d` stands for a digit.
pub(crate) fn has_form(form: &[u8], text: &[u8]) -> bool
    ensures { result ≡ has_form form.now text.now }
{
    let mut form = form;
    let mut text = text;
    'marks: loop {
        match (form.split_first(), text.split_first()) {
            (None, None) => return true,
            (Some((mark, marks)), Some((byte, bytes))) => {
                let fits = if *mark == b'd' {
                    byte.is_ascii_digit()
                } else {
                    mark == byte
                };
                if !fits {
                    return false;
                }
                form = marks;
                text = bytes;
            }
            _ => return false,
        }
    }
}

/// The value of the digit at a place, 0 where there is none.
#[tactic(auto, unfolding(crate::specs::Digits::digit_at))]
fn digit_at(text: &[u8], at: usize) -> u8
    requires { at < length text.now }
    ensures value { result ≡ digit_at text.now at }
    ensures bound { result ≤ 9 }
{
    let byte = text[at];
    if byte.is_ascii_digit() {
        byte - b'0'
    } else {
        0
    }
}

/// The number that two digits write.
#[tactic(auto, unfolding(crate::specs::Digits::two_at))]
pub(crate) fn two_at(text: &[u8], at: usize) -> u8
    requires { at + 2 ≤ length text.now }
    ensures value { result ≡ two_at text.now at }
    ensures bound { result ≤ 99 }
{
    digit_at(text, at) * 10 + digit_at(text, at + 1)
}

/// The number that four digits write.
#[tactic(auto, unfolding(crate::specs::Digits::four_at))]
pub(crate) fn four_at(text: &[u8], at: usize) -> u16
    requires { at + 4 ≤ length text.now }
    ensures value { result ≡ four_at text.now at }
    ensures bound { result ≤ 9999 }
{
    two_at(text, at) as u16 * 100 + two_at(text, at + 2) as u16
}
