// A name that nothing names.
ghost use Rattle.std.specs.Prelude.{◌≡◌, ◌∷◌, suc, IfOk, fold, max, replicate};
ghost use Rattle.std.specs.Str.{chars};
ghost use Rattle.rg_acl.specs.Strangers.{marks, stranger_to};

use rg_base::{NoMemory, Text, char_count, split_char};
use std::alloc::Global;

/// How many `#` begin the text.
fn marks(text: &str) -> usize
    ensures { result ≡ marks (chars text.now) }
{
    let most = char_count(text);
    let mut rest = text;
    let mut count = 0;
    while let Some((c, more)) = split_char(rest) {
        if c != '#' {
            return count;
        }
        count += 1;
        rest = more;
    }
    count
}

/// The most `#` that begin one of the names, and no fewer than these.
fn most_marks(least: usize, names: &[Text]) -> usize
    ensures { result ≡ fold (λ most t. max most (marks t)) least names.now }
{
    let mut most = least;
    for name in names {
        most = most.max(marks(name.as_str()));
    }
    most
}

/// One `#`, and so many more.
fn one_and(alloc: Global, more: usize) -> Result<Text, NoMemory>
    ensures { IfOk result (λ text. text ≡ replicate (suc more) 35) }
{
    let mut text = Text::empty(alloc);
    text.push('#')?;
    let mut left = more;
    while left > 0 {
        text.push('#')?;
        left -= 1;
    }
    Ok(text)
}

/// One `#` more than begin the owner's name or any of these.
pub(crate) fn stranger_to(alloc: Global, owner: &Text, names: &[Text]) -> Result<Text, NoMemory>
    ensures { IfOk result (λ stranger. stranger ≡ stranger_to (owner.now ∷ names.now)) }
{
    one_and(alloc, most_marks(marks(owner.as_str()), names))
}
