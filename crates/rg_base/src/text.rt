// Text, seen as its list of characters.
ghost use Rattle.std.specs.Prelude.{◌≡◌, ◌∷◌, ◌++◌, [], IfOk, OnOk, OnErr, MatchOption, length, string_bytes};
ghost use Rattle.std.specs.Str.{bytes_eq, chars, encode_utf8_all};
ghost use Rattle.rg_base.specs.Folding.{folded_char};
ghost use Rattle.rg_base.specs.Texts.{is_among, is_empty, is_name};

use crate::copies::TryCopy;
use crate::numbers::NoMemory;
use std::alloc::Global;
use std::marker::Model;

/// A text that owns its bytes. Contracts see its characters, each a Unicode scalar value.
#[derive(Drop)]
pub struct Text {
    held: String,
}

impl Model for Text {
    ghost use Rattle.std.specs.Prelude.{List, ℕ, string_bytes};
    ghost use Rattle.std.specs.Str.{chars};

    ghost Value = { List ℕ };

    ghost view = { λ t. chars (string_bytes t.held) };
}

impl Text {
    /// No characters. It takes no memory.
    #[tactic(auto, using(crate::proofs::Chars::texts))]
    pub fn empty(alloc: Global) -> Text
        ensures { result ≡ [] }
    {
        Text {
            held: String::new(alloc),
        }
    }

    /// A copy of the text.
    pub fn copy_of(alloc: Global, text: &str) -> Result<Text, NoMemory>
        ensures { IfOk result (λ t. t ≡ chars text.now) }
    {
        let held = String::from_str(alloc, text)?;
        Ok(Text { held })
    }

    /// This text. It takes no memory.
    pub fn of(held: String) -> Text
        ensures { result ≡ chars (string_bytes held) }
    {
        Text { held }
    }

    /// The allocator that the text's bytes are of.
    pub(crate) fn allocator(&self) -> Global {
        *self.held.allocator()
    }

    /// Adds a character at the end.
    pub fn push(&mut self, c: char) -> Result<(), NoMemory>
        ensures ok { OnOk result (self.new ≡ self.old ++ c ∷ []) }
        ensures err { OnErr result (self.new ≡ self.old) }
    {
        self.held.push(c)?;
        Ok(())
    }

    /// Adds a text at the end.
    pub fn append(&mut self, text: &str) -> Result<(), NoMemory>
        ensures ok { OnOk result (self.new ≡ self.old ++ chars text.now) }
        ensures err { OnErr result (self.new ≡ self.old) }
    {
        self.held.push_str(text)?;
        Ok(())
    }

    /// The text.
    #[tactic(auto, using(crate::proofs::Chars::texts))]
    pub fn as_str(&self) -> &str
        ensures read { chars result.now ≡ self.now }
        ensures spelled { result.now ≡ encode_utf8_all self.now }
    {
        self.held.as_str()
    }
}

impl TryCopy for Text {
    fn try_copy(&self, alloc: Global) -> Result<Text, NoMemory> {
        Text::copy_of(alloc, self.as_str())
    }
}

/// Whether two texts are the same.
pub fn same_text(a: &str, b: &str) -> bool
    ensures { result ≡ bytes_eq (chars a.now) (chars b.now) }
{
    a == b
}

/// The character, in lower case if it is an ASCII letter and `fold` is set.
pub fn folded_char(fold: bool, c: char) -> char
    ensures { result ≡ folded_char fold c }
{
    if fold { c.to_ascii_lowercase() } else { c }
}

/// Whether the text has no character.
pub fn is_empty(text: &str) -> bool
    ensures { result ≡ is_empty (chars text.now) }
{
    split_char(text).is_none()
}

/// The first character and what follows it; None where there is no character.
pub fn split_char(text: &str) -> Option<(char, &str)>
    ensures { MatchOption result (chars text.now ≡ []) (λ p. chars text.now ≡ p.0 ∷ chars p.1.now) }
{
    let mut characters = text.chars();
    match characters.next() {
        Some(first) => Some((first, characters.as_str())),
        None => None,
    }
}

/// How many characters there are.
pub fn char_count(text: &str) -> usize
    ensures { result ≡ length (chars text.now) }
{
    text.chars().count()
}

/// Whether the text is one of these.
pub fn is_among(text: &str, texts: &[Text]) -> bool
    ensures { result ≡ is_among (chars text.now) texts.now }
{
    texts.iter().any(|t| same_text(t.as_str(), text))
}

/// Whether the text has 1 to 256 characters, as every name has.
pub fn is_name(text: &str) -> bool
    ensures { result ≡ is_name (chars text.now) }
{
    let count = char_count(text);
    0 < count && count <= 256
}
