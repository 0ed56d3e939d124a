// The words that a line may begin with.
ghost use Rattle.std.specs.Prelude.{◌≡◌};
ghost use Rattle.rg_script.specs.Words.{word_of, word_text};

/// A word that a line may begin with.
#[derive(Clone, Copy, Debug, PartialEq, Eq)]
pub(crate) enum Word {
    Facts,
    Config,
    Admin,
    Refresh,
    Decide,
}

impl Word {
    const ALL: [Word; 5] = [
        Word::Facts,
        Word::Config,
        Word::Admin,
        Word::Refresh,
        Word::Decide,
    ];

    #[tactic(auto, unfolding(crate::specs::Words::word_text))]
    fn text(self) -> &'static [u8]
        ensures { result.now ≡ word_text self }
    {
        match self {
            Word::Facts => b"facts",
            Word::Config => b"config",
            Word::Admin => b"admin",
            Word::Refresh => b"refresh",
            Word::Decide => b"decide",
        }
    }

    /// The word that is spelled so.
    #[tactic(auto, unfolding(crate::specs::Words::word_of))]
    pub(crate) fn spelled(text: &[u8]) -> Option<Word>
        ensures { result ≡ word_of text.now }
    {
        Word::ALL.iter().copied().find(|word| word.text() == text)
    }
}
