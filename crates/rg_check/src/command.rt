// The commands whose scripts are checked.
ghost use Rattle.std.specs.Prelude.{◌≡◌, map, string_bytes};
ghost use Rattle.rg_check.specs.Commands.{command_named, command_of, command_word};

/// A command of `rangerd` that reads a script.
#[derive(Clone, Copy, Debug, PartialEq, Eq)]
pub enum Command {
    Replay,
    Grants,
    Report,
    Keep,
    Serve,
}

impl Command {
    const ALL: [Command; 5] = [
        Command::Replay,
        Command::Grants,
        Command::Report,
        Command::Keep,
        Command::Serve,
    ];

    /// Its name.
    #[tactic(auto, unfolding(crate::specs::Commands::command_word))]
    pub fn word(self) -> &'static str
        ensures { result.now ≡ command_word self }
    {
        match self {
            Command::Replay => "replay",
            Command::Grants => "grants",
            Command::Report => "report",
            Command::Keep => "keep",
            Command::Serve => "serve",
        }
    }

    /// The command of this name.
    #[tactic(auto, unfolding(crate::specs::Commands::command_named))]
    pub fn named(word: &str) -> Option<Command>
        ensures { result ≡ command_named word.now }
    {
        Command::ALL
            .iter()
            .copied()
            .find(|command| command.word() == word)
    }
}

/// The command that the words ask for; None where they ask for none.
pub(crate) fn command_of(words: &[String]) -> Option<Command>
    ensures { result ≡ command_of (map string_bytes words.now) }
{
    match words {
        [] => Some(Command::Replay),
        [word] => Command::named(word.as_str()),
        _ => None,
    }
}
