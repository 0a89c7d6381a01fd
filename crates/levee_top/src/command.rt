//! The commands and their words.
ghost use Rattle.std.specs.Prelude.{◌≡◌, ◌↔◌, IsTrue, map, string_bytes, MatchOption};
ghost use Rattle.levee_top.specs.Command.{IsCommand, IsNoCommand};

/// What the words ask for.
#[derive(Clone, Copy, Debug, PartialEq, Eq)]
pub enum Command {
    /// `run`: the run of a job, with its text in full or in brief.
    Run { full: bool },
}

impl Command {
    /// The command that the words are; none exactly where they are no command.
    pub fn from_words(words: &[String]) -> Option<Command>
        ensures { MatchOption result
            (IsNoCommand (map string_bytes words.now))
            (IsCommand (map string_bytes words.now)) }
    {
        match words {
            [word] if is_word(word, "run") => Some(Command::Run { full: false }),
            [word, flag] if is_word(word, "run") && is_word(flag, "--full") => {
                Some(Command::Run { full: true })
            }
            _ => None,
        }
    }
}

/// Whether the word has this text.
fn is_word(word: &String, text: &str) -> bool
    ensures { IsTrue result ↔ (string_bytes word.now ≡ text.now) }
{
    word.as_str() == text
}
