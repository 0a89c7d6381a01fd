//! Words ahead.

ghost use Rattle.std.specs.Prelude.{◌≡◌};
ghost use Rattle.c_readers.specs.inner.Reads.{Reads};
ghost use Rattle.c_statements.specs.inner.Readers as reader;

use c_readers::{Cursor, Failure};
use c_tokens::{Keyword, Kind};

/// Whether this word comes next.
#[tactic(auto, unfolding(c_readers::specs::inner::Parser::same_word))]
fn sees_word(tokens: &Cursor<'_>, word: Keyword) -> bool
    ensures { result ≡ reader.sees_word word tokens.now }
{
    match tokens.peek() {
        Some(Kind::Word(found)) => *found == word,
        _ => false,
    }
}

/// Takes the word, if it comes next.
#[tactic(auto, unfolding(crate::specs::inner::Readers::after_word))]
pub fn eat_word(tokens: &mut Cursor<'_>, word: Keyword) -> bool
    ensures found { result ≡ reader.sees_word word tokens.old }
    ensures after { tokens.new ≡ reader.after_word word tokens.old }
{
    let found = sees_word(tokens, word);
    if found {
        tokens.skip();
    }
    found
}

/// Takes the word, which must come next.
#[tactic(auto, unfolding(crate::specs::inner::Readers::expect_word, crate::specs::inner::Readers::after_word))]
pub(crate) fn expect_word(tokens: &mut Cursor<'_>, word: Keyword) -> Result<(), Failure>
    ensures { Reads (reader.expect_word word tokens.old) result tokens.new }
{
    if eat_word(tokens, word) {
        Ok(())
    } else {
        Err(Failure::Mismatch)
    }
}
