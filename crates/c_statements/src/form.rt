//! What the first token says of a statement.

ghost use Rattle.std.specs.Prelude.{◌≡◌};
ghost use Rattle.c_statements.specs.inner.Readers as reader;

use c_tokens::{Keyword, Kind, Mark};

/// What the first token says of a statement.
#[derive(Clone, Copy)]
pub(crate) enum Form {
    Block,
    If,
    While,
    Do,
    For,
    Break,
    Continue,
    Return,
    Computation,
}

/// The form of the statement that begins with this token.
pub(crate) fn form_of(kind: &Kind) -> Form
    ensures { result ≡ reader.form_of kind.now }
{
    match kind {
        Kind::Mark(Mark::LeftBrace) => Form::Block,
        Kind::Word(Keyword::If) => Form::If,
        Kind::Word(Keyword::While) => Form::While,
        Kind::Word(Keyword::Do) => Form::Do,
        Kind::Word(Keyword::For) => Form::For,
        Kind::Word(Keyword::Break) => Form::Break,
        Kind::Word(Keyword::Continue) => Form::Continue,
        Kind::Word(Keyword::Return) => Form::Return,
        _ => Form::Computation,
    }
}
