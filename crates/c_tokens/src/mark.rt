//! Punctuation marks and operators.

ghost use Rattle.std.specs.Prelude.{◌≡◌, nat_eq, IsTrue, not, false, ◌||◌};
ghost use Rattle.std.specs.List.{starts_with, find};
ghost use Rattle.c_tokens.specs.Bytes.{is_digit, is_quote, is_name_start, begins};
ghost use Rattle.c_tokens.specs.Words.{mark_text};
ghost use Rattle.c_tokens.specs.inner.Scan.{begins_blank, IsTokenOrRefusal};

use crate::token::{Kind, LexRefusal, Mark};

/// Every mark, the longest first.
const MARKS: [Mark; 45] = [
    Mark::ShiftLeftAssign,
    Mark::ShiftRightAssign,
    Mark::Arrow,
    Mark::Equal,
    Mark::NotEqual,
    Mark::LessEqual,
    Mark::GreaterEqual,
    Mark::ShiftLeft,
    Mark::ShiftRight,
    Mark::LogicalAnd,
    Mark::LogicalOr,
    Mark::Increment,
    Mark::Decrement,
    Mark::PlusAssign,
    Mark::MinusAssign,
    Mark::StarAssign,
    Mark::SlashAssign,
    Mark::PercentAssign,
    Mark::AmpersandAssign,
    Mark::BarAssign,
    Mark::CaretAssign,
    Mark::LeftParenthesis,
    Mark::RightParenthesis,
    Mark::LeftBrace,
    Mark::RightBrace,
    Mark::LeftBracket,
    Mark::RightBracket,
    Mark::Semicolon,
    Mark::Comma,
    Mark::Dot,
    Mark::Question,
    Mark::Colon,
    Mark::Assign,
    Mark::Less,
    Mark::Greater,
    Mark::Plus,
    Mark::Minus,
    Mark::Star,
    Mark::Slash,
    Mark::Percent,
    Mark::Ampersand,
    Mark::Bar,
    Mark::Caret,
    Mark::Tilde,
    Mark::Exclamation,
];

impl Mark {
    /// The text of the mark.
    pub fn text(self) -> &'static [u8]
        ensures { result.now ≡ mark_text self }
    {
        match self {
            Mark::LeftParenthesis => b"(",
            Mark::RightParenthesis => b")",
            Mark::LeftBrace => b"{",
            Mark::RightBrace => b"}",
            Mark::LeftBracket => b"[",
            Mark::RightBracket => b"]",
            Mark::Semicolon => b";",
            Mark::Comma => b",",
            Mark::Dot => b".",
            Mark::Arrow => b"->",
            Mark::Question => b"?",
            Mark::Colon => b":",
            Mark::Assign => b"=",
            Mark::Equal => b"==",
            Mark::NotEqual => b"!=",
            Mark::Less => b"<",
            Mark::Greater => b">",
            Mark::LessEqual => b"<=",
            Mark::GreaterEqual => b">=",
            Mark::ShiftLeft => b"<<",
            Mark::ShiftRight => b">>",
            Mark::Plus => b"+",
            Mark::Minus => b"-",
            Mark::Star => b"*",
            Mark::Slash => b"/",
            Mark::Percent => b"%",
            Mark::Ampersand => b"&",
            Mark::Bar => b"|",
            Mark::Caret => b"^",
            Mark::Tilde => b"~",
            Mark::Exclamation => b"!",
            Mark::LogicalAnd => b"&&",
            Mark::LogicalOr => b"||",
            Mark::Increment => b"++",
            Mark::Decrement => b"--",
            Mark::PlusAssign => b"+=",
            Mark::MinusAssign => b"-=",
            Mark::StarAssign => b"*=",
            Mark::SlashAssign => b"/=",
            Mark::PercentAssign => b"%=",
            Mark::AmpersandAssign => b"&=",
            Mark::BarAssign => b"|=",
            Mark::CaretAssign => b"^=",
            Mark::ShiftLeftAssign => b"<<=",
            Mark::ShiftRightAssign => b">>=",
        }
    }
}

/// The longest mark that the bytes begin with.
fn mark_of(bytes: &[u8]) -> Option<Mark>
    ensures { result ≡ find (λ mark. starts_with nat_eq bytes.now (mark_text mark)) MARKS }
{
    MARKS
        .iter()
        .copied()
        .find(|mark| bytes.starts_with(mark.text()))
}

/// The mark that the bytes begin with, and its length.
pub(crate) fn mark_token(bytes: &[u8], line: u32) -> Result<(Kind, usize), LexRefusal>
    requires no_blank { begins_blank bytes.now ≡ false }
    requires other { IsTrue (begins (λ b. not (is_digit b || is_name_start b || is_quote b)) bytes.now) }
    ensures { IsTokenOrRefusal bytes.now line result }
{
    // No whole comment begins here, so this one is open to the end.
    if bytes.starts_with(b"/*") {
        return Err(LexRefusal::Comment { line });
    }
    match mark_of(bytes) {
        Some(mark) => Ok((Kind::Mark(mark), mark.text().len())),
        None => Err(LexRefusal::Byte { line }),
    }
}
