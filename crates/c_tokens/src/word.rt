//! Names and keywords.

ghost use Rattle.std.specs.Prelude.{◌≡◌, IsTrue, IfOk};
ghost use Rattle.std.specs.Str.{bytes_eq};
ghost use Rattle.std.specs.List.{prefix_len, find};
ghost use Rattle.c_tokens.specs.Bytes.{is_name_start, is_word_byte, begins};
ghost use Rattle.c_tokens.specs.Words.{keyword_text};
ghost use Rattle.c_tokens.specs.inner.Scan.{BeginsWithToken};

use crate::token::{Keyword, Kind, Spelling};
use sqlite_items::Items;
use std::alloc::{AllocError, Global};

/// Every keyword.
const KEYWORDS: [Keyword; 32] = [
    Keyword::Int,
    Keyword::Char,
    Keyword::Void,
    Keyword::Struct,
    Keyword::Typedef,
    Keyword::If,
    Keyword::Else,
    Keyword::While,
    Keyword::Do,
    Keyword::For,
    Keyword::Break,
    Keyword::Continue,
    Keyword::Return,
    Keyword::Sizeof,
    Keyword::Auto,
    Keyword::Case,
    Keyword::Const,
    Keyword::Default,
    Keyword::Double,
    Keyword::Enum,
    Keyword::Extern,
    Keyword::Float,
    Keyword::Goto,
    Keyword::Long,
    Keyword::Register,
    Keyword::Short,
    Keyword::Signed,
    Keyword::Static,
    Keyword::Switch,
    Keyword::Union,
    Keyword::Unsigned,
    Keyword::Volatile,
];

impl Keyword {
    /// The text of the keyword.
    pub fn text(self) -> &'static [u8]
        ensures { result.now ≡ keyword_text self }
    {
        match self {
            Keyword::Int => b"int",
            Keyword::Char => b"char",
            Keyword::Void => b"void",
            Keyword::Struct => b"struct",
            Keyword::Typedef => b"typedef",
            Keyword::If => b"if",
            Keyword::Else => b"else",
            Keyword::While => b"while",
            Keyword::Do => b"do",
            Keyword::For => b"for",
            Keyword::Break => b"break",
            Keyword::Continue => b"continue",
            Keyword::Return => b"return",
            Keyword::Sizeof => b"sizeof",
            Keyword::Auto => b"auto",
            Keyword::Case => b"case",
            Keyword::Const => b"const",
            Keyword::Default => b"default",
            Keyword::Double => b"double",
            Keyword::Enum => b"enum",
            Keyword::Extern => b"extern",
            Keyword::Float => b"float",
            Keyword::Goto => b"goto",
            Keyword::Long => b"long",
            Keyword::Register => b"register",
            Keyword::Short => b"short",
            Keyword::Signed => b"signed",
            Keyword::Static => b"static",
            Keyword::Switch => b"switch",
            Keyword::Union => b"union",
            Keyword::Unsigned => b"unsigned",
            Keyword::Volatile => b"volatile",
        }
    }
}

/// Whether a byte can begin a name: a letter or `_`.
pub(crate) fn is_name_start(byte: u8) -> bool
    ensures { result ≡ is_name_start byte }
{
    byte.is_ascii_alphabetic() || byte == b'_'
}

/// Whether a byte can stand in a word: a letter, a digit or `_`.
fn is_word_byte(byte: u8) -> bool
    ensures { result ≡ is_word_byte byte }
{
    byte.is_ascii_alphanumeric() || byte == b'_'
}

/// How many letters, digits and `_` the bytes begin with.
pub(crate) fn run_len(bytes: &[u8]) -> usize
    ensures { result ≡ prefix_len is_word_byte bytes.now }
{
    bytes.iter().take_while(|byte| is_word_byte(**byte)).count()
}

/// The keyword with this text.
fn keyword_of(word: &[u8]) -> Option<Keyword>
    ensures { result ≡ find (λ keyword. bytes_eq (keyword_text keyword) word.now) KEYWORDS }
{
    KEYWORDS
        .iter()
        .copied()
        .find(|keyword| keyword.text() == word)
}

/// The keyword or name that the bytes begin with, and its length.
pub(crate) fn word_token(alloc: Global, bytes: &[u8]) -> Result<(Kind, usize), AllocError>
    requires { IsTrue (begins is_name_start bytes.now) }
    ensures { IfOk result (λ found. BeginsWithToken bytes.now found.0 found.1) }
{
    let len = run_len(bytes);
    let word = &bytes[..len];
    let kind = match keyword_of(word) {
        Some(keyword) => Kind::Word(keyword),
        None => Kind::Name(Items::from_slice(alloc, word)?),
    };
    Ok((kind, len))
}
