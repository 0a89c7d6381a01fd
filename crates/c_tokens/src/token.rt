//! Tokens, and the refusals of a text that has none.

use sqlite_items::Items;
use thiserror::Error;

/// A list of bytes: those of a name, or those that the pieces of a string stand for.
pub type Spelling = Items<u8>;

/// A list of tokens.
pub type Tokens = Items<Token>;

/// A word that isn't a name. From `Auto` on they are reserved: no rule of the grammar takes them.
#[derive(Clone, Copy, Debug, PartialEq, Eq)]
pub enum Keyword {
    Int,
    Char,
    Void,
    Struct,
    Typedef,
    If,
    Else,
    While,
    Do,
    For,
    Break,
    Continue,
    Return,
    Sizeof,
    Auto,
    Case,
    Const,
    Default,
    Double,
    Enum,
    Extern,
    Float,
    Goto,
    Long,
    Register,
    Short,
    Signed,
    Static,
    Switch,
    Union,
    Unsigned,
    Volatile,
}

/// A punctuation mark or an operator.
#[derive(Clone, Copy, Debug, PartialEq, Eq)]
pub enum Mark {
    LeftParenthesis,
    RightParenthesis,
    LeftBrace,
    RightBrace,
    LeftBracket,
    RightBracket,
    Semicolon,
    Comma,
    Dot,
    Arrow,
    Question,
    Colon,
    Assign,
    Equal,
    NotEqual,
    Less,
    Greater,
    LessEqual,
    GreaterEqual,
    ShiftLeft,
    ShiftRight,
    Plus,
    Minus,
    Star,
    Slash,
    Percent,
    Ampersand,
    Bar,
    Caret,
    Tilde,
    Exclamation,
    LogicalAnd,
    LogicalOr,
    Increment,
    Decrement,
    PlusAssign,
    MinusAssign,
    StarAssign,
    SlashAssign,
    PercentAssign,
    AmpersandAssign,
    BarAssign,
    CaretAssign,
    ShiftLeftAssign,
    ShiftRightAssign,
}

/// What a token is, with what its text stands for.
#[derive(Debug, Drop)]
pub enum Kind {
    Word(Keyword),
    Name(Spelling),
    /// A number, 0 to the greatest `i64`, or the byte of a character.
    Number(i64),
    /// A string, without the final 0.
    Text(Spelling),
    Mark(Mark),
}

/// One token: its text is the bytes `from..to` of the source, and `line`, from 1, is where it begins.
#[derive(Debug, Drop)]
pub struct Token {
    pub kind: Kind,
    pub from: u32,
    pub to: u32,
    pub line: u32,
}

/// The first place that is no token, white space or comment, by its line, from 1.
#[derive(Clone, Copy, Debug, PartialEq, Eq, Error)]
pub enum LexRefusal {
    /// A byte that begins nothing.
    #[error("byte {line}")]
    Byte { line: u32 },
    /// A run of letters, digits and `_` that begins with a digit and is no number.
    #[error("number {line}")]
    Number { line: u32 },
    /// A quote that begins no character or string.
    #[error("text {line}")]
    Text { line: u32 },
    /// A `/*` without a `*/` behind it.
    #[error("comment {line}")]
    Comment { line: u32 },
    /// No memory was left.
    #[error("out of memory")]
    Memory,
}
