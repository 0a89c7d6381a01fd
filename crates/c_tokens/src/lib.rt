//! The tokens of a source text: the one list of tokens that the bytes have, or the first place that
//! is no token, white space or comment.
#![tactic(auto)]

mod blank;
mod lexer;
mod mark;
mod number;
mod quoted;
mod theorems;
mod token;
mod word;

pub use lexer::lex;
pub use theorems::{spaced_text_lexes, texts_have_one_answer};
pub use token::{Keyword, Kind, LexRefusal, Mark, Spelling, Token, Tokens};
