//! Reads initialisers, declarations, statements and blocks from tokens.
#![tactic(auto)]

mod declarations;
mod depths;
mod form;
mod statements;
mod words;

pub use declarations::decl_of;
pub use depths::block;
pub use words::eat_word;
