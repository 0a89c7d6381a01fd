//! What the rules of declarators and of expressions are made of: the tokens that are left, type names, the functions that
//! read the depth below, operands with what goes on behind them, and what stands round a declarator's name: suffixes, and
//! the declarators that have none. The definitions of all readers stand here, since those of declarators and those of
//! expressions are made of each other.
#![tactic(auto)]

mod abstract_declarators;
mod boxes;
mod brackets;
mod cursor;
mod error;
mod grammar;
mod level;
mod lookahead;
mod names;
mod operand;
mod parts;
mod suffixes;

pub use boxes::boxed;
pub use brackets::{Bracketed, Core, formed, whole_of};
pub use cursor::{Cursor, is_word};
pub use error::Failure;
pub use grammar::Grammar;
pub use level::{ASSIGN_LEVEL, CAST_LEVEL, UNARY_LEVEL};
pub use lookahead::{begins_spec, free_name, looks_named, name_of, opened, opens_type};
pub use names::Names;
pub use operand::{Continuation, Operand, Part, bracketed, extended};
