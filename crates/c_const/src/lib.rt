//! The values of operators on numbers of 64 bits, and of integer constant expressions.
#![tactic(auto)]

mod error;
mod evaluation;
mod type_words;
mod values;

pub use error::ConstRefusal;
pub use evaluation::constant;
pub use type_words::TypeTable;
pub use values::{as_char, complemented, computed, negated, truth};
