//! Writes trees as text.

mod expression;
mod statement;
mod token;

pub use statement::print_unit;
