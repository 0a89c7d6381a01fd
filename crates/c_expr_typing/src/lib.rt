//! The walk of expressions, type words, specs and declarators: each part in source order, then the rules of the whole.
#![tactic(auto)]

mod walk;

pub use walk::{declarator, expression, spec};
