//! Reads expressions from tokens, and type words and declarators with the expressions in them.
#![tactic(auto)]

mod depths;
mod expressions;
mod longest;
mod theorems;

pub use depths::{declarator, expr, spec};
pub use longest::expression;
pub use theorems::{
    expression_laws, expressions_have_one_tree, readers_are_complete, readers_are_sound,
};
