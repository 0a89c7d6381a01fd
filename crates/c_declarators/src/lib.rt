//! Reads specs, declarators with a name, type words and parameters by the functions that read the expressions in them.
#![tactic(auto)]

mod declarators;
mod specs;

pub use declarators::{Declarators, GREATEST_PAIRS};
pub use specs::inner_type_word;
