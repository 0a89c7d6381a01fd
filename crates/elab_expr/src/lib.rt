//! The code of expressions: from typed trees to instructions of Core.
#![tactic(auto)]

mod addresses;
mod assignments;
mod pass;
mod trees;
mod values;

pub use elab_parts::root;
pub use values::{address, converted, value};
