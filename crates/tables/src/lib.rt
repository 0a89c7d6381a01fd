//! Things in order, each found by its name.
#![tactic(auto)]

mod table;

pub use table::{Named, Table};
