//! The laws of elaborated statements and bodies.
#![tactic(auto)]

mod theorems;

pub use theorems::{lines_are_numbered, statements_are_good, statements_fit};
