//! Where every run of the protected machine goes, of any code.
#![tactic(auto)]

mod theorems;

pub use theorems::{starts_are_found, threads_are_bracketed, transfers_arrive, transfers_stand};
