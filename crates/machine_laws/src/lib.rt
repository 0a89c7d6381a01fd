//! What every run of the protected machine keeps.
#![tactic(auto)]

mod theorems;

pub use theorems::runs_are_legal;
