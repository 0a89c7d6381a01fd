//! The laws of every run of the protected machine.
#![tactic(auto)]

mod theorems;

pub use theorems::runs_are_good;
