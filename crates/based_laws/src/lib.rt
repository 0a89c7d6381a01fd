//! What values and accesses every run of the protected machine keeps to.
#![tactic(auto)]

mod theorems;

pub use theorems::{runs_are_based, values_stay_known};
