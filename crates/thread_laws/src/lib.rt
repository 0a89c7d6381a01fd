//! What every run of a thread alone keeps.
#![tactic(auto)]

mod theorems;

pub use theorems::threads_ask_what_fits;
