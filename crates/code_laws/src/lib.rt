//! The law that a program has one code.
#![tactic(auto)]

mod theorems;

pub use theorems::programs_have_one_code;
