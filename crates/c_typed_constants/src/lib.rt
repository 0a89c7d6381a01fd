//! The law of the constants in typed forms: they are the values of integer constant expressions.
#![tactic(auto)]

mod theorems;

pub use theorems::constants_agree;
