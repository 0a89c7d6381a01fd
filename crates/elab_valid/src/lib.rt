//! Elaborated programs are valid, and their code is typed: the laws of elaboration over whole typed sources.
#![tactic(auto)]

mod theorems;

pub use theorems::{programs_are_typed, programs_are_valid};
