//! Elaboration of sources that break no rule: their programs are valid, and the code of these is typed.
#![tactic(auto)]

mod theorems;

pub use theorems::{accepted_programs_are_typed, accepted_programs_are_valid};
