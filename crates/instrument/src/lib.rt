//! Code that stands for a program.
#![tactic(auto)]

mod body;
mod copies;
mod decide;
mod function;
mod kinds;
mod locals;
mod program;

pub use program::instrument;
