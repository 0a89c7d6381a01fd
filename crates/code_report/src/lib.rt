//! The report on a source: classes of structs, global variables, and the checks and frame locals of its functions.
#![tactic(auto)]

mod checks;
mod definitions;
mod globals;
mod lines;
mod locals;
mod names;
mod source;
mod structs;
mod theorems;

pub use source::report;
pub use theorems::reports_are_unique;
