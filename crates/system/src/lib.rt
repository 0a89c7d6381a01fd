//! The protected machine over all of Core: a run of code over turns, corruptions and cuts, with the safe store apart
//! from ordinary memory.
#![tactic(auto)]

mod memories;
mod record;
mod run;
mod turn;

pub use run::System;
