//! The text of a run: a line for each record of its trace, in full or in brief.
#![tactic(auto)]

mod field;
mod hash;
mod kept;
mod record;
mod records;
mod text;

pub use records::Trace;
