//! Traces, read from their full text.
#![tactic(auto)]

mod build;
mod deeds;
mod error;
mod item;
mod notes;
mod parts;
mod read;
mod theorems;

pub use build::read_trace;
pub use error::TraceRefusal;
pub use theorems::texts_have_one_trace;
