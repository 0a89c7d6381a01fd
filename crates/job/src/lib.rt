//! The lines of a text, and where a job is cut into its source and its script.
#![tactic(auto)]

mod cut;
mod lines;
mod theorems;

pub use cut::{Cut, cut_job};
pub use lines::{content_of, len_before, line_len};
pub use theorems::jobs_have_one_cut;
