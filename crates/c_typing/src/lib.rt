//! The typed form of a source, or the first rule that it breaks.
#![tactic(auto)]

mod error;
mod full_expressions;
mod functions;
mod items;
mod sources;
mod statements;
mod theorems;

pub use error::CheckRefusal;
pub use sources::check;
pub use theorems::sources_have_one_verdict;
