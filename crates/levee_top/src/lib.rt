//! The top call: words and a job in, text and a status out.
#![tactic(auto)]

mod answer;
mod command;
mod failure;
mod refusal;
mod source;
mod status;
mod theorems;
mod top;

pub use command::Command;
pub use refusal::Refusal;
pub use status::Status;
pub use theorems::outcomes_are_unique;
pub use top::levee;
