//! Scripts: the inputs of a run, and the turns of threads and the writes to ordinary memory that it is made of.
#![tactic(auto)]

mod effects;
mod error;
mod grammar;
mod read;
mod theorems;

pub use error::ScriptRefusal;
pub use read::{Script, read_inputs, read_script};
pub use theorems::scripts_have_one_answer;
