//! A thread of the protected machine: what it asks for in its next turn, and where an answer leads it.
#![tactic(auto)]

mod access;
mod action;
mod callee;
mod effect;
mod frame;
mod instruction;
mod notes;
mod quiet;
mod stack;
mod state;
mod thread;

pub use access::Access;
pub use notes::Notes;
pub use thread::Thread;
pub use thread_laws::threads_ask_what_fits;
