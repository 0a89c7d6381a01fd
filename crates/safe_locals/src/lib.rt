//! Which frame locals are safe, and what is known of each register at each place of a body.
#![tactic(auto)]

mod at_each;
mod body;
mod functions;
mod mark;
mod marks;
mod operands;

pub use at_each::at_locals;
pub use body::{judge_locals, safe_in};
pub use functions::{SafeTable, at_safe, safe, safe_all};
pub use marks::{LocalAddress, Marks};
