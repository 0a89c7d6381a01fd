//! The code of statements and of initialisers, each behind the code of a function so far.
//!
//! What adds code gives `TooLong`, exactly where memory lasts and the code is longer than a function may be, and `Memory`,
//! where no memory is left or a number that typing bounds is above its bound.
#![tactic(auto)]

mod body;
mod conditions;
mod declarations;
mod initialisers;
mod leaves;
mod missing;
mod offsets;
mod open;
mod simple;
mod statements;
mod targets;
mod texts;

pub use body::{Body, leave};
pub use initialisers::{initialise, initialise_text};
pub use leaves::parameter_copy;
pub use offsets::next_offset;
pub use statements::function_block;
pub use targets::{Base, Target};
