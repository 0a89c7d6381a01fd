//! The rules of each form of expression, behind its parts.
#![tactic(auto)]

mod assignments;
mod calls;
mod expressions;
mod members;
mod names;
mod operands;
mod place;
mod sizes;
mod unary_operators;

pub use assignments::{assignment, post_decrement, post_increment, pre_decrement, pre_increment};
pub use calls::call;
pub use expressions::{binary, conditional, index, number, text};
pub use members::{arrow, member};
pub use names::identifier;
pub use place::Place;
pub use sizes::{cast, size_of_type, size_of_value};
pub use unary_operators::unary;
