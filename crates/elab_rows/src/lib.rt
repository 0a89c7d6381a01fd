//! The rows of expressions: what code their elaboration is. Definitions, and the types that these speak of.
#![tactic(auto)]

mod named;
mod operation;
mod scope;

pub use named::Named;
pub use operation::{Last, Operation};
pub use scope::{Scope, Standing};
