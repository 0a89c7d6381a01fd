//! The walk of initialisers and declarations: each declarator in source order, then the rules of its name.
#![tactic(auto)]

mod declarations;
mod initialisers;
mod leaves;

pub use declarations::{declaration, type_declarators};
