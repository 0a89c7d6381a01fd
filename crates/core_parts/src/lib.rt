//! How code composes: what is asked of pieces of a body, by which the whole is well formed.
#![tactic(auto)]

mod theorems;

pub use theorems::parts_compose;
