//! Reads items and whole sources from tokens.
#![tactic(auto)]

mod error;
mod items;
mod source;
mod theorems;

pub use error::ParseRefusal;
pub use source::parse;
pub use theorems::{
    items_are_told_apart, refusals_are_certain, sources_have_one_tree, texts_have_one_tree,
};
