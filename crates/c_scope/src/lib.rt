//! What is known at a place of a source: scopes, functions, structs and strings, and what declarations change.
#![tactic(auto)]

mod built_ins;
mod declarations;
mod definitions;
mod failure;
mod functions;
mod rule;
mod scopes;
mod tags;
mod variables;
mod world;

pub use built_ins::{built_in_named, built_in_type};
pub use declarations::{member_type, parameter, word_type};
pub use definitions::{all_named, bind_parameters, mark_defined, mark_used, own_parameters};
pub use failure::{Failure, found, test};
pub use functions::{declare_function, is_main, undefined_use};
pub use rule::Rule;
pub use scopes::{Binding, Meaning, Scopes};
pub use tags::{define, tag};
pub use variables::declare_variable;
pub use world::{KnownFunction, World, count};
