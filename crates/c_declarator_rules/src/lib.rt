//! The rules of declarators, parameters, type words, specs and members, behind what the walk finds of their parts.
#![tactic(auto)]

mod declarators;
mod parts;

pub use declarators::{LayeredAbstract, LayeredDeclarator, abstract_layered, layered};
pub use parts::{
    body_tag, constant_bound, named_param, one_member, spec_of, struct_spec, type_name,
    unnamed_param, whole_word,
};
