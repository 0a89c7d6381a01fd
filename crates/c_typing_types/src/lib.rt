//! The laws of the types in typed forms: which structs they name, their functions, and their bounds.
#![tactic(auto)]

mod theorems;

pub use theorems::{
    bounds_are_given, derived_sources_are_filled, functions_are_declarable, types_are_well_made,
    types_name_structs,
};
