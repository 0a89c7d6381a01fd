//! Which types hold code pointers, and the class of each type: how values of it are protected.
#![tactic(auto)]

mod askers;
mod class;
mod class_table;
mod holding;
mod marks;
mod search;
mod theorems;

pub use class::Class;
pub use class_table::{ClassTable, classes};
pub use theorems::{
    arrays_are_as_their_elements, classes_are_unique, holders_are_sensitive, pointers_hold,
    types_have_classes,
};
