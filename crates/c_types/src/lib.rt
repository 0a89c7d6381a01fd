//! The names and types of the language, their units and their sameness.
#![tactic(auto)]

mod copies;
mod error;
mod kinds;
mod layout;
mod name;
mod named_structs;
mod part_count;
mod sameness;
mod struct_table;
mod structs;
mod theorems;
mod ty;

pub use error::LayoutRefusal;
pub use kinds::{
    bound_of, decay, element_of, function_of, is_array, is_char, is_function, is_integer,
    is_object_pointer, is_pointer, is_scalar, is_struct, is_void, is_void_pointer, struct_of,
    target_of,
};
pub use name::{Name, copy_name};
pub use named_structs::{function_names_below, names_below};
pub use part_count::parts;
pub use sameness::{same, same_functions};
pub use struct_table::{StructTable, copy_table};
pub use structs::{Member, MemberList, StructDef, StructList};
pub use theorems::{same_is_equality, tables_are_sound, tables_grow, units_are_sums, units_stay};
pub use ty::{FnTy, Ty, TyList, copy_type};
