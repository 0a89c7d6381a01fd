//! The parts of expressions: what a row asks of a tree or a type, and rows that know no form of their operands.
#![tactic(auto)]

mod calls;
mod held;
mod named;
mod nested;
mod operation;
mod operators;
mod types;

pub use held::{
    arrow_offset, convert_back, convert_value, copy_lvalue, dot_offset, has_function_type,
    has_struct_type, load_lvalue, pointer_to, size_of, store_lvalue, value_of,
};
pub use named::{entity_name, name};
pub use nested::Parts;
pub use types::{one, root};
