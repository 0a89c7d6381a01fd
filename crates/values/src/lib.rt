//! The machine's numbers and values: what operators, conversions and accesses give.
#![tactic(auto)]

mod number;
mod operator;
mod value;

pub use number::{is_kept, low_word, span, truncated};
pub use operator::{computed, computed_one, is_zero};
pub use value::{
    address_of, cast_value, entry_of, loaded_entry, loaded_value, moved_value, number_of,
    object_address, told_function, value_of,
};
