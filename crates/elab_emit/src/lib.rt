//! Emits instructions of Core behind registers that have the values: single instructions, copies and calls, and jumps
//! that are written once their places are known. Nothing here knows a tree.
//!
//! What emits gives `TooLong`, exactly where memory lasts and the code is longer than a function may be, and `Memory`,
//! where no memory is left or a number that typing bounds is above its bound.
#![tactic(auto)]

mod calls;
mod choices;
mod copies;
mod emitter;
mod places;
mod rows;
mod sizes;
mod types;

pub use calls::{finish_built_in, finish_call, finish_indirect, keep};
pub use choices::{end_first_arm, finish_and, finish_conditional, finish_or, open_or};
pub use copies::{copy_struct, list_scalars};
pub use emitter::{Emitter, Trouble, put};
pub use places::has_place;
pub use rows::{
    add_units, convert, finish_operation, frame_local, function, global, load, member_at,
    name_address, number, operator_of, point, set_slot, size, slot, store, string, unary, value_at,
    whole_value,
};
pub use sizes::{becomes_pointer, member_offset, target, target_units, units};
pub use types::{called_type, copy_function};
