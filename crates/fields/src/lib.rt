//! Lines whose fields are split by one space, and the numbers that stand in fields.
#![tactic(auto)]

mod cursor;
mod number;
mod theorems;

pub use cursor::{Fields, is_word};
pub use number::{read_number, read_u32, read_word};
pub use theorems::field_laws;
