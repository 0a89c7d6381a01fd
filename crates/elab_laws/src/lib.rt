//! The laws of elaborated code: each row gives code that is valid where it is put together.
#![tactic(auto)]

mod theorems;

pub use theorems::{rows_are_good, rows_fit, rows_touch};
