//! The shared store: the calls of many threads on one safe store, which have their places in one
//! legal history.
#![tactic(auto)]

mod entry;
mod gather;
mod shared;

pub use gather::Front;
pub use shared::{Read, Shared, ThreadSeat, Written};
