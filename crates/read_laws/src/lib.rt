//! Where every run of the protected machine goes: transfers are good.
#![tactic(auto)]

mod theorems;

pub use theorems::transfers_are_good;
