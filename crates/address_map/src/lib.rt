//! Maps from addresses.
#![tactic(auto)]

mod address_map;

pub use address_map::AddressMap;
