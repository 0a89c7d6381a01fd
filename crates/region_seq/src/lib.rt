//! The safe store of the scheduled core: protected entries, slots, ended ids and thread numbers.
#![tactic(auto)]

mod region;

pub use region::Region;
