//! The ordinary memory of the scheduled core.
#![tactic(auto)]

mod plain;

pub use plain::Plain;
