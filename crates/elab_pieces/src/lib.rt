//! The rows of statements, functions and programs: what code their elaboration is, and its limits. Definitions alone.
#![tactic(auto)]

mod limit;

pub use limit::LimitName;
