//! Tests of levee_top, by its public calls.
#![tactic(auto)]

#[cfg(test)]
mod tests;
