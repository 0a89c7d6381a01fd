//! Tests of texts by public calls: scripts, and traces that are read back.
#![tactic(auto)]

#[cfg(test)]
mod scripts;
#[cfg(test)]
mod traces;
