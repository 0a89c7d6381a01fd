//! Classes of types, safe frame locals and reports, by public calls with values found by hand.
#![tactic(auto)]

#[cfg(test)]
mod classes;
#[cfg(test)]
mod locals;
#[cfg(test)]
mod reports;
#[cfg(test)]
mod support;
