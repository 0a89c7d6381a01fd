//! The rules of typing, by the public calls: each broken from several sides, what is allowed beside it, and which comes
//! first.
#![tactic(auto)]

#[cfg(test)]
mod expressions;
#[cfg(test)]
mod names;
#[cfg(test)]
mod order;
#[cfg(test)]
mod source;
#[cfg(test)]
mod statements;
#[cfg(test)]
mod types;
