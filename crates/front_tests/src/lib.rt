//! Tests of the front end by its public calls: tokens, expressions, whole sources, and what is written of a tree.
#![tactic(auto)]

#[cfg(test)]
mod expressions;
#[cfg(test)]
mod sources;
#[cfg(test)]
mod text;
#[cfg(test)]
mod tokens;
