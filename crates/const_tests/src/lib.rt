//! Values of integer constant expressions, by public calls with values computed by hand.
#![tactic(auto)]

#[cfg(test)]
mod constants;
#[cfg(test)]
mod type_words;
#[cfg(test)]
mod world;
