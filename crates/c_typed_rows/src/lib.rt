//! What holds of each level of a typed source: definitions alone, for the laws of typing and for what is made of typed sources.
#![tactic(auto)]
