//! Elaboration by the public calls: what each construct becomes, how many instructions, registers and slots a function has,
//! and the limits of programs.
#![tactic(auto)]

#[cfg(test)]
mod counts;
#[cfg(test)]
mod limits;
#[cfg(test)]
mod rows;
#[cfg(test)]
mod source;
mod text;

pub use text::push_function;
