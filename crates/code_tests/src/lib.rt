//! Code of a program built by hand, by public calls, with what each place decides found by hand.
#![tactic(auto)]

#[cfg(test)]
mod programs;
#[cfg(test)]
mod stands;
#[cfg(test)]
mod wrong;
