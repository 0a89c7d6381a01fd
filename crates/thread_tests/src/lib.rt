//! Threads over code that was built by hand, by public calls, with actions and notes that were computed by hand.
#![tactic(auto)]

#[cfg(test)]
mod codes;
#[cfg(test)]
mod turns;
