//! The shared store, by public calls, on one thread and on several, with answers computed by hand.
#![tactic(auto)]

#[cfg(test)]
mod one_thread;
#[cfg(test)]
mod threads;
