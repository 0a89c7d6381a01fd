//! The region, ordinary memory, lists of events and traces, by public calls, with answers computed by hand.
#![tactic(auto)]

#[cfg(test)]
mod events;
#[cfg(test)]
mod memories;
#[cfg(test)]
mod traces;
