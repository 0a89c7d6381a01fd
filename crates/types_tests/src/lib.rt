//! Types, their units and offsets, and tables, by public calls with values computed by hand.
#![tactic(auto)]

#[cfg(test)]
mod kinds;
#[cfg(test)]
mod structs;
#[cfg(test)]
mod support;
#[cfg(test)]
mod things;
#[cfg(test)]
mod units;
