//! The shared store's rule over a table of atomic words, and the steps of its seats.
#![tactic(auto)]

mod draws;
mod gather;
mod history;
mod place;
mod plays;
mod records;
mod table;
mod view;

pub use gather::Gathering;
pub use history::{StoreCall, StoreSize};
pub use table::{Opener, SafeSeat, SafeTable};
pub use view::{Draft, Held, StoreRule, View};
