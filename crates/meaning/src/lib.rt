//! What runs consist of: values, actions and their replies, events, notes and records; and which records are a legal history.
#![tactic(auto)]

mod action;
mod event;
mod events;
mod note;
mod record;
mod value;

pub use action::{Action, Reply, fits};
pub use event::{Event, Inputs};
pub use events::{Block, Events};
pub use note::{Note, Place};
pub use record::{Record, Records};
pub use value::{Check, Entry, Stop, Value};
