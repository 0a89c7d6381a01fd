//! Elaboration: from typed sources to programs of Core, and the limits of these.
#![tactic(auto)]

mod entry;
mod error;
mod frames;
mod functions;
mod globals;
mod limits;
mod programs;

pub use elab_pieces::LimitName;
pub use error::ElabRefusal;
pub use programs::elaborate;
