//! The limits of programs.

use thiserror::Error;

/// The limits of programs, in the order in which they are looked at.
#[derive(Clone, Copy, Debug, PartialEq, Eq, Error)]
pub enum LimitName {
    /// More than 4,095 functions are defined.
    #[error("functions")]
    Functions,
    /// A function has more than 65,536 instructions.
    #[error("code")]
    Code,
    /// A full expression has more than 1,024 registers.
    #[error("registers")]
    Registers,
    /// A function has more than 1,024 slots.
    #[error("slots")]
    Slots,
    /// A function's frame has more than 16,384 units.
    #[error("frame")]
    Frame,
    /// Globals and strings have more than 65,536 units.
    #[error("globals")]
    Globals,
}
