//! What stands beside the instruction at a place.

use machine::Origin;

/// What stands beside the instruction at a place.
#[derive(Clone, Copy, Debug, PartialEq, Eq)]
pub struct Site {
    /// The unit, where it touches or accesses one of a safe local.
    pub unit: Option<u32>,
    /// Where the pointer of an indirect call is read; of no meaning at other instructions.
    pub origin: Origin,
}
