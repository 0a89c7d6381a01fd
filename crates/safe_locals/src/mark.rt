//! What serves a register, as far as the analyses ask.

/// What serves a register at a place of a body.
#[derive(Clone, Copy, Debug)]
pub(crate) enum Mark {
    /// None of these, or nothing.
    Other,
    /// A number.
    Number(i64),
    /// The address of a local and so many units.
    Address { local: u32, offset: i128 },
    /// What the load or the slot at a place gives, by conversions alone.
    Read(u32),
}
