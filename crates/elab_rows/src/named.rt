//! What a name alone stands for.

use c_typed::BuiltIn;

/// What a name alone stands for, as far as code asks.
#[derive(Clone, Copy, Debug, PartialEq, Eq)]
pub enum Named {
    /// A local that has a slot.
    Slot(u32),
    /// The function of this number.
    Function(usize),
    BuiltIn(BuiltIn),
    Global(u32),
    /// This local of the frame.
    Frame(u32),
    /// No name, or one that stands for no value.
    Other,
}
