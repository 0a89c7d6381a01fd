//! The classes of types.

/// How values of a type are protected.
#[derive(Clone, Copy, Debug, PartialEq, Eq)]
pub enum Class {
    /// Pointers to functions.
    Code,
    /// Pointers to types that hold code pointers.
    Sensitive,
    /// Pointers that may point to anything.
    Universal,
    /// All other types.
    Regular,
}
