//! Where an expression stands.

/// Where an expression stands. Only a built-in's name asks.
#[derive(Clone, Copy, Debug, PartialEq, Eq)]
pub enum Place {
    /// Alone, or as a part of another expression.
    Value,
    /// As what a call calls.
    Callee,
}
