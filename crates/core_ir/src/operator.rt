//! The operators of Core.

/// What `Binary` and `Unary` compute. `Unary` has `Subtract`, which negates, `Complement` or `Not`;
/// `Binary` has the others and `Subtract`.
#[derive(Clone, Copy, Debug, PartialEq, Eq)]
pub enum Operator {
    Add,
    Subtract,
    Multiply,
    Divide,
    Remainder,
    BitwiseAnd,
    BitwiseOr,
    BitwiseExclusiveOr,
    ShiftLeft,
    ShiftRight,
    Less,
    Greater,
    LessEqual,
    GreaterEqual,
    Equal,
    NotEqual,
    Complement,
    Not,
}
