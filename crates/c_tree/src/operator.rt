//! The operators of expressions and their marks.

ghost use Rattle.std.specs.Prelude.{◌≡◌};
ghost use Rattle.c_tree.specs.Marks.{assign_mark, binary_mark, unary_mark};
ghost use Rattle.c_tree.specs.Operators as operators;

use c_tokens::Mark;

/// `=`, and the operators with an `=` behind them.
#[derive(Clone, Copy, Debug, PartialEq, Eq)]
pub enum AssignOperator {
    Assign,
    Add,
    Subtract,
    Multiply,
    Divide,
    Remainder,
    BitwiseAnd,
    BitwiseOr,
    BitwiseExclusiveOr,
    ShiftLeft,
    ShiftRight,
}

impl AssignOperator {
    /// The operator in front of the `=`, whose result is assigned: `+` of `+=`, and none of `=`.
    pub fn binary_operator(self) -> Option<BinaryOperator>
        ensures { result ≡ operators.binary_operator self }
    {
        match self {
            AssignOperator::Assign => None,
            AssignOperator::Add => Some(BinaryOperator::Add),
            AssignOperator::Subtract => Some(BinaryOperator::Subtract),
            AssignOperator::Multiply => Some(BinaryOperator::Multiply),
            AssignOperator::Divide => Some(BinaryOperator::Divide),
            AssignOperator::Remainder => Some(BinaryOperator::Remainder),
            AssignOperator::BitwiseAnd => Some(BinaryOperator::BitwiseAnd),
            AssignOperator::BitwiseOr => Some(BinaryOperator::BitwiseOr),
            AssignOperator::BitwiseExclusiveOr => Some(BinaryOperator::BitwiseExclusiveOr),
            AssignOperator::ShiftLeft => Some(BinaryOperator::ShiftLeft),
            AssignOperator::ShiftRight => Some(BinaryOperator::ShiftRight),
        }
    }

    /// Its mark.
    pub(crate) fn mark(self) -> Mark
        ensures { result ≡ assign_mark self }
    {
        match self {
            AssignOperator::Assign => Mark::Assign,
            AssignOperator::Add => Mark::PlusAssign,
            AssignOperator::Subtract => Mark::MinusAssign,
            AssignOperator::Multiply => Mark::StarAssign,
            AssignOperator::Divide => Mark::SlashAssign,
            AssignOperator::Remainder => Mark::PercentAssign,
            AssignOperator::BitwiseAnd => Mark::AmpersandAssign,
            AssignOperator::BitwiseOr => Mark::BarAssign,
            AssignOperator::BitwiseExclusiveOr => Mark::CaretAssign,
            AssignOperator::ShiftLeft => Mark::ShiftLeftAssign,
            AssignOperator::ShiftRight => Mark::ShiftRightAssign,
        }
    }
}

/// The binary operators.
#[derive(Clone, Copy, Debug, PartialEq, Eq)]
pub enum BinaryOperator {
    LogicalOr,
    LogicalAnd,
    BitwiseOr,
    BitwiseExclusiveOr,
    BitwiseAnd,
    Equal,
    NotEqual,
    Less,
    Greater,
    LessEqual,
    GreaterEqual,
    ShiftLeft,
    ShiftRight,
    Add,
    Subtract,
    Multiply,
    Divide,
    Remainder,
}

impl BinaryOperator {
    /// Whether it is `&&` or `||`, whose second operand isn't always evaluated.
    pub fn is_logical(self) -> bool
        ensures { result ≡ operators.is_logical self }
    {
        matches!(self, BinaryOperator::LogicalAnd | BinaryOperator::LogicalOr)
    }

    /// Its mark.
    pub(crate) fn mark(self) -> Mark
        ensures { result ≡ binary_mark self }
    {
        match self {
            BinaryOperator::LogicalOr => Mark::LogicalOr,
            BinaryOperator::LogicalAnd => Mark::LogicalAnd,
            BinaryOperator::BitwiseOr => Mark::Bar,
            BinaryOperator::BitwiseExclusiveOr => Mark::Caret,
            BinaryOperator::BitwiseAnd => Mark::Ampersand,
            BinaryOperator::Equal => Mark::Equal,
            BinaryOperator::NotEqual => Mark::NotEqual,
            BinaryOperator::Less => Mark::Less,
            BinaryOperator::Greater => Mark::Greater,
            BinaryOperator::LessEqual => Mark::LessEqual,
            BinaryOperator::GreaterEqual => Mark::GreaterEqual,
            BinaryOperator::ShiftLeft => Mark::ShiftLeft,
            BinaryOperator::ShiftRight => Mark::ShiftRight,
            BinaryOperator::Add => Mark::Plus,
            BinaryOperator::Subtract => Mark::Minus,
            BinaryOperator::Multiply => Mark::Star,
            BinaryOperator::Divide => Mark::Slash,
            BinaryOperator::Remainder => Mark::Percent,
        }
    }
}

/// `&`, `*`, `-`, `~` and `!` in front of an operand.
#[derive(Clone, Copy, Debug, PartialEq, Eq)]
pub enum UnaryOperator {
    Address,
    Dereference,
    Negate,
    Complement,
    Not,
}

impl UnaryOperator {
    /// Its mark.
    pub(crate) fn mark(self) -> Mark
        ensures { result ≡ unary_mark self }
    {
        match self {
            UnaryOperator::Address => Mark::Ampersand,
            UnaryOperator::Dereference => Mark::Star,
            UnaryOperator::Negate => Mark::Minus,
            UnaryOperator::Complement => Mark::Tilde,
            UnaryOperator::Not => Mark::Exclamation,
        }
    }
}
