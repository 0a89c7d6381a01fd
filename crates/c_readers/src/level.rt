//! The levels of expressions, from the loosest to the tightest.

ghost use Rattle.std.specs.Prelude.{◌≡◌, ◌≤◌};
ghost use Rattle.c_tree.specs.Marks as marks;
ghost use Rattle.c_readers.specs.inner.Readers as reader;

use crate::operand::Continuation;
use c_tokens::Mark;
use c_tree::{AssignOperator, BinaryOperator};

pub const ASSIGN_LEVEL: usize = 0;

pub const CONDITIONAL_LEVEL: usize = 1;

pub const CAST_LEVEL: usize = 12;

pub const UNARY_LEVEL: usize = 13;

pub const POSTFIX_LEVEL: usize = 14;

pub const PRIMARY_LEVEL: usize = 15;

/// The level of a binary operator.
pub fn binary_level(op: BinaryOperator) -> usize
    ensures is { result ≡ marks.binary_level op }
    ensures small { result ≤ 11 }
{
    match op {
        BinaryOperator::LogicalOr => 2,
        BinaryOperator::LogicalAnd => 3,
        BinaryOperator::BitwiseOr => 4,
        BinaryOperator::BitwiseExclusiveOr => 5,
        BinaryOperator::BitwiseAnd => 6,
        BinaryOperator::Equal | BinaryOperator::NotEqual => 7,
        BinaryOperator::Less
        | BinaryOperator::Greater
        | BinaryOperator::LessEqual
        | BinaryOperator::GreaterEqual => 8,
        BinaryOperator::ShiftLeft | BinaryOperator::ShiftRight => 9,
        BinaryOperator::Add | BinaryOperator::Subtract => 10,
        BinaryOperator::Multiply | BinaryOperator::Divide | BinaryOperator::Remainder => 11,
    }
}

/// What a mark behind an operand begins.
pub fn continuation(mark: Mark) -> Option<Continuation>
    ensures { result ≡ reader.continuation_of mark }
{
    Some(match mark {
        Mark::LeftBracket => Continuation::Index,
        Mark::LeftParenthesis => Continuation::Call,
        Mark::Dot => Continuation::Member,
        Mark::Arrow => Continuation::Arrow,
        Mark::Increment => Continuation::Increment,
        Mark::Decrement => Continuation::Decrement,
        Mark::Question => Continuation::Conditional,
        Mark::LogicalOr => Continuation::Binary(BinaryOperator::LogicalOr),
        Mark::LogicalAnd => Continuation::Binary(BinaryOperator::LogicalAnd),
        Mark::Bar => Continuation::Binary(BinaryOperator::BitwiseOr),
        Mark::Caret => Continuation::Binary(BinaryOperator::BitwiseExclusiveOr),
        Mark::Ampersand => Continuation::Binary(BinaryOperator::BitwiseAnd),
        Mark::Equal => Continuation::Binary(BinaryOperator::Equal),
        Mark::NotEqual => Continuation::Binary(BinaryOperator::NotEqual),
        Mark::Less => Continuation::Binary(BinaryOperator::Less),
        Mark::Greater => Continuation::Binary(BinaryOperator::Greater),
        Mark::LessEqual => Continuation::Binary(BinaryOperator::LessEqual),
        Mark::GreaterEqual => Continuation::Binary(BinaryOperator::GreaterEqual),
        Mark::ShiftLeft => Continuation::Binary(BinaryOperator::ShiftLeft),
        Mark::ShiftRight => Continuation::Binary(BinaryOperator::ShiftRight),
        Mark::Plus => Continuation::Binary(BinaryOperator::Add),
        Mark::Minus => Continuation::Binary(BinaryOperator::Subtract),
        Mark::Star => Continuation::Binary(BinaryOperator::Multiply),
        Mark::Slash => Continuation::Binary(BinaryOperator::Divide),
        Mark::Percent => Continuation::Binary(BinaryOperator::Remainder),
        Mark::Assign => Continuation::Assign(AssignOperator::Assign),
        Mark::PlusAssign => Continuation::Assign(AssignOperator::Add),
        Mark::MinusAssign => Continuation::Assign(AssignOperator::Subtract),
        Mark::StarAssign => Continuation::Assign(AssignOperator::Multiply),
        Mark::SlashAssign => Continuation::Assign(AssignOperator::Divide),
        Mark::PercentAssign => Continuation::Assign(AssignOperator::Remainder),
        Mark::AmpersandAssign => Continuation::Assign(AssignOperator::BitwiseAnd),
        Mark::BarAssign => Continuation::Assign(AssignOperator::BitwiseOr),
        Mark::CaretAssign => Continuation::Assign(AssignOperator::BitwiseExclusiveOr),
        Mark::ShiftLeftAssign => Continuation::Assign(AssignOperator::ShiftLeft),
        Mark::ShiftRightAssign => Continuation::Assign(AssignOperator::ShiftRight),
        _ => return None,
    })
}

/// The level of an operand with this behind it.
pub fn whole_level(next: Continuation) -> usize
    ensures { result ≡ reader.whole_level next }
{
    match next {
        Continuation::Binary(op) => binary_level(op),
        Continuation::Conditional => CONDITIONAL_LEVEL,
        Continuation::Assign(_) => ASSIGN_LEVEL,
        _ => POSTFIX_LEVEL,
    }
}

/// The loosest level of an operand that this may stand behind.
pub fn left_level(next: Continuation) -> usize
    ensures { result ≡ reader.left_level next }
{
    match next {
        Continuation::Binary(op) => binary_level(op),
        Continuation::Conditional => CONDITIONAL_LEVEL + 1,
        Continuation::Assign(_) => UNARY_LEVEL,
        _ => POSTFIX_LEVEL,
    }
}
