//! What the operators give on numbers of 64 bits.

ghost use Rattle.std.specs.Prelude.{◌≡◌};
ghost use Rattle.c_const.specs.Values as spec;

use c_tree::BinaryOperator;

/// 1 where it holds, else 0.
pub fn truth(holds: bool) -> i64
    ensures { result ≡ spec.truth holds }
{
    i64::from(holds)
}

/// What a conversion to `char` keeps of a number: 0 to 255.
pub fn as_char(x: i64) -> i64
    ensures { result ≡ spec.as_char x }
{
    x.rem_euclid(256)
}

/// Unary `-`, which wraps.
pub fn negated(x: i64) -> i64
    ensures { result ≡ spec.negated x }
{
    x.wrapping_neg()
}

/// `~`
pub fn complemented(x: i64) -> i64
    ensures { result ≡ spec.complemented x }
{
    !x
}

/// By how many bits a shift goes: its right operand modulo 64.
fn amount(y: i64) -> u32
    ensures { result ≡ spec.amount y }
{
    (y.cast_unsigned() % 64) as u32
}

/// What a binary operator gives, and none exactly where it divides by 0. Sums and products wrap,
/// `>>` keeps the sign, and division goes toward 0; the least number divided by -1 is itself, with
/// remainder 0.
pub fn computed(operator: BinaryOperator, x: i64, y: i64) -> Option<i64>
    ensures { result ≡ spec.computed operator x y }
{
    match operator {
        BinaryOperator::LogicalOr => Some(truth(x != 0 || y != 0)),
        BinaryOperator::LogicalAnd => Some(truth(x != 0 && y != 0)),
        BinaryOperator::BitwiseOr => Some(x | y),
        BinaryOperator::BitwiseExclusiveOr => Some(x ^ y),
        BinaryOperator::BitwiseAnd => Some(x & y),
        BinaryOperator::Equal => Some(truth(x == y)),
        BinaryOperator::NotEqual => Some(truth(x != y)),
        BinaryOperator::Less => Some(truth(x < y)),
        BinaryOperator::Greater => Some(truth(x > y)),
        BinaryOperator::LessEqual => Some(truth(x <= y)),
        BinaryOperator::GreaterEqual => Some(truth(x >= y)),
        BinaryOperator::ShiftLeft => Some(x << amount(y)),
        BinaryOperator::ShiftRight => Some(x >> amount(y)),
        BinaryOperator::Add => Some(x.wrapping_add(y)),
        BinaryOperator::Subtract => Some(x.wrapping_sub(y)),
        BinaryOperator::Multiply => Some(x.wrapping_mul(y)),
        BinaryOperator::Divide => divided(x, y),
        BinaryOperator::Remainder => remainder(x, y),
    }
}

/// The quotient, if there is one.
fn divided(x: i64, y: i64) -> Option<i64>
    ensures { result ≡ spec.computed BinaryOperator.Divide x y }
{
    if y == 0 {
        return None;
    }
    Some(x.wrapping_div(y))
}

/// The remainder, if there is one.
fn remainder(x: i64, y: i64) -> Option<i64>
    ensures { result ≡ spec.computed BinaryOperator.Remainder x y }
{
    if y == 0 {
        return None;
    }
    Some(x.wrapping_rem(y))
}
