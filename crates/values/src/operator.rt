//! What the operators give on numbers of 64 bits.

ghost use Rattle.std.specs.Prelude.{◌≡◌};
ghost use Rattle.machine.specs.Numbers as spec;

use core_ir::Operator;

/// 1 where it holds, else 0.
fn truth(holds: bool) -> i64
    ensures { result ≡ spec.truth holds }
{
    i64::from(holds)
}

/// Whether a number is 0, where a branch is taken and a lock is free.
pub fn is_zero(number: i64) -> bool
    ensures { result ≡ spec.is_zero number }
{
    number == 0
}

/// By how many bits a shift goes: its right operand modulo 64.
fn amount(y: i64) -> u32
    ensures { result ≡ spec.amount y }
{
    (y.cast_unsigned() % 64) as u32
}

/// What an operator of two operands gives, and none exactly where it divides by 0. Sums and products
/// wrap, `>>` keeps the sign, and division goes toward 0; the least number divided by -1 is itself,
/// with remainder 0.
pub fn computed(operator: Operator, x: i64, y: i64) -> Option<i64>
    ensures { result ≡ spec.computed operator x y }
{
    match operator {
        Operator::Add => Some(x.wrapping_add(y)),
        Operator::Subtract => Some(x.wrapping_sub(y)),
        Operator::Multiply => Some(x.wrapping_mul(y)),
        Operator::Divide => divided(x, y),
        Operator::Remainder => remainder(x, y),
        Operator::BitwiseAnd => Some(x & y),
        Operator::BitwiseOr => Some(x | y),
        Operator::BitwiseExclusiveOr => Some(x ^ y),
        Operator::ShiftLeft => Some(x << amount(y)),
        Operator::ShiftRight => Some(x >> amount(y)),
        Operator::Less => Some(truth(x < y)),
        Operator::Greater => Some(truth(x > y)),
        Operator::LessEqual => Some(truth(x <= y)),
        Operator::GreaterEqual => Some(truth(x >= y)),
        Operator::Equal => Some(truth(x == y)),
        Operator::NotEqual => Some(truth(x != y)),
        Operator::Complement | Operator::Not => Some(0),
    }
}

/// The quotient, if there is one.
fn divided(x: i64, y: i64) -> Option<i64>
    ensures { result ≡ spec.computed Operator.Divide x y }
{
    if y == 0 {
        return None;
    }
    Some(x.wrapping_div(y))
}

/// The remainder, if there is one.
fn remainder(x: i64, y: i64) -> Option<i64>
    ensures { result ≡ spec.computed Operator.Remainder x y }
{
    if y == 0 {
        return None;
    }
    Some(x.wrapping_rem(y))
}

/// What an operator of one operand gives: `~`, `!`, or else `-`, which wraps.
pub fn computed_one(operator: Operator, x: i64) -> i64
    ensures { result ≡ spec.computed_one operator x }
{
    match operator {
        Operator::Complement => !x,
        Operator::Not => truth(is_zero(x)),
        _ => x.wrapping_neg(),
    }
}
