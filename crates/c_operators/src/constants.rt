//! Which expressions are integer constant expressions, level by level, and their values.

ghost use Rattle.std.specs.Prelude.{◌≡◌};
ghost use Rattle.c_operators.specs.Constants as spec;
ghost use Rattle.c_types.specs.declared.ty.Ty.{out-Ty};

use c_const::{as_char, complemented, computed, negated, truth};
use c_tree::{BinaryOperator, UnaryOperator};
use c_typed::Constant;
use c_types::Ty;

/// What a binary operator makes of two constants.
pub fn of_binary(operator: BinaryOperator, a: Constant, b: Constant) -> Constant
    ensures { result ≡ spec.of_binary operator a b }
{
    match operator {
        BinaryOperator::LogicalOr => of_or(a, b),
        BinaryOperator::LogicalAnd => of_and(a, b),
        _ => of_both(operator, a, b),
    }
}

/// What an operator that evaluates both operands makes of them.
fn of_both(operator: BinaryOperator, a: Constant, b: Constant) -> Constant
    ensures { result ≡ spec.of_both operator a b }
{
    match (a, b) {
        (Constant::Other, _) | (_, Constant::Other) => Constant::Other,
        (Constant::Divides, _) | (_, Constant::Divides) => Constant::Divides,
        (Constant::Value(x), Constant::Value(y)) => match computed(operator, x, y) {
            Some(value) => Constant::Value(value),
            None => Constant::Divides,
        },
    }
}

/// 1 where it isn't 0.
fn as_truth(c: Constant) -> Constant
    ensures { result ≡ spec.as_truth c }
{
    match c {
        Constant::Value(x) => Constant::Value(truth(x != 0)),
        other => other,
    }
}

/// What `&&` makes of two constants.
fn of_and(a: Constant, b: Constant) -> Constant
    ensures { result ≡ spec.of_and a b }
{
    match (a, b) {
        (Constant::Other, _) | (_, Constant::Other) => Constant::Other,
        (Constant::Divides, _) => Constant::Divides,
        (Constant::Value(0), _) => Constant::Value(0),
        (Constant::Value(_), b) => as_truth(b),
    }
}

/// What `||` makes of two constants.
fn of_or(a: Constant, b: Constant) -> Constant
    ensures { result ≡ spec.of_or a b }
{
    match (a, b) {
        (Constant::Other, _) | (_, Constant::Other) => Constant::Other,
        (Constant::Divides, _) => Constant::Divides,
        (Constant::Value(0), b) => as_truth(b),
        (Constant::Value(_), _) => Constant::Value(1),
    }
}

/// What a unary operator makes of a constant.
pub fn of_unary(operator: UnaryOperator, c: Constant) -> Constant
    ensures { result ≡ spec.of_unary operator c }
{
    match (operator, c) {
        (UnaryOperator::Address | UnaryOperator::Dereference, _) => Constant::Other,
        (UnaryOperator::Negate, Constant::Value(x)) => Constant::Value(negated(x)),
        (UnaryOperator::Complement, Constant::Value(x)) => Constant::Value(complemented(x)),
        (UnaryOperator::Not, Constant::Value(x)) => Constant::Value(truth(x == 0)),
        (_, other) => other,
    }
}

/// What `?:` makes of three constants: only the arm that is chosen is evaluated.
pub fn of_conditional(c: Constant, a: Constant, b: Constant) -> Constant
    ensures { result ≡ spec.of_conditional c a b }
{
    match (c, a, b) {
        (Constant::Other, _, _) | (_, Constant::Other, _) | (_, _, Constant::Other) => {
            Constant::Other
        }
        (Constant::Divides, _, _) => Constant::Divides,
        (Constant::Value(0), _, b) => b,
        (Constant::Value(_), a, _) => a,
    }
}

/// What a cast to this type makes of a constant.
pub fn of_cast(to: &Ty, c: Constant) -> Constant
    ensures { result ≡ spec.of_cast (out-Ty to.now) c }
{
    match (to, c) {
        (Ty::Int, c) => c,
        (Ty::Char, Constant::Value(x)) => Constant::Value(as_char(x)),
        (Ty::Char, other) => other,
        _ => Constant::Other,
    }
}
