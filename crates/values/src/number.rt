//! Numbers of 32 and of 64 bits, and what a kind has of a number.

ghost use Rattle.std.specs.Prelude.{◌≡◌};
ghost use Rattle.machine.specs.Numbers as spec;

use machine::ScalarKind;

/// A number modulo 2^32, which is what an address counts of it.
pub fn low_word(number: i64) -> u32
    ensures { result ≡ spec.low_word number }
{
    number.rem_euclid(1 << 32) as u32
}

/// What of a number a value of this kind has: a `char` one byte, a pointer 32 bits.
pub fn truncated(kind: ScalarKind, number: i64) -> i64
    ensures { result ≡ spec.truncated kind number }
{
    match kind {
        ScalarKind::Int => number,
        ScalarKind::Char => i64::from(low_word(number) % 256),
        ScalarKind::Regular | ScalarKind::Code | ScalarKind::Protected => {
            i64::from(low_word(number))
        }
    }
}

/// Whether values of this kind stand in the safe store.
pub fn is_kept(kind: ScalarKind) -> bool
    ensures { result ≡ spec.is_kept kind }
{
    match kind {
        ScalarKind::Code | ScalarKind::Protected => true,
        ScalarKind::Int | ScalarKind::Char | ScalarKind::Regular => false,
    }
}

/// How far an index of elements of so many units leads, modulo 2^32.
pub fn span(index: i64, units: u32) -> u32
    ensures { result ≡ spec.span index units }
{
    low_word(index).wrapping_mul(units)
}
