//! Values: their numbers and entries, and the rules by which they are made.

ghost use Rattle.std.specs.Prelude.{◌≡◌, ◌+◌, ◌<◌, ◌^◌};
ghost use Rattle.machine.specs.Numbers as number;
ghost use Rattle.machine.specs.Values as spec;

use super::number::{is_kept, low_word, truncated};
use machine::ScalarKind;
use meaning::{Entry, Value};

/// The number of function 0 as a word. That of function `f` is `f` more.
const FIRST_CODE: i64 = 67_108_864;

/// A value's number.
pub fn number_of(value: Value) -> i64
    ensures { result ≡ spec.number_of value }
{
    match value {
        Value::Bare(number) => number,
        Value::Based { value, .. } => i64::from(value),
        Value::Code(function) => FIRST_CODE + i64::from(function),
    }
}

/// The address that a value stands for.
pub fn address_of(value: Value) -> u32
    ensures { result ≡ spec.address_of value }
{
    low_word(number_of(value))
}

/// What a value is in the safe store.
pub fn entry_of(value: Value) -> Entry
    ensures { result ≡ spec.entry_of value }
{
    match value {
        Value::Bare(number) => Entry::Bare(low_word(number)),
        Value::Based {
            value,
            lower,
            upper,
            id,
        } => Entry::Based {
            value,
            lower,
            upper,
            id,
        },
        Value::Code(function) => Entry::Code(function),
    }
}

/// The value for which an entry stands.
pub fn value_of(entry: Entry) -> Value
    ensures { result ≡ spec.value_of entry }
{
    match entry {
        Entry::Bare(number) => Value::Bare(i64::from(number)),
        Entry::Based {
            value,
            lower,
            upper,
            id,
        } => Value::Based {
            value,
            lower,
            upper,
            id,
        },
        Entry::Code(function) => Value::Code(function),
    }
}

/// What a load from the safe store gives: the null pointer where nothing was put.
pub fn loaded_entry(found: Option<Entry>) -> Value
    ensures { result ≡ spec.loaded_entry found }
{
    match found {
        None => Value::Bare(0),
        Some(entry) => value_of(entry),
    }
}

/// The address of so many units from `first` on, with their bounds where pointers to them keep these.
pub fn object_address(first: u32, units: u32, id: u32, kept: bool) -> Value
    requires { first + units < 2 ^ 32 }
    ensures { result ≡ spec.object_address first units id kept }
{
    if kept {
        Value::Based {
            value: first,
            lower: first,
            upper: first + units,
            id,
        }
    } else {
        Value::Bare(i64::from(first))
    }
}

/// A number so many units further, modulo 2^32.
fn moved_number(number: i64, by: u32) -> u32
    ensures { result ≡ spec.moved_number number by }
{
    low_word(number).wrapping_add(by)
}

/// A pointer so many units further: one with bounds keeps them, and a function stays one only where
/// its number doesn't change.
pub fn moved_value(value: Value, by: u32) -> Value
    ensures { result ≡ spec.moved_value value by }
{
    match value {
        Value::Bare(number) => Value::Bare(i64::from(moved_number(number, by))),
        Value::Based {
            value,
            lower,
            upper,
            id,
        } => Value::Based {
            value: moved_number(i64::from(value), by),
            lower,
            upper,
            id,
        },
        Value::Code(function) => moved_function(function, by),
    }
}

/// A function so many units further.
fn moved_function(function: u32, by: u32) -> Value
    ensures { result ≡ spec.moved_value (Value.Code function) by }
{
    let number = FIRST_CODE + i64::from(function);
    let moved = i64::from(moved_number(number, by));
    if moved == number {
        Value::Code(function)
    } else {
        Value::Bare(moved)
    }
}

/// A value in another kind: one that both kinds keep in the safe store stays, and each other
/// conversion gives a number.
pub fn cast_value(from: ScalarKind, to: ScalarKind, value: Value) -> Value
    ensures { result ≡ spec.cast_value from to value }
{
    if is_kept(from) && is_kept(to) {
        value
    } else {
        Value::Bare(truncated(to, number_of(value)))
    }
}

/// What a load of this kind gives of a value.
pub fn loaded_value(kind: ScalarKind, value: Value) -> Value
    ensures { result ≡ spec.loaded_value kind value }
{
    if is_kept(kind) {
        value
    } else {
        Value::Bare(truncated(kind, number_of(value)))
    }
}

/// The function that a record names where this value is written to a safe place.
pub fn told_function(value: Value) -> Option<u32>
    ensures { result ≡ spec.told_function value }
{
    match value {
        Value::Code(function) => Some(function),
        _ => None,
    }
}
