//! Whether code is valid.

ghost use Rattle.std.specs.Prelude.{◌≡◌, ◌≤◌, ◌↔◌, ℕ, All, IsTrue, Some, length, map, nat_lt, slice_get};
ghost use Rattle.core_ir.specs.Order.{IsWellFormed};
ghost use Rattle.machine.specs.Outlines.{outline_of_code};
ghost use Rattle.machine.specs.ValidCode.{AreMarked, CodeFits, CodeHasEntry, CodeIsWithinLimits, IsValidCodeFunction, SaysWhere, TouchesAreSensitive, ValidCode};
ghost use Rattle.machine.specs.declared.code.CodePlace.{CodePlace};
ghost use Rattle.icode.specs.inner.Locals.{AreFramed};
ghost use Rattle.icode.specs.inner.Valid.{HasGoodPlaces, HasGoodShape};

use crate::limits::is_within_limits;
use crate::locals::is_framed;
use crate::marked::are_marked;
use crate::range::are_in_range;
use crate::says::places_say_where;
use crate::touches::touches_are_sensitive;
use core_ir::BodyChecker;
use machine::{Code, CodeFunction};

const MOST_FUNCTIONS: usize = 4_096;

/// Whether the body of a function is well formed.
fn is_well_formed(function: &CodeFunction, checker: &mut BodyChecker) -> bool
    requires { CodeIsWithinLimits function.now }
    ensures { let f = function.now in
        IsTrue result
        ↔ IsWellFormed f.registers f.slots (nat_lt 0 (length f.locals)) (map outline_of_code f.body) }
{
    let has_frame = function.locals.len() > 0;
    checker.is_well_formed(
        function.body.as_slice(),
        function.registers,
        function.slots,
        has_frame,
    )
}

/// Whether the counts, the frame, the numbers and the order of a function are as they should.
fn has_good_shape(code: &Code, function: &CodeFunction, checker: &mut BodyChecker) -> bool
    ensures { IsTrue result ↔ HasGoodShape code.now function.now }
{
    if !is_within_limits(function) {
        return false;
    }
    if !is_framed(function) {
        return false;
    }
    if !are_in_range(code, function) {
        return false;
    }
    is_well_formed(function, checker)
}

/// Whether what its places say of locals and addresses holds.
fn has_good_places(code: &Code, function: &CodeFunction) -> bool
    requires { HasGoodShape code.now function.now }
    ensures { IsTrue result ↔ HasGoodPlaces function.now }
{
    if !are_marked(function) {
        return false;
    }
    if !touches_are_sensitive(function.body.as_slice()) {
        return false;
    }
    places_say_where(function)
}

/// Whether a function is valid.
fn is_valid_function(code: &Code, function: &CodeFunction, checker: &mut BodyChecker) -> bool
    ensures { IsTrue result ↔ IsValidCodeFunction code.now function.now }
{
    has_good_shape(code, function, checker) && has_good_places(code, function)
}

/// Whether each function is valid.
fn are_valid_functions(code: &Code) -> bool
    ensures { IsTrue result ↔ All (IsValidCodeFunction code.now) code.now.functions }
{
    let mut checker = BodyChecker::new();
    for function in code.functions.as_slice() {
        if !is_valid_function(code, function, &mut checker) {
            return false;
        }
    }
    true
}

/// Whether the entry function exists and has no parameters.
fn has_entry(code: &Code) -> bool
    ensures { IsTrue result ↔ CodeHasEntry code.now }
{
    match code.functions.get(code.entry as usize) {
        Some(entry) => entry.ty.params.is_empty(),
        None => false,
    }
}

/// Whether code is valid. It goes over each body a fixed number of times, and takes no memory but
/// its stack, of which it takes somewhat more than a megabyte.
pub fn valid_code(code: &Code) -> bool
    ensures { IsTrue result ↔ ValidCode code.now }
{
    if code.functions.len() > MOST_FUNCTIONS {
        return false;
    }
    if !has_entry(code) {
        return false;
    }
    are_valid_functions(code)
}
