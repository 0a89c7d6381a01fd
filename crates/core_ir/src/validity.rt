//! Whether a program is valid.

ghost use Rattle.std.specs.Prelude.{◌≡◌, ◌+◌, ◌<◌, ◌≤◌, ◌↔◌, ℕ, All, IsTrue, length, map};
ghost use Rattle.core_ir.specs.Instructions.{outline_of};
ghost use Rattle.core_ir.specs.Order.{IsWellFormed};
ghost use Rattle.core_ir.specs.Valid.{HasEntry, HasGlobals, IsLaidOut, IsValid, IsValidFunction, IsWithinLimits, has_locals};

use crate::checker::BodyChecker;
use crate::found::MOST_STRUCTS;
use crate::jumps::MOST_INSTRUCTIONS;
use crate::layout::{units_of_globals, units_of_locals};
use crate::program::{Function, Program};
use crate::range::are_in_range;
use crate::registers::MOST_REGISTERS;
use crate::touch::touches_fit;
use c_types::{StructTable, function_names_below, tables_are_sound};

const MOST_PARAMETERS: usize = 8;

const MOST_SLOTS: u32 = 1_024;

const MOST_FRAME_UNITS: u32 = 16_384;

const MOST_FUNCTIONS: usize = 4_096;

const MOST_GLOBAL_UNITS: u64 = 65_536;

/// Whether the counts of a function are within their limits.
fn is_within_limits(function: &Function) -> bool
    ensures { IsTrue result ↔ IsWithinLimits function.now }
{
    let parameters = function.ty.params.len();
    if parameters > MOST_PARAMETERS || parameters > function.slots as usize {
        return false;
    }
    if function.slots > MOST_SLOTS || function.frame_units > MOST_FRAME_UNITS {
        return false;
    }
    function.body.len() <= MOST_INSTRUCTIONS && function.registers as usize <= MOST_REGISTERS
}

/// Whether the frame of a function is its locals, one behind the other.
fn is_laid_out(structs: &StructTable, function: &Function) -> bool
    ensures { IsTrue result ↔ IsLaidOut structs.now function.now }
{
    match units_of_locals(structs, function.locals.as_slice()) {
        Some(units) => units == u64::from(function.frame_units),
        None => false,
    }
}

/// Whether the body of a function is well formed.
fn is_well_formed(function: &Function, checker: &mut BodyChecker) -> bool
    requires { IsWithinLimits function.now }
    ensures { let f = function.now in
        IsTrue result ↔ IsWellFormed f.registers f.slots (has_locals f) (map outline_of f.body) }
{
    let has_frame = function.locals.len() > 0;
    checker.is_well_formed(
        function.body.as_slice(),
        function.registers,
        function.slots,
        has_frame,
    )
}

/// Whether a function is valid.
fn is_valid_function(program: &Program, function: &Function, checker: &mut BodyChecker) -> bool
    requires { length program.now.structs ≤ 1024 }
    ensures { IsTrue result ↔ IsValidFunction program.now function.now }
{
    if !is_within_limits(function) {
        return false;
    }
    if !function_names_below(program.structs.len(), &function.ty) {
        return false;
    }
    if !is_laid_out(&program.structs, function) {
        return false;
    }
    if !are_in_range(program, function) {
        return false;
    }
    if !is_well_formed(function, checker) {
        return false;
    }
    touches_fit(&program.structs, function.body.as_slice())
}

/// Whether each function is valid.
fn are_valid_functions(program: &Program) -> bool
    requires { length program.now.structs ≤ 1024 }
    ensures { IsTrue result ↔ All (IsValidFunction program.now) program.now.functions }
{
    let mut checker = BodyChecker::new();
    for function in program.functions.as_slice() {
        if !is_valid_function(program, function, &mut checker) {
            return false;
        }
    }
    true
}

/// Whether the entry function exists and has no parameters.
fn has_entry(program: &Program) -> bool
    ensures { IsTrue result ↔ HasEntry program.now }
{
    match program.functions.get(program.entry as usize) {
        Some(entry) => entry.ty.params.is_empty(),
        None => false,
    }
}

/// Whether globals follow one another, within their limit.
fn has_globals(program: &Program) -> bool
    ensures { IsTrue result ↔ HasGlobals program.now }
{
    match units_of_globals(&program.structs, program.globals.as_slice()) {
        Some(units) => units <= MOST_GLOBAL_UNITS,
        None => false,
    }
}

/// Whether a program is valid. It goes over each body a fixed number of times, and takes no memory but its
/// stack, of which it takes about a megabyte.
pub fn valid(program: &Program) -> bool
    ensures { IsTrue result ↔ IsValid program.now }
{
    tables_are_sound(&program.structs);
    if program.functions.len() > MOST_FUNCTIONS || program.structs.len() as usize > MOST_STRUCTS {
        return false;
    }
    if !has_entry(program) {
        return false;
    }
    if !has_globals(program) {
        return false;
    }
    are_valid_functions(program)
}
