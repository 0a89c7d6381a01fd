//! Whether the locals of a function of code are its frame, and their units.

ghost use Rattle.std.specs.Prelude.{◌≡◌, ◌+◌, ◌≤◌, ◌^◌, ◌↔◌, ◌<◌, ℕ, IfSome, IsTrue, None, Some, length, slice_get, slice_index, take};
ghost use Rattle.machine.specs.Stands.{safe_units};
ghost use Rattle.machine.specs.ValidCode.{CodeLocalsLie, code_local_units};
ghost use Rattle.machine.specs.declared.code.CodeLocal.{CodeLocal};
ghost use Rattle.icode.specs.inner.Locals.{AreFramed, AreUnits, AreUnitsBefore};
ghost use Rattle.icode.specs.inner.Locals as spec;

use machine::{CodeFunction, CodeLocal};

/// As many locals as a frame may have, since each has a unit.
pub(crate) const MOST_LOCALS: usize = 16_384;

/// The units of a local on the safe stack.
fn safe_part(local: &CodeLocal) -> u32
    ensures { result ≡ spec.safe_part local.now }
{
    if local.safe { local.units } else { 0 }
}

/// The sum of the units of locals that follow one another from offset 0 on and have at least one
/// unit each, and none where they don't.
fn units_of_locals(locals: &[CodeLocal]) -> Option<u64>
    ensures some { IfSome result
        (λ n. CodeLocalsLie 0 locals.now × (n ≡ code_local_units locals.now)) }
    ensures none { result ≡ None → CodeLocalsLie 0 locals.now → ⊥ }
{
    let mut offset = 0;
    for local in locals {
        if local.units == 0 || u64::from(local.offset) != offset {
            return None;
        }
        offset = u64::from(local.offset) + u64::from(local.units);
    }
    Some(offset)
}

/// The units of the safe ones among locals.
pub fn units_of_safe(locals: &[CodeLocal]) -> u32
    requires { code_local_units locals.now ≤ 16384 }
    ensures { result ≡ safe_units locals.now }
{
    let mut units = 0;
    for local in locals {
        units += safe_part(local);
    }
    units
}

/// Whether the frame of a function is its locals, one behind the other.
fn is_laid_out(function: &CodeFunction) -> bool
    ensures { IsTrue result ↔ CodeLocalsLie 0 function.now.locals
        × (function.now.frame_units ≡ code_local_units function.now.locals) }
{
    match units_of_locals(function.locals.as_slice()) {
        Some(units) => units == u64::from(function.frame_units),
        None => false,
    }
}

/// Whether the frame of a function is its locals, one behind the other, and its safe units are those
/// of its safe locals.
pub(crate) fn is_framed(function: &CodeFunction) -> bool
    requires { function.now.frame_units ≤ 16384 }
    ensures { IsTrue result ↔ AreFramed function.now }
{
    if !is_laid_out(function) {
        return false;
    }
    units_of_safe(function.locals.as_slice()) == function.safe_units
}

/// Writes the units of each local.
pub(crate) fn write_units(locals: &[CodeLocal], units: &mut [u32])
    requires { length locals.now ≤ length units.old }
    ensures { AreUnits locals.now units.new }
{
    for (number, local) in locals.iter().enumerate() {
        units[number] = local.units;
    }
}

/// Writes the units of the safe ones before each local.
pub(crate) fn write_units_before(locals: &[CodeLocal], before: &mut [u32])
    requires room { length locals.now ≤ length before.old }
    requires few { code_local_units locals.now ≤ 16384 }
    ensures { AreUnitsBefore locals.now before.new }
{
    let mut units = 0;
    for (number, local) in locals.iter().enumerate() {
        before[number] = units;
        units += safe_part(local);
    }
}
