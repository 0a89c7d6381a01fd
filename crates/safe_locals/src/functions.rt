//! The safe frame locals of a program's functions.

ghost use Rattle.std.specs.Prelude.{◌≡◌, ◌<◌, IfOk, IfSome, length, map, slice_get};
ghost use Rattle.core_ir.specs.Valid.{IsValid, IsValidFunction};
ghost use Rattle.safe_locals.specs.AtLocals.{AreAtSafe};
ghost use Rattle.safe_locals.specs.Safe.{AreAllSafe, AreSafe};

use crate::at_each::at_locals;
use crate::body::safe_in;
use core_ir::{Function, Local, Program};
use sqlite_items::Items;
use std::alloc::{AllocError, Global};

/// For each function which of its frame locals are safe.
pub type SafeTable = Items<Items<bool>>;

/// The units of locals.
fn units_of(alloc: Global, locals: &[Local]) -> Result<Items<u32>, AllocError>
    ensures { IfOk result (λ units. units ≡ map (λ v. v.units) locals.now) }
{
    let mut units = Items::new(alloc);
    for local in locals {
        units.push(local.units)?;
    }
    Ok(units)
}

/// Which frame locals of a function are safe.
fn safe_of(alloc: Global, program: &Program, function: &Function) -> Result<Items<bool>, AllocError>
    requires { IsValidFunction program.now function.now }
    ensures { IfOk result (λ safe. AreSafe function.now safe) }
{
    let units = units_of(alloc, function.locals.as_slice())?;
    let body = function.body.as_slice();
    let safe = safe_in(alloc, body, units.as_slice())?;
    Ok(safe)
}

/// Which frame locals of a function of a valid program are safe.
///
/// # Errors
///
/// `AllocError`, where no memory is left.
pub fn safe(alloc: Global, program: &Program, f: u32) -> Result<Items<bool>, AllocError>
    requires valid { IsValid program.now }
    requires within { f < length program.now.functions }
    ensures { IfOk result (λ safe. IfSome (slice_get program.now.functions f)
        (λ function. AreSafe function safe)) }
{
    let safe = safe_of(alloc, program, &program.functions.as_slice()[f as usize])?;
    Ok(safe)
}

/// Which frame locals of each function of a valid program are safe.
///
/// # Errors
///
/// `AllocError`, where no memory is left.
pub fn safe_all(alloc: Global, program: &Program) -> Result<SafeTable, AllocError>
    requires { IsValid program.now }
    ensures { IfOk result (λ table. AreAllSafe program.now table) }
{
    let mut table = Items::new(alloc);
    for function in program.functions.as_slice() {
        table.push(safe_of(alloc, program, function)?)?;
    }
    Ok(table)
}

/// Which instructions of a function are at its safe locals, of which `safe` tells.
fn at_safe_of(
    alloc: Global,
    program: &Program,
    function: &Function,
    safe: &[bool],
) -> Result<Items<bool>, AllocError>
    requires valid { IsValidFunction program.now function.now }
    requires safe { AreSafe function.now safe.now }
    ensures { IfOk result (λ at. AreAtSafe function.now at) }
{
    let body = function.body.as_slice();
    let at = at_locals(alloc, body, safe)?;
    Ok(at)
}

/// Which instructions of a function of a valid program are at its safe locals, of which `safe`
/// tells: an address of one serves their first operand.
///
/// # Errors
///
/// `AllocError`, where no memory is left.
pub fn at_safe(
    alloc: Global,
    program: &Program,
    f: u32,
    safe: &[bool],
) -> Result<Items<bool>, AllocError>
    requires valid { IsValid program.now }
    requires within { f < length program.now.functions }
    requires safe { IfSome (slice_get program.now.functions f)
        (λ function. AreSafe function safe.now) }
    ensures { IfOk result (λ at. IfSome (slice_get program.now.functions f)
        (λ function. AreAtSafe function at)) }
{
    let at = at_safe_of(
        alloc,
        program,
        &program.functions.as_slice()[f as usize],
        safe,
    )?;
    Ok(at)
}
