//! The code of a function.

ghost use Rattle.std.specs.Prelude.{◌≡◌, IfOk, length, map};
ghost use Rattle.core_ir.specs.Valid.{IsValidFunction};
ghost use Rattle.safe_locals.specs.Safe.{AreSafe};
ghost use Rattle.instrument.specs.inner.Places.{StandsBy};

use crate::body::places;
use crate::copies::copy_function;
use crate::locals::code_locals;
use core_ir::{Function, Program};
use icode::{standing_locals_are_locals, units_of_safe};
use machine::CodeFunction;
use sensitivity::ClassTable;
use std::alloc::{AllocError, Global};

/// The code of a function, of whose locals `safe` tells the safe ones.
pub(crate) fn function_code(
    alloc: Global,
    classes: &ClassTable,
    program: &Program,
    function: &Function,
    safe: &[bool],
) -> Result<CodeFunction, AllocError>
    requires valid { IsValidFunction program.now function.now }
    requires safe { AreSafe function.now safe.now }
    ensures { IfOk result (λ code. StandsBy program.now classes.now function.now code) }
{
    standing_locals_are_locals();
    let locals = code_locals(alloc, function, safe)?;
    let body = places(alloc, classes, program, function, locals.as_slice())?;
    let ty = copy_function(alloc, &function.ty)?;
    Ok(CodeFunction {
        ty,
        registers: function.registers,
        slots: function.slots,
        safe_units: units_of_safe(locals.as_slice()),
        locals,
        frame_units: function.frame_units,
        body,
    })
}
