//! The code of a program.

ghost use Rattle.std.specs.Prelude.{◌≡◌, IfOk, length};
ghost use Rattle.core_ir.specs.Valid.{IsValid};
ghost use Rattle.machine.specs.Stands.{Stands};
ghost use Rattle.machine.specs.ValidCode.{ValidCode};
ghost use Rattle.safe_locals.specs.Safe.{AreAllSafe};
ghost use Rattle.sensitivity.specs.Classes.{AreClasses};
ghost use Rattle.instrument.specs.inner.Places.{AreStanding};

use crate::function::function_code;
use core_ir::Program;
use icode::standing_code_is_valid;
use machine::{Code, CodeFunctionList};
use safe_locals::SafeTable;
use sensitivity::{ClassTable, types_have_classes};
use sqlite_items::Items;
use std::alloc::{AllocError, Global};

/// The code of the functions of a program.
fn functions_code(
    alloc: Global,
    program: &Program,
    classes: &ClassTable,
    safe: &SafeTable,
) -> Result<CodeFunctionList, AllocError>
    requires valid { IsValid program.now }
    requires safe { AreAllSafe program.now safe.now }
    ensures { let p = program.now in
        IfOk result (AreStanding p classes.now (length p.functions)) }
{
    let mut functions = Items::new(alloc);
    for (number, function) in program.functions.as_slice().iter().enumerate() {
        let safe = safe.as_slice()[number].as_slice();
        functions.push(function_code(alloc, classes, program, function, safe)?)?;
    }
    Ok(functions)
}

/// The code that stands for a valid program, by the classes of its types and the safe locals of its
/// functions. It goes over each body once.
///
/// # Errors
///
/// `AllocError`, where no memory is left.
pub fn instrument(
    alloc: Global,
    program: &Program,
    classes: &ClassTable,
    safe: &SafeTable,
) -> Result<Code, AllocError>
    requires valid { IsValid program.now }
    requires classes { AreClasses program.now.structs classes.now }
    requires safe { AreAllSafe program.now safe.now }
    ensures stands { IfOk result (λ code. Stands code program.now) }
    ensures valid { IfOk result (λ code. ValidCode code) }
{
    types_have_classes();
    standing_code_is_valid();
    let functions = functions_code(alloc, program, classes, safe)?;
    Ok(Code {
        functions,
        entry: program.entry,
    })
}
