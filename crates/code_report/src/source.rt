//! The report on a source.

ghost use Rattle.std.specs.Prelude.{◌≡◌, IfOk};
ghost use Rattle.core_ir.specs.Valid.{IsValid};
ghost use Rattle.elab_pieces.specs.Program.{program_of};
ghost use Rattle.safe_locals.specs.Safe.{AreAllSafe};
ghost use Rattle.sensitivity.specs.Classes.{AreClasses};
ghost use Rattle.code_report.specs.Report.{IsReport};

use crate::definitions::push_functions;
use crate::globals::push_globals;
use crate::structs::push_structs;
use c_typed::Typed;
use core_ir::Program;
use safe_locals::SafeTable;
use sensitivity::ClassTable;
use std::alloc::{AllocError, Global};

/// The report on a source, by its program and that program's own tables of classes and of safe
/// locals. It goes over each body twice.
///
/// # Errors
///
/// `AllocError`, where no memory is left.
pub fn report(
    alloc: Global,
    typed: &Typed,
    program: &Program,
    classes: &ClassTable,
    safe: &SafeTable,
) -> Result<Vec<u8>, AllocError>
    requires valid { IsValid program.now }
    requires program { program.now ≡ program_of typed.now }
    requires classes { AreClasses program.now.structs classes.now }
    requires safe { AreAllSafe program.now safe.now }
    ensures { IfOk result (λ text. IsReport typed.now program.now text.items) }
{
    let items = typed.items.as_slice();
    let mut text = Vec::new(alloc);
    push_structs(&mut text, &program.structs, classes)?;
    push_globals(&mut text, program.globals.as_slice(), items)?;
    push_functions(alloc, &mut text, program, classes, safe, items)?;
    Ok(text)
}
