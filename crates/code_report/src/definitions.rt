//! The lines of functions.

ghost use Rattle.std.specs.Prelude.{◌<◌, ◌≡◌, List, [], ◌∷◌, IfOk, IfSome, OnOk, length, slice_get};
ghost use Rattle.c_typed.specs.declared.unit.TypedItem.{TypedItem as Item};
ghost use Rattle.core_ir.specs.Valid.{IsValid};
ghost use Rattle.elab_pieces.specs.Program.{definitions};
ghost use Rattle.safe_locals.specs.Safe.{AreAllSafe};
ghost use Rattle.sensitivity.specs.Classes.{AreClasses};
ghost use Rattle.code_report.specs.Report.{DefinitionLines, FunctionLines};
ghost use Rattle.code_report.specs.inner.Appending.{Adds, FunctionLinesFrom, HasFunction, HaveFunctions, IsDefined, Passes};

use crate::checks::checks_of;
use crate::lines::push_function;
use crate::locals::push_locals;
use crate::names::name_of;
use c_typed::{TypedFn, TypedItem};
use core_ir::Program;
use safe_locals::{SafeTable, at_safe};
use sensitivity::ClassTable;
use std::alloc::{AllocError, Global};

/// Appends the line of a definition, which is function `f`, and those of its frame locals.
fn push_definition(
    alloc: Global,
    text: &mut Vec<u8>,
    program: &Program,
    classes: &ClassTable,
    safe: &SafeTable,
    f: u32,
    definition: &TypedFn,
) -> Result<(), AllocError>
    requires valid { IsValid program.now }
    requires classes { AreClasses program.now.structs classes.now }
    requires safe { AreAllSafe program.now safe.now }
    requires has { HasFunction program.now.functions f definition.now }
    ensures { OnOk result (IfSome (slice_get program.now.functions f)
        (λ function. Adds (DefinitionLines program.now.structs f definition.now function)
        text.old.items text.new.items)) }
{
    let function = &program.functions.as_slice()[f as usize];
    let safe = safe.as_slice()[f as usize].as_slice();
    let at = at_safe(alloc, program, f, safe)?;
    let checks = checks_of(classes, function, at.as_slice());
    let name = name_of(&definition.declared.declarator);
    push_function(text, f, name.bytes(), function.body.len() as u32, checks)?;
    push_locals(text, function, safe, definition.locals.as_slice())
}

/// Appends the lines of the function that an item defines, if it defines one, which is then number
/// `f`, and tells the number of the next one.
fn push_item(
    alloc: Global,
    text: &mut Vec<u8>,
    program: &Program,
    classes: &ClassTable,
    safe: &SafeTable,
    f: u32,
    item: &TypedItem,
) -> Result<u32, AllocError>
    requires valid { IsValid program.now }
    requires classes { AreClasses program.now.structs classes.now }
    requires safe { AreAllSafe program.now safe.now }
    requires has { IsDefined program.now.functions f item.now }
    ensures { IfOk result (λ next. (is : List Item) →
        Passes (FunctionLinesFrom program.now) f (definitions (item.now ∷ is)) next (definitions is)
        text.old.items text.new.items) }
{
    match item {
        TypedItem::Function(definition) => {
            push_definition(alloc, text, program, classes, safe, f, definition)?;
            Ok(f + 1)
        }
        TypedItem::Decl(_) => Ok(f),
        TypedItem::Typedef(_, _) => Ok(f),
    }
}

/// Appends the lines of the functions that the items define, in order.
pub(crate) fn push_functions(
    alloc: Global,
    text: &mut Vec<u8>,
    program: &Program,
    classes: &ClassTable,
    safe: &SafeTable,
    items: &[TypedItem],
) -> Result<(), AllocError>
    requires valid { IsValid program.now }
    requires classes { AreClasses program.now.structs classes.now }
    requires safe { AreAllSafe program.now safe.now }
    requires have { HaveFunctions (definitions items.now) program.now.functions }
    ensures { OnOk result (Adds
        (FunctionLines program.now.structs 0 (definitions items.now) program.now.functions)
        text.old.items text.new.items) }
{
    let mut f = 0;
    for item in items {
        f = push_item(alloc, text, program, classes, safe, f, item)?;
    }
    Ok(())
}
