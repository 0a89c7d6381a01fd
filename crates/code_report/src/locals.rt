//! The lines of frame locals.

ghost use Rattle.std.specs.Prelude.{◌≡◌, ◌+◌, ◌≤◌, false, List, [], ◌∷◌, IfOk, OnOk, length, slice_index_or};
ghost use Rattle.c_typed.specs.declared.unit.Local.{Local as Variable};
ghost use Rattle.safe_locals.specs.Safe.{AreSafe};
ghost use Rattle.code_report.specs.Names.{frame_names};
ghost use Rattle.code_report.specs.Report.{LocalLines};
ghost use Rattle.code_report.specs.inner.Appending.{Adds, LocalLinesFrom, Passes};

use crate::lines::push_local;
use crate::names::is_slot_local;
use c_typed::Local;
use core_ir::Function;
use std::alloc::AllocError;

/// Appends the line of a variable, where that is a frame local, which is then number `v`, and tells
/// the number of the next one.
fn push_variable(
    text: &mut Vec<u8>,
    v: usize,
    function: &Function,
    safe: &[bool],
    variable: &Local,
) -> Result<usize, AllocError>
    requires safe { AreSafe function.now safe.now }
    requires within { v + length (frame_names (variable.now ∷ [])) ≤ length function.now.locals }
    ensures { IfOk result (λ next. (vs : List Variable) →
        Passes (LocalLinesFrom function.now) v (frame_names (variable.now ∷ vs)) next (frame_names vs)
        text.old.items text.new.items) }
{
    if is_slot_local(variable) {
        return Ok(v);
    }
    push_local(text, variable.name.bytes(), safe[v])?;
    Ok(v + 1)
}

/// Appends the line of each frame local among the variables of a function.
pub(crate) fn push_locals(
    text: &mut Vec<u8>,
    function: &Function,
    safe: &[bool],
    variables: &[Local],
) -> Result<(), AllocError>
    requires safe { AreSafe function.now safe.now }
    requires each { length (frame_names variables.now) ≡ length function.now.locals }
    ensures { OnOk result (Adds (LocalLines function.now 0 (frame_names variables.now) function.now.locals)
        text.old.items text.new.items) }
{
    let mut v = 0;
    for variable in variables {
        v = push_variable(text, v, function, safe, variable)?;
    }
    Ok(())
}
