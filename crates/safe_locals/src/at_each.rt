//! Which instructions are at locals.

ghost use Rattle.std.specs.Prelude.{◌≡◌, ◌<◌, ◌≤◌, ◌↔◌, ℕ, IfOk, IfSome, IsTrue, length, map};
ghost use Rattle.core_ir.specs.Outline.{Outline};
ghost use Rattle.core_ir.specs.Flow.{Stands};
ghost use Rattle.safe_locals.specs.AtLocals.{AreAt, HasYes, IsAt};
ghost use Rattle.safe_locals.specs.inner.Marks as spec;
ghost use Rattle.safe_locals.specs.inner.Marks.{AreMarks};

use crate::mark::Mark;
use crate::marks::{Marks, mark_at};
use core_ir::HasOutline;
use sqlite_items::Items;
use std::alloc::{AllocError, Global};

/// Whether a mark is an address of a local that has a yes.
fn is_of(locals: &[bool], mark: Mark) -> bool
    ensures { result ≡ spec.is_of locals.now mark }
{
    match mark {
        Mark::Address { local, .. } => match locals.get(local as usize) {
            Some(yes) => *yes,
            None => false,
        },
        _ => false,
    }
}

/// Whether the first operand of the instruction at a place is such an address.
fn is_at<I: HasOutline>(
    locals: &[bool],
    marks: &[Mark],
    code: &[I],
    place: usize,
    instr: &I,
) -> bool
    requires marks { AreMarks (map I.outline code.now) place marks.now }
    requires here { Stands (map I.outline code.now) 0 place (I.outline instr.now) }
    ensures { IsTrue result ↔ IsAt (map I.outline code.now) (HasYes locals.now) place }
{
    if instr.operands() == 0 {
        return false;
    }
    is_of(locals, mark_at(marks, instr.operand(0)))
}

/// Which instructions of a body are at locals that have a yes: an address of one serves their first
/// operand. It goes over the body once.
///
/// # Errors
///
/// `AllocError`, where no memory is left.
pub fn at_locals<I: HasOutline>(
    alloc: Global,
    code: &[I],
    locals: &[bool],
) -> Result<Items<bool>, AllocError>
    requires few { length code.now ≤ 65536 }
    requires defined { (u : ℕ) (i : Outline) → Stands (map I.outline code.now) 0 u i
        → IfSome i.defined (λ d. d < 1024) }
    ensures { IfOk result (λ at. AreAt (map I.outline code.now) locals.now at) }
{
    let mut marks = Marks::new();
    let mut at = Items::new(alloc);
    for (place, instr) in code.iter().enumerate() {
        at.push(is_at(locals, &marks.marks, code, place, instr))?;
        marks.pass(code, place, instr);
    }
    Ok(at)
}
