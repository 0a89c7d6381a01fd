//! How operands are used.

ghost use Rattle.std.specs.Prelude.{◌≡◌, ◌+◌, ◌<◌, length, map};
ghost use Rattle.core_ir.specs.Flow.{Stands};
ghost use Rattle.safe_locals.specs.inner.Marks as spec;
ghost use Rattle.safe_locals.specs.inner.Marks.{AreJudged, AreMarks};

use crate::mark::Mark;
use crate::marks::mark_at;
use core_ir::{HasOutline, Role};

/// Whether an offset is inside of so many units.
fn is_inside(offset: i128, units: u32) -> bool
    ensures { result ≡ spec.is_inside offset units }
{
    0 <= offset && offset < i128::from(units)
}

/// Whether it is a number.
fn is_number(mark: Mark) -> bool
    ensures { result ≡ spec.is_number mark }
{
    matches!(mark, Mark::Number(_))
}

/// Whether the first operand of an instruction of this role moves an address by a constant, or
/// accesses a local of so many units inside.
fn is_harmless_first(marks: &[Mark], role: Role, offset: i128, units: u32) -> bool
    ensures { result ≡ spec.is_harmless_first marks.now role offset units }
{
    match role {
        Role::Shifted { .. } => true,
        Role::Indexed { i, .. } => is_number(mark_at(marks, i)),
        Role::Touch { .. } | Role::Load { .. } | Role::Store { .. } => is_inside(offset, units),
        _ => false,
    }
}

/// The same of any operand.
fn is_harmless(marks: &[Mark], role: Role, operand: usize, offset: i128, units: u32) -> bool
    ensures { result ≡ spec.is_harmless marks.now role operand offset units }
{
    operand == 0 && is_harmless_first(marks, role, offset, units)
}

/// Looks at an operand of the instruction at a place.
fn judge_operand<I: HasOutline>(
    safe: &mut [bool],
    units: &[u32],
    marks: &[Mark],
    code: &[I],
    place: usize,
    instr: &I,
    operand: usize,
)
    requires marks { AreMarks (map I.outline code.now) place marks.now }
    requires here { Stands (map I.outline code.now) 0 place (I.outline instr.now) }
    requires operand { operand < length (I.outline instr.now).used }
    requires judged { AreJudged (map I.outline code.now) units.now place operand safe.old }
    ensures { AreJudged (map I.outline code.now) units.now place (operand + 1) safe.new }
{
    if let Mark::Address { local, offset } = mark_at(marks, instr.operand(operand)) {
        let local = local as usize;
        if local < units.len() && !is_harmless(marks, instr.role(), operand, offset, units[local]) {
            safe[local] = false;
        }
    }
}

/// Looks at each operand of the instruction at a place.
pub(crate) fn judge<I: HasOutline>(
    safe: &mut [bool],
    units: &[u32],
    marks: &[Mark],
    code: &[I],
    place: usize,
    instr: &I,
)
    requires marks { AreMarks (map I.outline code.now) place marks.now }
    requires here { Stands (map I.outline code.now) 0 place (I.outline instr.now) }
    requires judged { AreJudged (map I.outline code.now) units.now place 0 safe.old }
    ensures { AreJudged (map I.outline code.now) units.now (place + 1) 0 safe.new }
{
    for operand in 0..instr.operands() {
        judge_operand(safe, units, marks, code, place, instr, operand);
    }
}
