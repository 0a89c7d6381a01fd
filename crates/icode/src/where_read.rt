//! Where the pointer of an indirect call is read.

ghost use Rattle.std.specs.Prelude.{◌≡◌, ℕ, map, None, Some};
ghost use Rattle.core_ir.specs.Order.{RoleFits};
ghost use Rattle.machine.specs.Stands.{IsOriginOf};
ghost use Rattle.safe_locals.specs.Known.{Knows};
ghost use Rattle.icode.specs.inner.Sites as spec;

use core_ir::{HasOutline, Role};
use machine::Origin;
use safe_locals::Marks;

/// Where an instruction of this role reads.
fn read_by(role: Role) -> Origin
    ensures { result ≡ spec.read_by role }
{
    match role {
        Role::Load { p } => Origin::Register(p),
        Role::Slot { s } => Origin::Slot(s),
        _ => Origin::Slot(0),
    }
}

/// Where the instruction at a place reads.
fn read_at<I: HasOutline>(code: &[I], place: u32) -> Origin
    ensures { result ≡ spec.read_at (map I.outline code.now) place }
{
    match code.get(place as usize) {
        Some(instr) => read_by(instr.role()),
        None => Origin::Slot(0),
    }
}

/// Where the pointer in a register is read.
fn origin_in<I: HasOutline>(marks: &Marks, code: &[I], register: u32) -> Origin
    ensures { (u : ℕ) → Knows (map I.outline code.now) u marks.now
        → spec.IsReadFrom (map I.outline code.now) u register result }
{
    match marks.first(register) {
        Some(first) => read_at(code, first),
        None => Origin::Slot(0),
    }
}

/// Where an instruction of this role at a place has its pointer from, if it is an indirect call.
pub(crate) fn origin_of<I: HasOutline>(
    marks: &Marks,
    code: &[I],
    place: usize,
    role: Role,
) -> Origin
    requires known { Knows (map I.outline code.now) place marks.now }
    requires fits { RoleFits (map I.outline code.now) place role }
    ensures { spec.IsOnlyOrigin (map I.outline code.now) place role result }
{
    match role {
        Role::Indirect { c } => origin_in(marks, code, c),
        _ => Origin::Slot(0),
    }
}
