//! Whether just those locals of a function of code are marked that are safe.

ghost use Rattle.std.specs.Prelude.{◌≡◌, ◌≤◌, ◌↔◌, ℕ, IsTrue, Some, length, map, slice_get};
ghost use Rattle.core_ir.specs.SafeLocal.{IsSafe};
ghost use Rattle.machine.specs.Outlines.{outline_of_code};
ghost use Rattle.machine.specs.ValidCode.{AreMarked};
ghost use Rattle.machine.specs.declared.code.CodeLocal.{CodeLocal};
ghost use Rattle.icode.specs.inner.Locals.{DefinesFew, MarksAre};

use crate::locals::{MOST_LOCALS, write_units};
use machine::{CodeFunction, CodeLocal, CodePlace};
use safe_locals::judge_locals;

/// Whether the marks of locals are these.
fn are_marks(locals: &[CodeLocal], safe: &[bool]) -> bool
    requires { length locals.now ≤ length safe.now }
    ensures { IsTrue result ↔ MarksAre locals.now safe.now }
{
    for (number, local) in locals.iter().enumerate() {
        if local.safe != safe[number] {
            return false;
        }
    }
    true
}

/// Whether just those of these locals are marked that are safe in a body.
fn are_marked_in(body: &[CodePlace], locals: &[CodeLocal]) -> bool
    requires few { length body.now ≤ 65536 }
    requires defined { DefinesFew (map outline_of_code body.now) }
    requires room { length locals.now ≤ 16384 }
    ensures { IsTrue result ↔ ((v : ℕ) (l : CodeLocal) → slice_get locals.now v ≡ Some l
        → IsTrue l.safe ↔ IsSafe (map outline_of_code body.now) v l.units) }
{
    let mut units = [0; MOST_LOCALS];
    write_units(locals, &mut units);
    let mut safe = [false; MOST_LOCALS];
    judge_locals(body, &units, &mut safe);
    are_marks(locals, &safe)
}

/// Whether just those locals of a function are marked that are safe.
pub(crate) fn are_marked(function: &CodeFunction) -> bool
    requires few { length function.now.body ≤ 65536 }
    requires defined { DefinesFew (map outline_of_code function.now.body) }
    requires room { length function.now.locals ≤ 16384 }
    ensures { IsTrue result ↔ AreMarked function.now }
{
    are_marked_in(function.body.as_slice(), function.locals.as_slice())
}
