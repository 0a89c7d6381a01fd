//! Whether the places of a body say where they are.

ghost use Rattle.std.specs.Prelude.{◌≡◌, ◌≤◌, ◌↔◌, ℕ, IsTrue, Some, length, map, slice_get};
ghost use Rattle.core_ir.specs.Order.{IsOrdered};
ghost use Rattle.machine.specs.Outlines.{outline_of_code};
ghost use Rattle.machine.specs.ValidCode.{SaysWhere};
ghost use Rattle.machine.specs.declared.code.CodePlace.{CodePlace};
ghost use Rattle.icode.specs.Sites.{AreLocals};
ghost use Rattle.icode.specs.inner.Locals.{DefinesFew};
ghost use Rattle.icode.specs.inner.Says as spec;

use crate::site::Site;
use crate::sites::Sites;
use machine::{CodeFunction, CodePlace};

/// Whether an instruction says that it stands at this site.
fn says(instr: &CodePlace, site: Site) -> bool
    ensures { result ≡ spec.says instr.now site }
{
    match instr {
        CodePlace::Touch { marked, .. } => *marked == site.unit.is_some(),
        CodePlace::Load { unit, .. } | CodePlace::Store { unit, .. } => *unit == site.unit,
        CodePlace::CallInd { origin, .. } => *origin == site.origin,
        _ => true,
    }
}

/// Whether each place of the body of a function says where it is.
pub(crate) fn places_say_where(function: &CodeFunction) -> bool
    requires few { length function.now.body ≤ 65536 }
    requires defined { DefinesFew (map outline_of_code function.now.body) }
    requires ordered { IsOrdered (map outline_of_code function.now.body) }
    requires locals { AreLocals (map outline_of_code function.now.body) function.now.locals }
    ensures { IsTrue result ↔ ((k : ℕ) (i : CodePlace) → slice_get function.now.body k ≡ Some i
        → SaysWhere function.now k i) }
{
    let body = function.body.as_slice();
    let locals = function.locals.as_slice();
    let mut sites = Sites::new(locals);
    for (place, instr) in body.iter().enumerate() {
        if !says(instr, sites.at(body, locals, place, instr)) {
            return false;
        }
        sites.pass(body, locals, place, instr);
    }
    true
}
