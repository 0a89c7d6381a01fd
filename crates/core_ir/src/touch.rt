//! Whether the touches of a body are of the types that their accesses ask for.

ghost use Rattle.std.specs.Prelude.{◌≡◌, ◌≤◌, ◌↔◌, None, Some, IsTrue, length};
ghost use Rattle.c_types.specs.declared.ty.Ty.{Ty};
ghost use Rattle.core_ir.specs.Parts.{HasPart};
ghost use Rattle.core_ir.specs.Valid.{TouchesFit, access_type, touch_type};

use crate::instr::Instr;
use crate::parts::has_part;
use c_types::{StructTable, Ty};

/// Whether a type is that of an access, or has it as a part.
fn has_access(structs: &StructTable, whole: &Ty, access: &Instr) -> bool
    requires { length structs.now ≤ 1024 }
    ensures { IsTrue result ↔ ((part : Ty) → access_type access.now ≡ Some part
        → HasPart structs.now whole.now part) }
{
    match access {
        Instr::Load { ty, .. } | Instr::Store { ty, .. } => has_part(structs, whole, ty),
        Instr::Lock { .. } | Instr::Unlock { .. } => has_part(structs, whole, &Ty::Int),
        _ => true,
    }
}

/// Whether that holds of an instruction that is a touch, and the one behind it.
fn touch_fits(structs: &StructTable, touch: &Instr, access: &Instr) -> bool
    requires { length structs.now ≤ 1024 }
    ensures { IsTrue result ↔ ((whole part : Ty) → touch_type touch.now ≡ Some whole
        → access_type access.now ≡ Some part → HasPart structs.now whole part) }
{
    match touch {
        Instr::Touch { ty, .. } => has_access(structs, ty, access),
        _ => true,
    }
}

/// Whether that holds of each touch of a body.
pub(crate) fn touches_fit(structs: &StructTable, body: &[Instr]) -> bool
    requires { length structs.now ≤ 1024 }
    ensures { IsTrue result ↔ TouchesFit structs.now body.now }
{
    for place in 1..body.len() {
        if !touch_fits(structs, &body[place - 1], &body[place]) {
            return false;
        }
    }
    true
}
