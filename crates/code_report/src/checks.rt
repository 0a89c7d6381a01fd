//! How many checks the code of a function has.

ghost use Rattle.std.specs.Prelude.{◌≡◌, ◌↔◌, ◌≤◌, ℕ, List, Some, IsTrue, length, slice_get};
ghost use Rattle.c_types.specs.declared.structs.StructDef.{StructDef};
ghost use Rattle.core_ir.specs.declared.program.Function.{Function as CoreFunction};
ghost use Rattle.safe_locals.specs.AtLocals.{AreAtSafe, IsAtSafe};
ghost use Rattle.sensitivity.specs.Classes.{AreClasses};
ghost use Rattle.code_report.specs.Checks as spec;
ghost use Rattle.code_report.specs.Checks.{Counts, IsCheck};

use core_ir::{Function, Instr};
use sensitivity::{Class, ClassTable, classes_are_unique};

/// Whether a touch of this class tests its address.
fn is_tested(class: Class) -> bool
    ensures { result ≡ spec.is_tested class }
{
    matches!(class, Class::Sensitive | Class::Universal)
}

/// Whether an instruction is a check.
fn is_check(classes: &ClassTable, is_at_safe: bool, instr: &Instr) -> bool
    ensures { (defs : List StructDef) (f : CoreFunction) (k : ℕ) → AreClasses defs classes.now
        → slice_get f.body k ≡ Some instr.now → IsTrue is_at_safe ↔ IsAtSafe f k
        → IsTrue result ↔ IsCheck defs f k }
{
    classes_are_unique();
    match instr {
        Instr::Touch { ty, .. } => !is_at_safe && is_tested(classes.class_of_pointer(ty)),
        Instr::CallInd { .. } => true,
        _ => false,
    }
}

/// How many checks a function has, if this says which of its instructions are at safe locals.
pub(crate) fn checks_of(classes: &ClassTable, function: &Function, at_safe: &[bool]) -> u32
    requires few { length function.now.body ≤ 65536 }
    requires at { AreAtSafe function.now at_safe.now }
    ensures { (defs : List StructDef) → AreClasses defs classes.now
        → Counts (IsCheck defs function.now) (length function.now.body) result }
{
    let mut checks = 0;
    for (place, instr) in function.body.as_slice().iter().enumerate() {
        if is_check(classes, at_safe[place], instr) {
            checks += 1;
        }
    }
    checks
}
