//! The locals of code.

ghost use Rattle.std.specs.Prelude.{◌≡◌, IfOk};
ghost use Rattle.icode.specs.Sites.{LocalsStand};
ghost use Rattle.safe_locals.specs.Safe.{AreSafe};

use core_ir::{Function, Local};
use machine::{CodeLocal, CodeLocalList};
use sqlite_items::Items;
use std::alloc::{AllocError, Global};

/// The code's local that stands for a local, where it is known whether that is safe.
fn code_local(local: &Local, safe: bool) -> CodeLocal
    ensures offset { result.offset ≡ local.now.offset }
    ensures units { result.units ≡ local.now.units }
    ensures safe { result.safe ≡ safe }
{
    CodeLocal {
        offset: local.offset,
        units: local.units,
        safe,
    }
}

/// The locals that stand for those of a function, of which `safe` tells the safe ones.
pub(crate) fn code_locals(
    alloc: Global,
    function: &Function,
    safe: &[bool],
) -> Result<CodeLocalList, AllocError>
    requires { AreSafe function.now safe.now }
    ensures { IfOk result (λ locals. LocalsStand function.now locals) }
{
    let mut locals = Items::new(alloc);
    for (number, local) in function.locals.as_slice().iter().enumerate() {
        locals.push(code_local(local, safe[number]))?;
    }
    Ok(locals)
}
