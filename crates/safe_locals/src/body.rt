//! The safe locals of a body.

ghost use Rattle.std.specs.Prelude.{◌≡◌, ◌<◌, ◌≤◌, ℕ, true, IfOk, IfSome, length, map, replicate};
ghost use Rattle.core_ir.specs.Outline.{Outline};
ghost use Rattle.core_ir.specs.Flow.{Stands};
ghost use Rattle.safe_locals.specs.Safe.{AreSafeIn};

use crate::marks::Marks;
use crate::operands::judge;
use core_ir::HasOutline;
use sqlite_items::Items;
use std::alloc::{AllocError, Global};

/// Which locals of these units are safe in a body: it leaves one answer for each. It goes over the
/// body once, looks at each operand in constant time, and takes no memory but its stack.
pub fn judge_locals<I: HasOutline>(code: &[I], units: &[u32], safe: &mut [bool])
    requires few { length code.now ≤ 65536 }
    requires defined { (u : ℕ) (i : Outline) → Stands (map I.outline code.now) 0 u i
        → IfSome i.defined (λ d. d < 1024) }
    requires each { length safe.old ≡ length units.now }
    ensures { AreSafeIn (map I.outline code.now) units.now safe.new }
{
    safe.fill(true);
    let mut marks = Marks::new();
    for (place, instr) in code.iter().enumerate() {
        judge(safe, units, &marks.marks, code, place, instr);
        marks.pass(code, place, instr);
    }
}

/// Every local, while nothing is known of it.
fn all_unknown(alloc: Global, count: usize) -> Result<Vec<bool>, AllocError>
    ensures { IfOk result (λ safe. length safe.items ≡ count) }
{
    let mut safe = Vec::new(alloc);
    for _ in 0..count {
        safe.push(false)?;
    }
    Ok(safe)
}

/// Which locals of these units are safe in a body. It goes over the body once, and looks at each
/// operand in constant time.
///
/// # Errors
///
/// `AllocError`, where no memory is left.
pub fn safe_in<I: HasOutline>(
    alloc: Global,
    code: &[I],
    units: &[u32],
) -> Result<Items<bool>, AllocError>
    requires few { length code.now ≤ 65536 }
    requires defined { (u : ℕ) (i : Outline) → Stands (map I.outline code.now) 0 u i
        → IfSome i.defined (λ d. d < 1024) }
    ensures { IfOk result (λ safe. AreSafeIn (map I.outline code.now) units.now safe) }
{
    let mut safe = all_unknown(alloc, units.len())?;
    judge_locals(code, units, safe.as_mut_slice());
    Ok(Items::from_vec(safe))
}
