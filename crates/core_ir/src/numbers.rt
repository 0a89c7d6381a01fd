//! Whether the registers, slots and places of a body are in range.

ghost use Rattle.std.specs.Prelude.{◌≡◌, ◌+◌, ◌<◌, ◌≤◌, ◌↔◌, ℕ, IfSome, IsTrue, length, map};
ghost use Rattle.core_ir.specs.Outline.{Outline};
ghost use Rattle.core_ir.specs.Flow.{IsAmong, Stands};
ghost use Rattle.core_ir.specs.Order.{NumbersFit};

use crate::outline::HasOutline;

/// Whether a number, if there is one, is below another.
pub(crate) fn is_below(number: Option<u32>, bound: u32) -> bool
    ensures { IsTrue result ↔ IfSome number (λ n. n < bound) }
{
    match number {
        Some(number) => number < bound,
        None => true,
    }
}

/// Whether each register that the instruction uses is of the first so many.
fn uses_fit<I: HasOutline>(instr: &I, registers: u32) -> bool
    ensures { IsTrue result ↔ ((r : ℕ) → IsAmong (I.outline instr.now).used r → r < registers) }
{
    for operand in 0..instr.operands() {
        if instr.operand(operand) >= registers {
            return false;
        }
    }
    true
}

/// Whether registers, slots and places are of the first so many.
fn numbers_fit<I: HasOutline>(instr: &I, registers: u32, slots: u32, places: usize) -> bool
    requires { places ≤ 65536 }
    ensures { IsTrue result ↔ NumbersFit registers slots places (I.outline instr.now) }
{
    if !is_below(instr.defined(), registers) {
        return false;
    }
    if !is_below(instr.slot(), slots) {
        return false;
    }
    if !is_below(instr.target(), places as u32) {
        return false;
    }
    uses_fit(instr, registers)
}

/// Whether that holds of each instruction of a body.
pub(crate) fn are_numbered<I: HasOutline>(code: &[I], registers: u32, slots: u32) -> bool
    requires { length code.now ≤ 65536 }
    ensures { let code = map I.outline code.now in
        IsTrue result ↔ ((u : ℕ) (i : Outline) → Stands code 0 u i
        → NumbersFit registers slots (length code) i) }
{
    for instr in code {
        if !numbers_fit(instr, registers, slots, code.len()) {
            return false;
        }
    }
    true
}
