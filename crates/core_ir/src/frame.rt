//! Whether a body enters and leaves its frame as it has one.

ghost use Rattle.std.specs.Prelude.{◌≡◌, ◌≢◌, ◌+◌, ◌<◌, ◌≤◌, ◌↔◌, ℕ, suc, None, Some, IfSome, IsTrue, length, map};
ghost use Rattle.core_ir.specs.Outline.{Outline};
ghost use Rattle.core_ir.specs.Flow.{HasRole, Stands};
ghost use Rattle.core_ir.specs.Order.{Behind, FrameFits, IsFramed, IsFrameless, IsOutsideFrames};
ghost use Rattle.core_ir.specs.inner.Found.{role_in};
ghost use Rattle.core_ir.specs.inner.Jumps.{AreOf};

use crate::jumps::Jumps;
use crate::order::role_at;
use crate::outline::HasOutline;
use crate::role::{Role, is_enter, is_leave, is_return};

/// Whether the frame is left directly before a place, and no jump leads to the place.
fn is_left<I: HasOutline>(code: &[I], jumps: &Jumps, place: usize) -> bool
    requires jumps { AreOf (map I.outline code.now) jumps.now }
    requires inside { place < length code.now }
    ensures { IsTrue result ↔ Behind (map I.outline code.now) place Role.Leave }
{
    if place == 0 || !jumps.is_unreached(code, place) {
        return false;
    }
    is_leave(role_at(code, place - 1))
}

/// Whether an instruction of this role may stand at a place of a body that has a frame.
fn fits_frame<I: HasOutline>(code: &[I], jumps: &Jumps, place: usize, role: Role) -> bool
    requires jumps { AreOf (map I.outline code.now) jumps.now }
    requires inside { place < length code.now }
    requires few { place < 65536 }
    ensures { IsTrue result ↔ FrameFits (map I.outline code.now) place role }
{
    match role {
        Role::Enter => place == 0,
        Role::Return => is_left(code, jumps, place),
        Role::Leave => is_return(role_at(code, place + 1)),
        _ => true,
    }
}

/// Whether each instruction may stand where it does in a body that has a frame.
fn fit_frame<I: HasOutline>(code: &[I], jumps: &Jumps) -> bool
    requires jumps { AreOf (map I.outline code.now) jumps.now }
    ensures { let code = map I.outline code.now in
        IsTrue result ↔ ((u : ℕ) (i : Outline) → Stands code 0 u i → FrameFits code u i.role) }
{
    for (place, instr) in code.iter().enumerate() {
        if !fits_frame(code, jumps, place, instr.role()) {
            return false;
        }
    }
    true
}

/// Whether a body enters its frame first and nowhere else, and leaves it directly before each return
/// and nowhere else.
pub(crate) fn is_framed<I: HasOutline>(code: &[I], jumps: &Jumps) -> bool
    requires jumps { AreOf (map I.outline code.now) jumps.now }
    ensures { IsTrue result ↔ IsFramed (map I.outline code.now) }
{
    if code.is_empty() || !jumps.is_unreached(code, 0) {
        return false;
    }
    if !is_enter(role_at(code, 0)) {
        return false;
    }
    fit_frame(code, jumps)
}

/// Whether an instruction of this role may stand in a body without a frame.
fn is_outside_frames(role: Role) -> bool
    ensures { IsTrue result ↔ IsOutsideFrames role }
{
    !matches!(role, Role::Enter | Role::Leave)
}

/// Whether a body enters and leaves no frame.
pub(crate) fn is_frameless<I: HasOutline>(code: &[I]) -> bool
    ensures { IsTrue result ↔ IsFrameless (map I.outline code.now) }
{
    for instr in code {
        if !is_outside_frames(instr.role()) {
            return false;
        }
    }
    true
}
