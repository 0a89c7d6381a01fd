//! Whether bodies are well formed, by the outlines of their instructions.

ghost use Rattle.std.specs.Prelude.{◌≡◌, ◌≤◌, ◌↔◌, IsTrue, length, map};
ghost use Rattle.core_ir.specs.Order.{IsWellFormed, KeepsFrame};
ghost use Rattle.core_ir.specs.inner.Jumps.{AreOf};

use crate::frame::{is_framed, is_frameless};
use crate::jumps::Jumps;
use crate::numbers::are_numbered;
use crate::order::is_ordered;
use crate::outline::HasOutline;

/// Checks bodies, one after another. It holds about a megabyte.
#[derive(Drop)]
pub struct BodyChecker {
    jumps: Jumps,
}

/// Whether a body with a frame enters and leaves it, and one without doesn't.
fn keeps_frame<I: HasOutline>(code: &[I], jumps: &Jumps, has_frame: bool) -> bool
    requires { AreOf (map I.outline code.now) jumps.now }
    ensures { IsTrue result ↔ KeepsFrame has_frame (map I.outline code.now) }
{
    if has_frame {
        is_framed(code, jumps)
    } else {
        is_frameless(code)
    }
}

impl BodyChecker {
    /// No body was checked.
    pub fn new() -> BodyChecker {
        BodyChecker {
            jumps: Jumps::new(),
        }
    }

    /// Whether a body is well formed. The time that it takes grows with the length of the body,
    /// however its jumps lie.
    pub fn is_well_formed<I: HasOutline>(
        &mut self,
        code: &[I],
        registers: u32,
        slots: u32,
        has_frame: bool,
    ) -> bool
        requires few { length code.now ≤ 65536 }
        requires few_registers { registers ≤ 1024 }
        ensures { IsTrue result ↔ IsWellFormed registers slots has_frame (map I.outline code.now) }
    {
        if !are_numbered(code, registers, slots) {
            return false;
        }
        self.jumps.read(code);
        if !is_ordered(code, &self.jumps) {
            return false;
        }
        keeps_frame(code, &self.jumps, has_frame)
    }
}
