//! Whether a register has a place: whether the instruction that defines it reads memory or a slot. It is seen in the code
//! that was just emitted, from its end on.

ghost use Rattle.std.specs.Prelude.{◌≡◌};
ghost use Rattle.core_ir.specs.Instructions.{outline_of};
ghost use Rattle.elab_rows.specs.Calls as spec;
ghost use Rattle.elab_emit.specs.inner.Places.{seen};

use core_ir::{HasOutline, Instr, Role};

/// What an instruction tells of whether a register has a place.
#[derive(Clone, Copy, Debug, PartialEq, Eq)]
enum Seen {
    /// It defines the register.
    Known(bool),
    /// This register has to be looked for in front of it.
    Before(u32),
}

/// Whether a register is the one that is defined.
fn defines(r: u32, defined: Option<u32>) -> bool
    ensures { result ≡ spec.defines r defined }
{
    match defined {
        Some(d) => d == r,
        None => false,
    }
}

/// What an instruction tells of a register.
fn look(instr: &Instr, r: u32) -> Seen
    ensures { result ≡ seen (outline_of instr.now) r }
{
    if !defines(r, instr.defined()) {
        return Seen::Before(r);
    }
    match instr.role() {
        Role::Load { .. } | Role::Slot { .. } => Seen::Known(true),
        Role::Cast { a } => Seen::Before(a),
        _ => Seen::Known(false),
    }
}

/// Whether the register that code gives has a place.
#[tactic(auto, using(crate::proofs::SeenPlaces::last_seen, crate::proofs::SeenPlaces::none_left))]
pub fn has_place(code: &[Instr], r: u32) -> bool
    ensures { result ≡ spec.has_place code.now r }
{
    let mut left = code;
    let mut register = r;
    while let Some((last, before)) = left.split_last() {
        match look(last, register) {
            Seen::Known(known) => return known,
            Seen::Before(other) => {
                register = other;
                left = before;
            }
        }
    }
    false
}
