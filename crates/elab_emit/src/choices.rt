//! What `&&`, `||` and `?:` emit behind their operands. The jump at a hole is written once its place is known.

ghost use Rattle.std.specs.Prelude.{◌≡◌, ◌<◌, ◌+◌, length};
ghost use Rattle.elab_emit.specs.Emits.{IsSound};
ghost use Rattle.elab_emit.specs.Holes.{AndOutcome, ArmsOutcome, KeptOutcome, OrOutcome, TestedOutcome, TruthOutcome};

use crate::emitter::{Emitter, Trouble, give, put};
use core_ir::Instr;

/// `Const 1; SetLocal s; Jump E; F: Const 0; SetLocal s; E: GetLocal s`.
fn truth(out: &mut Emitter) -> Result<u32, Trouble>
    requires { IsSound out.old }
    ensures made { TruthOutcome out.old result out.new }
    ensures sound { IsSound out.new }
{
    let f = out.code.len() as u32 + 3;
    let s = out.slot;
    let d = out.register;
    let one = give(out, Instr::Const { d, v: 1 })?;
    put(out, Instr::SetLocal { s, a: one })?;
    put(out, Instr::Jump { l: f + 2 })?;
    let d = out.register;
    let zero = give(out, Instr::Const { d, v: 0 })?;
    put(out, Instr::SetLocal { s, a: zero })?;
    let d = out.register;
    let value = give(out, Instr::GetLocal { d, s })?;
    out.slot += 1;
    Ok(value)
}

/// The end of `a && b`, whose first branch has this hole.
pub fn finish_and(out: &mut Emitter, hole: usize, x: u32, y: u32) -> Result<u32, Trouble>
    requires sound { IsSound out.old }
    requires hole { hole < length out.old.code }
    ensures made { AndOutcome out.old hole x y result out.new }
    ensures sound { IsSound out.new }
{
    let f = out.code.len() as u32 + 4;
    put(out, Instr::Branch { a: y, l: f })?;
    let value = truth(out)?;
    out.code.set(hole, Instr::Branch { a: x, l: f });
    Ok(value)
}

/// The end of `a || b`, whose jump has this hole.
pub fn finish_or(out: &mut Emitter, hole: usize, y: u32) -> Result<u32, Trouble>
    requires sound { IsSound out.old }
    requires hole { hole < length out.old.code }
    ensures made { OrOutcome out.old hole y result out.new }
    ensures sound { IsSound out.new }
{
    let t = out.code.len() as u32 + 1;
    put(out, Instr::Branch { a: y, l: t + 3 })?;
    let value = truth(out)?;
    out.code.set(hole, Instr::Jump { l: t });
    Ok(value)
}

/// The end of `c ? a : b`, whose branch and jump have these holes.
pub fn finish_conditional(
    out: &mut Emitter,
    branch: usize,
    jump: usize,
    c: u32,
    s: u32,
    y: u32,
) -> Result<u32, Trouble>
    requires sound { IsSound out.old }
    requires branch { branch < length out.old.code }
    requires jump { jump < length out.old.code }
    ensures made { ArmsOutcome out.old branch jump c s y result out.new }
    ensures sound { IsSound out.new }
{
    let e = out.code.len() as u32 + 1;
    put(out, Instr::SetLocal { s, a: y })?;
    let d = out.register;
    let value = give(out, Instr::GetLocal { d, s })?;
    out.code.set(
        branch,
        Instr::Branch {
            a: c,
            l: jump as u32 + 1,
        },
    );
    out.code.set(jump, Instr::Jump { l: e });
    Ok(value)
}

/// Behind the first operand of `a || b`: `Branch M; Jump T; M:`, and the jump's place.
pub fn open_or(out: &mut Emitter, a: u32) -> Result<usize, Trouble>
    requires { IsSound out.old }
    ensures made { TestedOutcome out.old a result out.new }
    ensures sound { IsSound out.new }
{
    let m = out.code.len() as u32 + 2;
    put(out, Instr::Branch { a, l: m })?;
    let jump = out.code.len();
    put(out, Instr::Jump { l: 0 })?;
    Ok(jump)
}

/// Behind the first arm of `c ? a : b`: `SetLocal s; Jump E`, and the slot.
pub fn end_first_arm(out: &mut Emitter, a: u32) -> Result<u32, Trouble>
    requires { IsSound out.old }
    ensures made { KeptOutcome out.old a result out.new }
    ensures sound { IsSound out.new }
{
    let s = out.slot;
    put(out, Instr::SetLocal { s, a })?;
    put(out, Instr::Jump { l: 0 })?;
    out.slot += 1;
    Ok(s)
}
