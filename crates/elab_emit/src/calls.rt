//! What calls emit behind their arguments.

ghost use Rattle.std.specs.Prelude.{◌≡◌, [], ◌∷◌};
ghost use Rattle.c_types.specs.declared.ty.Ty.TheVariants as ty;
ghost use Rattle.core_ir.specs.declared.instr.Instr.TheVariants.{Touch};
ghost use Rattle.elab_rows.specs.Calls as spec;
ghost use Rattle.elab_emit.specs.Emits.{IsSound, Outcome, code_of};
ghost use Rattle.elab_rows.specs.Made.{held};
ghost use Rattle.elab_rows.specs.Values as values;
ghost use Rattle.elab_emit.specs.Held.{listed};
ghost use Rattle.elab_emit.specs.inner.Results.{ResultOutcome};

use crate::emitter::{Emitter, Trouble, give, put};
use crate::types::copy_function;
use c_typed::BuiltIn;
use c_types::{FnTy, Ty, is_void};
use core_ir::{Arguments, Instr};

/// A register's value by way of a new slot.
pub fn keep(out: &mut Emitter, a: u32) -> Result<u32, Trouble>
    requires { IsSound out.old }
    ensures made { Outcome out.old (spec.kept (code_of out.old (held a))) result out.new }
    ensures sound { IsSound out.new }
{
    let s = out.slot;
    put(out, Instr::SetLocal { s, a })?;
    out.slot += 1;
    let d = out.register;
    give(out, Instr::GetLocal { d, s })
}

/// The result that a call puts into the next slot.
fn take_result(out: &mut Emitter) -> Result<u32, Trouble>
    requires { IsSound out.old }
    ensures made { ResultOutcome out.old result out.new }
    ensures sound { IsSound out.new }
{
    let s = out.slot;
    let d = out.register;
    let value = give(out, Instr::GetLocal { d, s })?;
    out.slot += 1;
    Ok(value)
}

/// A call of a function by its number. `Memory`, where that is above 32 bits.
pub fn finish_call(
    out: &mut Emitter,
    f: usize,
    args: Arguments,
    returns: bool,
) -> Result<u32, Trouble>
    requires { IsSound out.old }
    ensures made { Outcome out.old (spec.call_made f returns (listed out.old args)) result out.new }
    ensures sound { IsSound out.new }
{
    if f > u32::MAX as usize {
        return Err(Trouble::Memory);
    }
    let f = f as u32;
    if !returns {
        put(out, Instr::Call { f, args, s: None })?;
        return Ok(0);
    }
    let s = Some(out.slot);
    put(out, Instr::Call { f, args, s })?;
    take_result(out)
}

/// A call of a register's function.
pub fn finish_indirect(
    out: &mut Emitter,
    c: u32,
    args: Arguments,
    ty: &FnTy,
) -> Result<u32, Trouble>
    requires { IsSound out.old }
    ensures made { Outcome out.old (spec.indirect_made ty.now (values.returns ty.now) (listed out.old args) (code_of out.old (held c))) result out.new }
    ensures sound { IsSound out.new }
{
    let alloc = out.alloc;
    let function = copy_function(alloc, ty)?;
    if is_void(&ty.result) {
        put(
            out,
            Instr::CallInd {
                c,
                args,
                ty: function,
                s: None,
            },
        )?;
        return Ok(0);
    }
    let s = Some(out.slot);
    put(
        out,
        Instr::CallInd {
            c,
            args,
            ty: function,
            s,
        },
    )?;
    take_result(out)
}

/// `Fork; StartArg; StartFn`.
fn start(out: &mut Emitter, f: u32, a: u32) -> Result<u32, Trouble>
    requires { IsSound out.old }
    ensures made { Outcome out.old (spec.spawned (listed out.old (f ∷ a ∷ []))) result out.new }
    ensures sound { IsSound out.new }
{
    let d = out.register;
    let t = give(out, Instr::Fork { d })?;
    put(out, Instr::StartArg { t, a })?;
    put(out, Instr::StartFn { t, f })?;
    Ok(t)
}

/// An instruction that defines no register; the value stays.
fn follow(out: &mut Emitter, instr: Instr, a: u32) -> Result<u32, Trouble>
    requires { IsSound out.old }
    ensures made { Outcome out.old (spec.followed_list (instr ∷ []) (listed out.old (a ∷ []))) result out.new }
    ensures sound { IsSound out.new }
{
    put(out, instr)?;
    Ok(a)
}

/// The same behind `Touch` with `int`.
fn follow_touch(out: &mut Emitter, instr: Instr, p: u32) -> Result<u32, Trouble>
    requires { IsSound out.old }
    ensures made { Outcome out.old (spec.followed_list (Touch p ty.Int ∷ instr ∷ []) (listed out.old (p ∷ []))) result out.new }
    ensures sound { IsSound out.new }
{
    put(out, Instr::Touch { p, ty: Ty::Int })?;
    put(out, instr)?;
    Ok(p)
}

/// The first register of arguments.
fn first_of(registers: &[u32]) -> u32
    ensures { result ≡ spec.first_of registers.now }
{
    registers.first().copied().unwrap_or(0)
}

/// The second register of arguments.
fn second_of(registers: &[u32]) -> u32
    ensures { result ≡ spec.second_of registers.now }
{
    match registers.split_first() {
        Some((_, others)) => first_of(others),
        None => 0,
    }
}

/// The instruction of a call that the language has from the start.
pub fn finish_built_in(out: &mut Emitter, b: BuiltIn, registers: &[u32]) -> Result<u32, Trouble>
    requires { IsSound out.old }
    ensures made { Outcome out.old (spec.built_in_made b (listed out.old registers.now)) result out.new }
    ensures sound { IsSound out.new }
{
    let a = first_of(registers);
    let d = out.register;
    match b {
        BuiltIn::Spawn => start(out, a, second_of(registers)),
        BuiltIn::Join => follow(out, Instr::Join { t: a }, a),
        BuiltIn::Lock => follow_touch(out, Instr::Lock { p: a }, a),
        BuiltIn::Unlock => follow_touch(out, Instr::Unlock { p: a }, a),
        BuiltIn::Print => follow(out, Instr::Print { a }, a),
        BuiltIn::Input => give(out, Instr::Input { d, a }),
        BuiltIn::Malloc => give(out, Instr::Malloc { d, a }),
        BuiltIn::Free => follow(out, Instr::Free { p: a }, a),
    }
}
