//! Whether the numbers that an instruction of code names beside registers, slots and places are in
//! range.

ghost use Rattle.std.specs.Prelude.{◌≡◌, ◌+◌, ◌<◌, ◌↔◌, All, IsTrue, length};
ghost use Rattle.core_ir.specs.Valid as spec;
ghost use Rattle.core_ir.specs.Valid.{HasArguments};
ghost use Rattle.machine.specs.ValidCode.{CanCallCode, CodeFits, IsLocalOf, LiesInGlobals};

use c_types::FnTy;
use core_ir::{Arguments, Operator};
use machine::{Code, CodeFunction, CodePlace};

/// Globals and strings stand from here on.
const FIRST_ADDRESS: u64 = 128;

/// They end before this address.
const GLOBALS_END: u64 = 65_664;

/// Whether it is an operator of one operand.
fn is_unary(op: Operator) -> bool
    ensures { result ≡ spec.is_unary op }
{
    matches!(
        op,
        Operator::Subtract | Operator::Complement | Operator::Not
    )
}

/// Whether it is an operator of two.
fn is_binary(op: Operator) -> bool
    ensures { result ≡ spec.is_binary op }
{
    !matches!(op, Operator::Complement | Operator::Not)
}

/// Whether there is one argument for each parameter.
fn has_arguments(ty: &FnTy, args: &Arguments) -> bool
    ensures { IsTrue result ↔ HasArguments ty.now args.now }
{
    args.len() == ty.params.len()
}

/// Whether there is such a function, with so many parameters as there are arguments.
fn can_call(code: &Code, number: u32, args: &Arguments) -> bool
    ensures { IsTrue result ↔ CanCallCode code.now number args.now }
{
    match code.functions.get(number as usize) {
        Some(callee) => has_arguments(&callee.ty, args),
        None => false,
    }
}

/// Whether the bounds of a global lie among the globals.
fn lies_in_globals(address: u32, units: u32) -> bool
    ensures { IsTrue result ↔ LiesInGlobals address units }
{
    u64::from(address) >= FIRST_ADDRESS && u64::from(address) + u64::from(units) <= GLOBALS_END
}

/// Whether the bounds of a local are those of the function's local.
fn is_local_of(function: &CodeFunction, number: u32, offset: u32, units: u32) -> bool
    ensures { IsTrue result ↔ IsLocalOf function.now number offset units }
{
    match function.locals.get(number as usize) {
        Some(local) => offset == local.offset && units == local.units,
        None => false,
    }
}

/// Whether an instruction has what its kind asks for beside its registers, slots and places.
fn fits(code: &Code, function: &CodeFunction, instr: &CodePlace) -> bool
    ensures { IsTrue result ↔ CodeFits code.now function.now instr.now }
{
    match instr {
        CodePlace::AddrG { address, units, .. } => lies_in_globals(*address, *units),
        CodePlace::AddrL {
            v,
            offset,
            units,
            ..
        } => is_local_of(function, *v, *offset, *units),
        CodePlace::AddrF { f, .. } => (*f as usize) < code.functions.len(),
        CodePlace::Binary { op, .. } => is_binary(*op),
        CodePlace::Unary { op, .. } => is_unary(*op),
        CodePlace::Call { f, args, .. } => can_call(code, *f, args),
        CodePlace::CallInd { args, ty, .. } => has_arguments(ty, args),
        _ => true,
    }
}

/// Whether that holds of each instruction of a body.
pub(crate) fn are_in_range(code: &Code, function: &CodeFunction) -> bool
    ensures { IsTrue result ↔ All (CodeFits code.now function.now) function.now.body }
{
    for instr in function.body.as_slice() {
        if !fits(code, function, instr) {
            return false;
        }
    }
    true
}
