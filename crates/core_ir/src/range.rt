//! Whether the types of an instruction, and the numbers that it names beside registers, slots and places,
//! are in range.

ghost use Rattle.std.specs.Prelude.{◌≡◌, ◌+◌, ◌<◌, ◌↔◌, All, IsTrue, length};
ghost use Rattle.core_ir.specs.Instructions.{types};
ghost use Rattle.core_ir.specs.Valid as spec;
ghost use Rattle.core_ir.specs.Valid.{CanCall, Fits, HasArguments, IsInRange, TypeFits};

use crate::instr::{Arguments, Instr};
use crate::operator::Operator;
use crate::program::{Function, Program};
use c_types::{FnTy, StructTable, function_names_below, is_scalar, names_below};

/// Whether it is an operator of one operand.
fn is_unary(op: Operator) -> bool
    ensures { result ≡ spec.is_unary op }
{
    matches!(
        op,
        Operator::Subtract | Operator::Complement | Operator::Not
    )
}

/// Whether it is an operator of two.
fn is_binary(op: Operator) -> bool
    ensures { result ≡ spec.is_binary op }
{
    !matches!(op, Operator::Complement | Operator::Not)
}

/// Whether the types that an instruction names are made of structs of the table.
fn types_fit(structs: &StructTable, instr: &Instr) -> bool
    ensures { IsTrue result ↔ All (TypeFits structs.now) (types instr.now) }
{
    match instr {
        Instr::Cast { from, to, .. } => {
            names_below(structs.len(), from) && names_below(structs.len(), to)
        }
        Instr::Touch { ty, .. } | Instr::Load { ty, .. } | Instr::Store { ty, .. } => {
            names_below(structs.len(), ty)
        }
        _ => true,
    }
}

/// Whether there is one argument for each parameter.
fn has_arguments(ty: &FnTy, args: &Arguments) -> bool
    ensures { IsTrue result ↔ HasArguments ty.now args.now }
{
    args.len() == ty.params.len()
}

/// Whether there is such a function, with so many parameters as there are arguments.
fn can_call(program: &Program, number: u32, args: &Arguments) -> bool
    ensures { IsTrue result ↔ CanCall program.now number args.now }
{
    match program.functions.get(number as usize) {
        Some(callee) => has_arguments(&callee.ty, args),
        None => false,
    }
}

/// Whether an instruction has what its kind asks for beside its registers, slots, places and types.
fn fits(program: &Program, function: &Function, instr: &Instr) -> bool
    ensures { IsTrue result ↔ Fits program.now function.now instr.now }
{
    match instr {
        Instr::AddrG { g, .. } => (*g as usize) < program.globals.len(),
        Instr::AddrL { v, .. } => (*v as usize) < function.locals.len(),
        Instr::AddrF { f, .. } => (*f as usize) < program.functions.len(),
        Instr::Binary { op, .. } => is_binary(*op),
        Instr::Unary { op, .. } => is_unary(*op),
        Instr::Cast { from, to, .. } => is_scalar(from) && is_scalar(to),
        Instr::Call { f, args, .. } => can_call(program, *f, args),
        Instr::CallInd { args, ty, .. } => {
            has_arguments(ty, args) && function_names_below(program.structs.len(), ty)
        }
        _ => true,
    }
}

/// Whether the types of an instruction and what it names are in range.
fn is_in_range(program: &Program, function: &Function, instr: &Instr) -> bool
    ensures { IsTrue result ↔ IsInRange program.now function.now instr.now }
{
    if !types_fit(&program.structs, instr) {
        return false;
    }
    fits(program, function, instr)
}

/// Whether that holds of each instruction of a body.
pub(crate) fn are_in_range(program: &Program, function: &Function) -> bool
    ensures { IsTrue result ↔ All (IsInRange program.now function.now) function.now.body }
{
    for instr in function.body.as_slice() {
        if !is_in_range(program, function, instr) {
            return false;
        }
    }
    true
}
