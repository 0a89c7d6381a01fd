//! The text of a function's instructions: the kind and the fields of each, and a line's end behind it.

use c_types::{FnTy, Ty};
use core_ir::{Arguments, Function, Instr, Operator};
use std::alloc::AllocError;

/// A number in decimals.
fn push_natural(text: &mut Vec<u8>, n: u64) -> Result<(), AllocError> {
    if n >= 10 {
        push_natural(text, n / 10)?;
    }
    text.push(b'0' + (n % 10) as u8)?;
    Ok(())
}

/// A number of either sign.
fn push_integer(text: &mut Vec<u8>, n: i64) -> Result<(), AllocError> {
    if n < 0 {
        text.push(b'-')?;
    }
    push_natural(text, n.unsigned_abs())
}

/// A space and a number.
fn push_field(text: &mut Vec<u8>, n: u32) -> Result<(), AllocError> {
    text.push(b' ')?;
    push_natural(text, u64::from(n))
}

/// A space, and a number or `-`.
fn push_optional(text: &mut Vec<u8>, n: Option<u32>) -> Result<(), AllocError> {
    match n {
        Some(n) => push_field(text, n),
        None => text.extend_from_slice(b" -".as_slice()),
    }
}

/// Words and numbers.
fn push_fields(text: &mut Vec<u8>, word: &[u8], fields: &[u32]) -> Result<(), AllocError> {
    text.extend_from_slice(word)?;
    for field in fields {
        push_field(text, *field)?;
    }
    Ok(())
}

/// A space and a type.
fn push_type_field(text: &mut Vec<u8>, ty: &Ty) -> Result<(), AllocError> {
    text.push(b' ')?;
    push_type(text, ty)
}

/// A type, read from left to right.
#[cycle(types)]
fn push_type(text: &mut Vec<u8>, ty: &Ty) -> Result<(), AllocError> {
    match ty {
        Ty::Int => text.extend_from_slice(b"int".as_slice()),
        Ty::Char => text.extend_from_slice(b"char".as_slice()),
        Ty::Void => text.extend_from_slice(b"void".as_slice()),
        Ty::Struct(s) => {
            text.push(b's')?;
            push_natural(text, u64::from(*s))
        }
        Ty::Pointer(target) => {
            text.push(b'*')?;
            push_type(text, target.get())
        }
        Ty::Array(element, bound) => {
            text.push(b'[')?;
            push_natural(text, u64::from(*bound))?;
            text.push(b']')?;
            push_type(text, element.get())
        }
        Ty::Function(function) => push_function_type(text, function.get()),
    }
}

/// A function's type.
#[cycle(types)]
fn push_function_type(text: &mut Vec<u8>, function: &FnTy) -> Result<(), AllocError> {
    text.extend_from_slice(b"fn(".as_slice())?;
    let mut first = true;
    for param in function.params.as_slice() {
        if !first {
            text.push(b',')?;
        }
        first = false;
        push_type(text, param)?;
    }
    text.push(b')')?;
    push_type(text, &function.result)
}

/// The token of an operator.
fn token(operator: Operator) -> &'static [u8] {
    match operator {
        Operator::Multiply => b"*".as_slice(),
        Operator::Divide => b"/".as_slice(),
        Operator::Remainder => b"%".as_slice(),
        Operator::Add => b"+".as_slice(),
        Operator::Subtract => b"-".as_slice(),
        Operator::BitwiseAnd => b"&".as_slice(),
        Operator::BitwiseExclusiveOr => b"^".as_slice(),
        Operator::BitwiseOr => b"|".as_slice(),
        Operator::ShiftLeft => b"<<".as_slice(),
        Operator::ShiftRight => b">>".as_slice(),
        Operator::Complement => b"~".as_slice(),
        Operator::Less => b"<".as_slice(),
        Operator::Greater => b">".as_slice(),
        Operator::LessEqual => b"<=".as_slice(),
        Operator::GreaterEqual => b">=".as_slice(),
        Operator::Equal => b"==".as_slice(),
        Operator::NotEqual => b"!=".as_slice(),
        Operator::Not => b"!".as_slice(),
    }
}

/// A space, and registers in brackets.
fn push_arguments(text: &mut Vec<u8>, registers: &Arguments) -> Result<(), AllocError> {
    text.extend_from_slice(b" (".as_slice())?;
    let mut first = true;
    for register in registers.as_slice() {
        if !first {
            text.push(b',')?;
        }
        first = false;
        push_natural(text, u64::from(*register))?;
    }
    text.push(b')')?;
    Ok(())
}

/// An instruction that has a type.
fn push_typed(text: &mut Vec<u8>, word: &[u8], fields: &[u32], ty: &Ty) -> Result<(), AllocError> {
    push_fields(text, word, fields)?;
    push_type_field(text, ty)
}

/// An instruction that has an operator.
fn push_operated(
    text: &mut Vec<u8>,
    word: &[u8],
    d: u32,
    operator: Operator,
    operands: &[u32],
) -> Result<(), AllocError> {
    push_fields(text, word, [d].as_slice())?;
    text.push(b' ')?;
    push_fields(text, token(operator), operands)
}

/// An instruction of calls and returns.
fn push_transfer(text: &mut Vec<u8>, instr: &Instr) -> Result<(), AllocError> {
    match instr {
        Instr::Call { f, args, s } => {
            push_fields(text, b"Call".as_slice(), [*f].as_slice())?;
            push_arguments(text, args)?;
            push_optional(text, *s)
        }
        Instr::CallInd { c, args, ty, s } => {
            push_fields(text, b"CallInd".as_slice(), [*c].as_slice())?;
            push_arguments(text, args)?;
            text.push(b' ')?;
            push_function_type(text, ty)?;
            push_optional(text, *s)
        }
        Instr::Return { a } => {
            text.extend_from_slice(b"Return".as_slice())?;
            push_optional(text, *a)
        }
        _ => Ok(()),
    }
}

/// An instruction of addresses and memory.
fn push_access(text: &mut Vec<u8>, instr: &Instr) -> Result<(), AllocError> {
    match instr {
        Instr::AddrG { d, g } => push_fields(text, b"AddrG".as_slice(), [*d, *g].as_slice()),
        Instr::AddrL { d, v } => push_fields(text, b"AddrL".as_slice(), [*d, *v].as_slice()),
        Instr::AddrF { d, f } => push_fields(text, b"AddrF".as_slice(), [*d, *f].as_slice()),
        Instr::GetLocal { d, s } => push_fields(text, b"GetLocal".as_slice(), [*d, *s].as_slice()),
        Instr::SetLocal { s, a } => push_fields(text, b"SetLocal".as_slice(), [*s, *a].as_slice()),
        Instr::PtrAdd { d, p, i, s } => {
            push_fields(text, b"PtrAdd".as_slice(), [*d, *p, *i, *s].as_slice())
        }
        Instr::PtrConst { d, p, k } => {
            push_fields(text, b"PtrConst".as_slice(), [*d, *p, *k].as_slice())
        }
        Instr::Touch { p, ty } => push_typed(text, b"Touch".as_slice(), [*p].as_slice(), ty),
        Instr::Load { d, p, ty } => push_typed(text, b"Load".as_slice(), [*d, *p].as_slice(), ty),
        Instr::Store { p, a, ty } => {
            push_typed(text, b"Store".as_slice(), [*p, *a].as_slice(), ty)
        }
        _ => push_transfer(text, instr),
    }
}

/// An instruction of threads, objects, and input and output.
fn push_service(text: &mut Vec<u8>, instr: &Instr) -> Result<(), AllocError> {
    match instr {
        Instr::Malloc { d, a } => push_fields(text, b"Malloc".as_slice(), [*d, *a].as_slice()),
        Instr::Free { p } => push_fields(text, b"Free".as_slice(), [*p].as_slice()),
        Instr::Fork { d } => push_fields(text, b"Fork".as_slice(), [*d].as_slice()),
        Instr::StartArg { t, a } => push_fields(text, b"StartArg".as_slice(), [*t, *a].as_slice()),
        Instr::StartFn { t, f } => push_fields(text, b"StartFn".as_slice(), [*t, *f].as_slice()),
        Instr::Lock { p } => push_fields(text, b"Lock".as_slice(), [*p].as_slice()),
        Instr::Unlock { p } => push_fields(text, b"Unlock".as_slice(), [*p].as_slice()),
        Instr::Join { t } => push_fields(text, b"Join".as_slice(), [*t].as_slice()),
        Instr::Print { a } => push_fields(text, b"Print".as_slice(), [*a].as_slice()),
        Instr::Input { d, a } => push_fields(text, b"Input".as_slice(), [*d, *a].as_slice()),
        _ => push_access(text, instr),
    }
}

/// An instruction.
fn push_instr(text: &mut Vec<u8>, instr: &Instr) -> Result<(), AllocError> {
    match instr {
        Instr::Const { d, v } => {
            push_fields(text, b"Const".as_slice(), [*d].as_slice())?;
            text.push(b' ')?;
            push_integer(text, *v)
        }
        Instr::Binary { d, op, a, b } => {
            push_operated(text, b"Binary".as_slice(), *d, *op, [*a, *b].as_slice())
        }
        Instr::Unary { d, op, a } => {
            push_operated(text, b"Unary".as_slice(), *d, *op, [*a].as_slice())
        }
        Instr::Cast { d, a, from, to } => {
            push_typed(text, b"Cast".as_slice(), [*d, *a].as_slice(), from)?;
            push_type_field(text, to)
        }
        Instr::Jump { l } => push_fields(text, b"Jump".as_slice(), [*l].as_slice()),
        Instr::Branch { a, l } => push_fields(text, b"Branch".as_slice(), [*a, *l].as_slice()),
        Instr::Enter => text.extend_from_slice(b"Enter".as_slice()),
        Instr::Leave => text.extend_from_slice(b"Leave".as_slice()),
        _ => push_service(text, instr),
    }
}

/// The instructions of a function, one a line.
///
/// # Errors
///
/// `AllocError`, where no memory is left.
pub fn push_function(text: &mut Vec<u8>, function: &Function) -> Result<(), AllocError> {
    for instr in function.body.as_slice() {
        push_instr(text, instr)?;
        text.push(b'\n')?;
    }
    Ok(())
}
