//! Safe frame locals, in bodies built by hand.

ghost use Rattle.std.specs.Prelude.{◌<◌, length};
ghost use Rattle.core_ir.specs.Valid.{IsValid};

use crate::support::ty;
use c_types::{FnTy, StructTable, Ty};
use core_ir::{Function, Instr, InstrList, Local, Program, valid};
use safe_locals::{at_safe, safe};
use sqlite_items::Items;
use std::alloc::{AllocError, Global};
use std::test::Fail;

/// What is done with the address of `int a[2]`.
#[derive(Clone, Copy)]
enum Use {
    /// An access so many units behind its beginning.
    At(u32),
    /// An access at an index that is a constant.
    AtConstant(i64),
    /// An access at an index that a slot has.
    AtVariable,
    /// It is stored.
    Stored,
    Locked,
    /// Nothing.
    Unused,
}

/// Uses, with whether `a` is safe and how many instructions are at it then.
const USES: [(Use, bool, usize); 10] = [
    (Use::Unused, true, 0),
    (Use::At(0), true, 3),
    (Use::At(1), true, 3),
    (Use::At(2), false, 0),
    (Use::AtConstant(1), true, 3),
    (Use::AtConstant(-1), false, 0),
    (Use::AtConstant(2), false, 0),
    (Use::AtVariable, false, 0),
    (Use::Stored, false, 0),
    (Use::Locked, false, 0),
];

/// A touch of register 1 and a store of register 2 there.
fn push_store(body: &mut InstrList, alloc: Global) -> Result<(), AllocError> {
    body.push(Instr::Const { d: 2, v: 5 })?;
    body.push(Instr::Touch {
        p: 1,
        ty: ty(alloc, "2i")?,
    })?;
    body.push(Instr::Store {
        p: 1,
        a: 2,
        ty: Ty::Int,
    })?;
    Ok(())
}

/// The address of `a` at an index in register 3, and an access there.
fn push_indexed(body: &mut InstrList, alloc: Global) -> Result<(), AllocError> {
    body.push(Instr::AddrL { d: 0, v: 0 })?;
    body.push(Instr::PtrAdd {
        d: 1,
        p: 0,
        i: 3,
        s: 1,
    })?;
    push_store(body, alloc)
}

/// A store of the address of `a` at `a`.
fn push_stored(body: &mut InstrList, alloc: Global) -> Result<(), AllocError> {
    body.push(Instr::AddrL { d: 0, v: 0 })?;
    body.push(Instr::AddrL { d: 1, v: 0 })?;
    body.push(Instr::Touch {
        p: 1,
        ty: ty(alloc, "*i")?,
    })?;
    body.push(Instr::Store {
        p: 1,
        a: 0,
        ty: ty(alloc, "*i")?,
    })?;
    Ok(())
}

/// The code of a use.
fn push_use(body: &mut InstrList, alloc: Global, case: Use) -> Result<(), AllocError> {
    match case {
        Use::Unused => Ok(()),
        Use::At(k) => {
            body.push(Instr::AddrL { d: 0, v: 0 })?;
            body.push(Instr::PtrConst { d: 1, p: 0, k })?;
            push_store(body, alloc)
        }
        Use::AtConstant(v) => {
            body.push(Instr::Const { d: 3, v })?;
            push_indexed(body, alloc)
        }
        Use::AtVariable => {
            body.push(Instr::GetLocal { d: 3, s: 0 })?;
            push_indexed(body, alloc)
        }
        Use::Stored => push_stored(body, alloc),
        Use::Locked => {
            body.push(Instr::AddrL { d: 0, v: 0 })?;
            body.push(Instr::Touch {
                p: 0,
                ty: ty(alloc, "2i")?,
            })?;
            body.push(Instr::Lock { p: 0 })?;
            Ok(())
        }
    }
}

/// `void f(void)` with `int a[2]` and this use of it, alone in a program.
fn program(alloc: Global, case: Use) -> Result<Program, AllocError> {
    let mut body = Items::new(alloc);
    body.push(Instr::Enter)?;
    push_use(&mut body, alloc, case)?;
    body.push(Instr::Leave)?;
    body.push(Instr::Return { a: None })?;
    let mut locals = Items::new(alloc);
    locals.push(Local {
        ty: ty(alloc, "2i")?,
        offset: 0,
        units: 2,
    })?;
    let mut functions = Items::new(alloc);
    functions.push(Function {
        ty: FnTy {
            result: Ty::Void,
            params: Items::new(alloc),
        },
        registers: 4,
        slots: 1,
        locals,
        frame_units: 2,
        body,
    })?;
    Ok(Program {
        functions,
        globals: Items::new(alloc),
        structs: StructTable::new(alloc),
        entry: 0,
    })
}

/// How many answers are yes.
fn yes(answers: &[bool]) -> usize {
    let mut count = 0;
    for answer in answers {
        if *answer && count < answers.len() {
            count += 1;
        }
    }
    count
}

/// How many locals of function 0 are safe, and how many instructions are at such.
fn counts(alloc: Global, program: &Program) -> Result<(usize, usize), AllocError>
    requires valid { IsValid program.now }
    requires some { 0 < length program.now.functions }
{
    let answers = safe(alloc, program, 0)?;
    let there = at_safe(alloc, program, 0, answers.as_slice())?;
    Ok((yes(answers.as_slice()), yes(there.as_slice())))
}

/// The same of the program with this use.
fn counts_of(alloc: Global, case: Use) -> Result<(usize, usize), Fail> {
    let program = program(alloc, case)?;
    if !valid(&program) || program.functions.is_empty() {
        return Err(Fail::from("the program isn't valid"));
    }
    Ok(counts(alloc, &program)?)
}

#[test]
fn locals_are_safe_by_their_uses(rt: HostRuntime) -> Result<(), Fail> {
    for (case, is_safe, at) in &USES {
        let (safe, there) = counts_of(rt.alloc(), *case)?;
        assert_eq!(rt; safe, usize::from(*is_safe));
        assert_eq!(rt; there, *at);
    }
    Ok(())
}
