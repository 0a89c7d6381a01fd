//! A program, and its code.

ghost use Rattle.std.specs.Prelude.{IsTrue};
ghost use Rattle.core_ir.specs.Valid.{IsValid};

use c_types::{FnTy, Member, MemberList, Name, StructTable, Ty};
use core_ir::{
    Function, GlobalList, GlobalVar, Instr, InstrList, Local, LocalList, Program, valid,
};
use instrument::instrument;
use machine::Code;
use safe_locals::safe_all;
use sensitivity::classes;
use shared::Shared;
use sqlite_items::Items;
use std::alloc::{AllocError, Global};
use std::test::Fail;

/// `void (void)`.
fn plain_function(alloc: Global) -> FnTy {
    FnTy {
        result: Ty::Void,
        params: Items::new(alloc),
    }
}

/// `void (*)(void)`.
pub(crate) fn pointer_to_function(alloc: Global) -> Result<Ty, AllocError> {
    let function = Ty::Function(Shared::new(alloc, plain_function(alloc))?);
    Ok(Ty::Pointer(Shared::new(alloc, function)?))
}

/// An array of so many `int`.
fn ints(alloc: Global, count: u32) -> Result<Ty, AllocError> {
    Ok(Ty::Array(Shared::new(alloc, Ty::Int)?, count))
}

/// A member of this name and type.
fn member(alloc: Global, name: &str, ty: Ty) -> Result<Member, AllocError> {
    let name = Name::new(Vec::from_slice(alloc, name.as_bytes())?);
    Ok(Member { name, ty })
}

/// `struct op { int n; void (*f)(void); };`.
fn structs(alloc: Global) -> Result<StructTable, Fail> {
    let mut table = StructTable::new(alloc);
    let _op = table.declare(Name::new(Vec::from_slice(alloc, "op".as_bytes())?))?;
    let mut members: MemberList = Items::new(alloc);
    members.push(member(alloc, "n", Ty::Int)?)?;
    members.push(member(alloc, "f", pointer_to_function(alloc)?)?)?;
    if !table.can_define(0, &members) {
        return Err(Fail::from("the struct may not have these members"));
    }
    table.define(0, members)?;
    Ok(table)
}

/// `void (*h)(void); struct op t;`.
fn globals(alloc: Global) -> Result<GlobalList, AllocError> {
    let mut globals = Items::new(alloc);
    globals.push(GlobalVar {
        ty: pointer_to_function(alloc)?,
        address: 128,
        units: 1,
    })?;
    globals.push(GlobalVar {
        ty: Ty::Struct(0),
        address: 129,
        units: 2,
    })?;
    Ok(globals)
}

/// `int b[2]; int c[1];`.
fn locals(alloc: Global) -> Result<LocalList, AllocError> {
    let mut locals = Items::new(alloc);
    locals.push(Local {
        ty: ints(alloc, 2)?,
        offset: 0,
        units: 2,
    })?;
    locals.push(Local {
        ty: ints(alloc, 1)?,
        offset: 2,
        units: 1,
    })?;
    Ok(locals)
}

/// `h=a; h();`.
fn push_calls(body: &mut InstrList, alloc: Global) -> Result<(), AllocError> {
    body.push(Instr::AddrF { d: 0, f: 0 })?;
    body.push(Instr::AddrG { d: 1, g: 0 })?;
    body.push(Instr::Touch {
        p: 1,
        ty: pointer_to_function(alloc)?,
    })?;
    body.push(Instr::Store {
        p: 1,
        a: 0,
        ty: pointer_to_function(alloc)?,
    })?;
    body.push(Instr::AddrG { d: 0, g: 0 })?;
    body.push(Instr::Touch {
        p: 0,
        ty: pointer_to_function(alloc)?,
    })?;
    body.push(Instr::Load {
        d: 1,
        p: 0,
        ty: pointer_to_function(alloc)?,
    })?;
    body.push(Instr::CallInd {
        c: 1,
        args: Items::new(alloc),
        ty: plain_function(alloc),
        s: None,
    })?;
    Ok(())
}

/// `c[0]=t.n; b[1]=5;`.
fn push_accesses(body: &mut InstrList, alloc: Global) -> Result<(), AllocError> {
    body.push(Instr::AddrG { d: 0, g: 1 })?;
    body.push(Instr::PtrConst { d: 1, p: 0, k: 0 })?;
    body.push(Instr::Touch {
        p: 1,
        ty: Ty::Struct(0),
    })?;
    body.push(Instr::Load {
        d: 2,
        p: 1,
        ty: Ty::Int,
    })?;
    body.push(Instr::AddrL { d: 0, v: 1 })?;
    body.push(Instr::Touch {
        p: 0,
        ty: ints(alloc, 1)?,
    })?;
    body.push(Instr::Store {
        p: 0,
        a: 2,
        ty: Ty::Int,
    })?;
    body.push(Instr::AddrL { d: 0, v: 0 })?;
    body.push(Instr::PtrConst { d: 1, p: 0, k: 1 })?;
    body.push(Instr::Const { d: 2, v: 5 })?;
    body.push(Instr::Touch {
        p: 1,
        ty: ints(alloc, 2)?,
    })?;
    body.push(Instr::Store {
        p: 1,
        a: 2,
        ty: Ty::Int,
    })?;
    Ok(())
}

/// The body of `main`, of 23 instructions.
fn body_of_main(alloc: Global) -> Result<InstrList, AllocError> {
    let mut body = Items::new(alloc);
    body.push(Instr::Enter)?;
    push_calls(&mut body, alloc)?;
    push_accesses(&mut body, alloc)?;
    body.push(Instr::Leave)?;
    body.push(Instr::Return { a: None })?;
    Ok(body)
}

/// A function without a frame that returns at once.
fn empty_function(alloc: Global) -> Result<Function, AllocError> {
    let mut body = Items::new(alloc);
    body.push(Instr::Return { a: None })?;
    Ok(Function {
        ty: plain_function(alloc),
        registers: 0,
        slots: 0,
        locals: Items::new(alloc),
        frame_units: 0,
        body,
    })
}

/// `void a(void){} void main(void){int b[2]; int c[1]; h=a; h(); c[0]=t.n; b[1]=5;}`.
fn program(alloc: Global) -> Result<Program, Fail> {
    let mut functions = Items::new(alloc);
    functions.push(empty_function(alloc)?)?;
    functions.push(Function {
        ty: plain_function(alloc),
        registers: 3,
        slots: 0,
        locals: locals(alloc)?,
        frame_units: 3,
        body: body_of_main(alloc)?,
    })?;
    Ok(Program {
        functions,
        globals: globals(alloc)?,
        structs: structs(alloc)?,
        entry: 1,
    })
}

/// Its code.
pub(crate) fn code(alloc: Global) -> Result<Code, Fail> {
    let program = program(alloc)?;
    if !valid(&program) {
        return Err(Fail::from("the program isn't valid"));
    }
    let classes = classes(alloc, &program.structs)?;
    let safe = safe_all(alloc, &program)?;
    Ok(instrument(alloc, &program, &classes, &safe)?)
}
