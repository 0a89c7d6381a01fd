//! The code of an instruction: what its types decide.

ghost use Rattle.std.specs.Prelude.{◌≡◌, IfOk, Some, slice_get};
ghost use Rattle.instrument.specs.inner.Places.{IsDecided, IsGlobal, IsLocal};

use crate::copies::copy_function;
use crate::kinds::{class_of_pointer, keeps_bounds, kind_of};
use c_types::FnTy;
use core_ir::{Arguments, Function, GlobalVar, Instr, Local, Program};
use icode::Site;
use machine::{CodePlace, Origin};
use sensitivity::ClassTable;
use sqlite_items::Items;
use std::alloc::{AllocError, Global};

/// The code of a call of a function by its number.
fn call(alloc: Global, f: u32, args: &Arguments, s: Option<u32>) -> Result<CodePlace, AllocError>
    ensures { IfOk result (λ place. place ≡ CodePlace.Call f args.now s) }
{
    let args = Items::from_slice(alloc, args.as_slice())?;
    Ok(CodePlace::Call { f, args, s })
}

/// The code of an indirect call.
fn call_indirect(
    alloc: Global,
    c: u32,
    args: &Arguments,
    ty: &FnTy,
    s: Option<u32>,
    origin: Origin,
) -> Result<CodePlace, AllocError>
    ensures { IfOk result (λ place. place ≡ CodePlace.CallInd c args.now ty.now s origin) }
{
    let args = Items::from_slice(alloc, args.as_slice())?;
    let ty = copy_function(alloc, ty)?;
    Ok(CodePlace::CallInd {
        c,
        args,
        ty,
        s,
        origin,
    })
}

/// The code of the address of this global.
fn global_code(classes: &ClassTable, d: u32, g: u32, variable: &GlobalVar) -> CodePlace
    ensures { IsGlobal classes.now d g (Some variable.now) result }
{
    CodePlace::AddrG {
        d,
        g,
        address: variable.address,
        units: variable.units,
        kept: keeps_bounds(classes, &variable.ty),
    }
}

/// The code of a global's address.
fn global(classes: &ClassTable, program: &Program, d: u32, g: u32) -> CodePlace
    ensures { IsGlobal classes.now d g (slice_get program.now.globals g) result }
{
    match program.globals.get(g as usize) {
        Some(variable) => global_code(classes, d, g, variable),
        None => CodePlace::AddrG {
            d,
            g,
            address: 0,
            units: 0,
            kept: false,
        },
    }
}

/// The code of the address of this frame local.
fn local_code(classes: &ClassTable, d: u32, v: u32, variable: &Local) -> CodePlace
    ensures { IsLocal classes.now d v (Some variable.now) result }
{
    CodePlace::AddrL {
        d,
        v,
        offset: variable.offset,
        units: variable.units,
        kept: keeps_bounds(classes, &variable.ty),
    }
}

/// The code of a frame local's address.
fn local(classes: &ClassTable, function: &Function, d: u32, v: u32) -> CodePlace
    ensures { IsLocal classes.now d v (slice_get function.now.locals v) result }
{
    match function.locals.get(v as usize) {
        Some(variable) => local_code(classes, d, v, variable),
        None => CodePlace::AddrL {
            d,
            v,
            offset: 0,
            units: 0,
            kept: false,
        },
    }
}

/// The code of an instruction that stands at this site.
///
/// # Errors
///
/// `AllocError`, where no memory is left.
pub(crate) fn decide(
    alloc: Global,
    classes: &ClassTable,
    program: &Program,
    function: &Function,
    instr: &Instr,
    site: Site,
) -> Result<CodePlace, AllocError>
    ensures { IfOk result (IsDecided program.now function.now classes.now site instr.now) }
{
    match instr {
        Instr::Const { d, v } => Ok(CodePlace::Const { d: *d, v: *v }),
        Instr::AddrG { d, g } => Ok(global(classes, program, *d, *g)),
        Instr::AddrL { d, v } => Ok(local(classes, function, *d, *v)),
        Instr::AddrF { d, f } => Ok(CodePlace::AddrF { d: *d, f: *f }),
        Instr::GetLocal { d, s } => Ok(CodePlace::GetLocal { d: *d, s: *s }),
        Instr::SetLocal { s, a } => Ok(CodePlace::SetLocal { s: *s, a: *a }),
        Instr::Binary { d, op, a, b } => Ok(CodePlace::Binary {
            d: *d,
            op: *op,
            a: *a,
            b: *b,
        }),
        Instr::Unary { d, op, a } => Ok(CodePlace::Unary {
            d: *d,
            op: *op,
            a: *a,
        }),
        Instr::PtrAdd { d, p, i, s } => Ok(CodePlace::PtrAdd {
            d: *d,
            p: *p,
            i: *i,
            s: *s,
        }),
        Instr::PtrConst { d, p, k } => Ok(CodePlace::PtrConst {
            d: *d,
            p: *p,
            k: *k,
        }),
        Instr::Cast { d, a, from, to } => Ok(CodePlace::Cast {
            d: *d,
            a: *a,
            from: kind_of(classes, from),
            to: kind_of(classes, to),
        }),
        Instr::Touch { p, ty } => Ok(CodePlace::Touch {
            p: *p,
            class: class_of_pointer(classes, ty),
            marked: site.unit.is_some(),
        }),
        Instr::Load { d, p, ty } => Ok(CodePlace::Load {
            d: *d,
            p: *p,
            kind: kind_of(classes, ty),
            unit: site.unit,
        }),
        Instr::Store { p, a, ty } => Ok(CodePlace::Store {
            p: *p,
            a: *a,
            kind: kind_of(classes, ty),
            unit: site.unit,
        }),
        Instr::Jump { l } => Ok(CodePlace::Jump { l: *l }),
        Instr::Branch { a, l } => Ok(CodePlace::Branch { a: *a, l: *l }),
        Instr::Call { f, args, s } => call(alloc, *f, args, *s),
        Instr::CallInd { c, args, ty, s } => { call_indirect(alloc, *c, args, ty, *s, site.origin) }
        Instr::Return { a } => Ok(CodePlace::Return { a: *a }),
        Instr::Enter => Ok(CodePlace::Enter),
        Instr::Leave => Ok(CodePlace::Leave),
        Instr::Malloc { d, a } => Ok(CodePlace::Malloc { d: *d, a: *a }),
        Instr::Free { p } => Ok(CodePlace::Free { p: *p }),
        Instr::Fork { d } => Ok(CodePlace::Fork { d: *d }),
        Instr::StartArg { t, a } => Ok(CodePlace::StartArg { t: *t, a: *a }),
        Instr::StartFn { t, f } => Ok(CodePlace::StartFn { t: *t, f: *f }),
        Instr::Lock { p } => Ok(CodePlace::Lock { p: *p }),
        Instr::Unlock { p } => Ok(CodePlace::Unlock { p: *p }),
        Instr::Join { t } => Ok(CodePlace::Join { t: *t }),
        Instr::Print { a } => Ok(CodePlace::Print { a: *a }),
        Instr::Input { d, a } => Ok(CodePlace::Input { d: *d, a: *a }),
    }
}
