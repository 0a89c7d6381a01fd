//! Code that was built by hand.

use c_types::{FnTy, Ty};
use machine::{Code, CodeFunction, CodeLocal, CodePlace, Origin, ScalarKind};
use sensitivity::Class;
use shared::Shared;
use sqlite_items::Items;
use std::alloc::{AllocError, Global};

/// A function without parameters that gives nothing, with so many registers and no frame.
fn function(
    alloc: Global,
    registers: u32,
    body: Vec<CodePlace>,
) -> Result<CodeFunction, AllocError> {
    Ok(CodeFunction {
        ty: plain(alloc),
        registers,
        slots: 0,
        locals: Items::new(alloc),
        safe_units: 0,
        frame_units: 0,
        body: Items::from_vec(body),
    })
}

/// `void (void)`
fn plain(alloc: Global) -> FnTy {
    FnTy {
        result: Ty::Void,
        params: Items::new(alloc),
    }
}

/// `void (void*)`
fn start(alloc: Global) -> Result<FnTy, AllocError> {
    let params = vec![in alloc; Ty::Pointer(Shared::new(alloc, Ty::Void)?)]?;
    Ok(FnTy {
        result: Ty::Void,
        params: Items::from_vec(params),
    })
}

/// A call of a function without arguments.
fn call(alloc: Global, f: u32) -> CodePlace {
    CodePlace::Call {
        f,
        args: Items::new(alloc),
        s: None,
    }
}

/// `void a(void){print(1);}`
fn printer(alloc: Global, v: i64) -> Result<CodeFunction, AllocError> {
    let body = vec![in alloc;
        CodePlace::Const { d: 0, v },
        CodePlace::Print { a: 0 },
        CodePlace::Return { a: None },
    ]?;
    function(alloc, 1, body)
}

/// An entry function that calls this one.
fn entry(alloc: Global, main: u32) -> Result<CodeFunction, AllocError> {
    let body = vec![in alloc; call(alloc, main), CodePlace::Return { a: None }]?;
    function(alloc, 0, body)
}

/// The address of global `h`, a pointer to a function.
fn address_of_h(d: u32) -> CodePlace {
    CodePlace::AddrG {
        d,
        g: 0,
        address: 128,
        units: 1,
        kept: true,
    }
}

fn touch(p: u32) -> CodePlace {
    CodePlace::Touch {
        p,
        class: Class::Sensitive,
        marked: false,
    }
}

/// The body of `int main(void){h=a;h();return 0;}`, where `a` is function 0.
fn main_body(alloc: Global) -> Result<Vec<CodePlace>, AllocError> {
    let body = vec![in alloc;
        address_of_h(0),
        CodePlace::AddrF { d: 1, f: 0 },
        touch(0),
        CodePlace::Store {
            p: 0,
            a: 1,
            kind: ScalarKind::Code,
            unit: None,
        },
        address_of_h(0),
        touch(0),
        CodePlace::Load {
            d: 1,
            p: 0,
            kind: ScalarKind::Code,
            unit: None,
        },
        CodePlace::CallInd {
            c: 1,
            args: Items::new(alloc),
            ty: plain(alloc),
            s: None,
            origin: Origin::Register(0),
        },
        CodePlace::Const { d: 0, v: 0 },
        CodePlace::Return { a: Some(0) },
        CodePlace::Return { a: None },
    ]?;
    Ok(body)
}

/// The code of `void (*h)(void); void a(void){print(1);} void b(void){print(2);} int main(void){h=a;h();return 0;}`.
pub(crate) fn called_through_a_global(alloc: Global) -> Result<Code, AllocError> {
    let functions = vec![in alloc;
        printer(alloc, 1)?,
        printer(alloc, 2)?,
        CodeFunction {
            ty: FnTy {
                result: Ty::Int,
                params: Items::new(alloc),
            },
            registers: 2,
            slots: 0,
            locals: Items::new(alloc),
            safe_units: 0,
            frame_units: 0,
            body: Items::from_vec(main_body(alloc)?),
        },
        entry(alloc, 2)?,
    ]?;
    Ok(Code {
        functions: Items::from_vec(functions),
        entry: 3,
    })
}

/// The code of `void r(void){r();} int main(void){r();return 0;}` without its `main`: the entry function calls `r`.
pub(crate) fn calls_itself(alloc: Global) -> Result<Code, AllocError> {
    let body = vec![in alloc; call(alloc, 0), CodePlace::Return { a: None }]?;
    let functions = vec![in alloc; function(alloc, 0, body)?, entry(alloc, 0)?]?;
    Ok(Code {
        functions: Items::from_vec(functions),
        entry: 1,
    })
}

/// The code of `void w(void*x){}` beside an entry function that returns.
pub(crate) fn started(alloc: Global) -> Result<Code, AllocError> {
    let body = vec![in alloc; CodePlace::Return { a: None }]?;
    let worker = CodeFunction {
        ty: start(alloc)?,
        registers: 0,
        slots: 1,
        locals: Items::new(alloc),
        safe_units: 0,
        frame_units: 0,
        body: Items::from_vec(body),
    };
    let body = vec![in alloc; CodePlace::Return { a: None }]?;
    let functions = vec![in alloc; worker, function(alloc, 0, body)?]?;
    Ok(Code {
        functions: Items::from_vec(functions),
        entry: 1,
    })
}

/// The code of an entry function that draws a frame of two units, divides by 0 and would leave it.
pub(crate) fn framed(alloc: Global) -> Result<Code, AllocError> {
    let body = vec![in alloc;
        CodePlace::Enter,
        CodePlace::Const { d: 0, v: 0 },
        CodePlace::Binary {
            d: 0,
            op: core_ir::Operator::Divide,
            a: 0,
            b: 0,
        },
        CodePlace::Leave,
        CodePlace::Return { a: None },
    ]?;
    let locals = vec![in alloc;
        CodeLocal {
            offset: 0,
            units: 2,
            safe: true,
        },
    ]?;
    let functions = vec![in alloc;
        CodeFunction {
            ty: plain(alloc),
            registers: 1,
            slots: 0,
            locals: Items::from_vec(locals),
            safe_units: 2,
            frame_units: 2,
            body: Items::from_vec(body),
        },
    ]?;
    Ok(Code {
        functions: Items::from_vec(functions),
        entry: 0,
    })
}
