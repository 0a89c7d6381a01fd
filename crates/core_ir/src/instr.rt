//! The instructions of Core.

use crate::operator::Operator;
use c_types::{FnTy, Ty};
use sqlite_items::Items;

/// The registers of a call's arguments, in order.
pub type Arguments = Items<u32>;

/// An instruction. `d` is the register that it defines; `a`, `b`, `c`, `f` of `StartFn`, `i`, `p` and `t`
/// are registers that it uses; `s` is a slot, but in `PtrAdd` a number of units; `l` is a place of the
/// same function.
#[derive(Debug, Drop)]
pub enum Instr {
    /// A number.
    Const {
        d: u32,
        v: i64,
    },
    /// The address of global `g`.
    AddrG {
        d: u32,
        g: u32,
    },
    /// The address of frame local `v`.
    AddrL {
        d: u32,
        v: u32,
    },
    /// Function `f`.
    AddrF {
        d: u32,
        f: u32,
    },
    GetLocal {
        d: u32,
        s: u32,
    },
    SetLocal {
        s: u32,
        a: u32,
    },
    Binary {
        d: u32,
        op: Operator,
        a: u32,
        b: u32,
    },
    Unary {
        d: u32,
        op: Operator,
        a: u32,
    },
    /// `p` and `i` times `s` units.
    PtrAdd {
        d: u32,
        p: u32,
        i: u32,
        s: u32,
    },
    /// `p` and `k` units.
    PtrConst {
        d: u32,
        p: u32,
        k: u32,
    },
    /// A conversion.
    Cast {
        d: u32,
        a: u32,
        from: Ty,
        to: Ty,
    },
    /// A test of the address that the access behind it uses. `ty` is the type of the variable, or of
    /// what the pointer points to.
    Touch {
        p: u32,
        ty: Ty,
    },
    Load {
        d: u32,
        p: u32,
        ty: Ty,
    },
    Store {
        p: u32,
        a: u32,
        ty: Ty,
    },
    Jump {
        l: u32,
    },
    /// To `l` where `a` is 0.
    Branch {
        a: u32,
        l: u32,
    },
    /// A call of function `f`; slot `s` receives the result.
    Call {
        f: u32,
        args: Arguments,
        s: Option<u32>,
    },
    /// A call of a function of type `ty`.
    CallInd {
        c: u32,
        args: Arguments,
        ty: FnTy,
        s: Option<u32>,
    },
    Return {
        a: Option<u32>,
    },
    /// Draws the frame's object.
    Enter,
    /// Ends the frame's object.
    Leave,
    Malloc {
        d: u32,
        a: u32,
    },
    Free {
        p: u32,
    },
    /// A new thread's number.
    Fork {
        d: u32,
    },
    /// The argument of thread `t`.
    StartArg {
        t: u32,
        a: u32,
    },
    /// The function of thread `t`, which starts it.
    StartFn {
        t: u32,
        f: u32,
    },
    Lock {
        p: u32,
    },
    Unlock {
        p: u32,
    },
    Join {
        t: u32,
    },
    Print {
        a: u32,
    },
    Input {
        d: u32,
        a: u32,
    },
}

/// Instructions in the order of their places.
pub type InstrList = Items<Instr>;
