//! Code: the instructions of Core with their types decided.

use c_types::FnTy;
use core_ir::{Arguments, Operator};
use sensitivity::Class;
use sqlite_items::Items;

/// What a type is to loads, stores and conversions.
#[derive(Clone, Copy, Debug, PartialEq, Eq)]
pub enum ScalarKind {
    /// `int`, and what is no scalar.
    Int,
    Char,
    /// A pointer that stands in ordinary memory.
    Regular,
    /// A pointer to a function.
    Code,
    /// Another pointer that stands in the safe store.
    Protected,
}

/// Where the pointer of an indirect call was read: the first instruction of what gave it.
#[derive(Clone, Copy, Debug, PartialEq, Eq)]
pub enum Origin {
    /// A load, whose address this register still has.
    Register(u32),
    /// This slot.
    Slot(u32),
}

/// An instruction of Core with what its types decide in their place. Units of safe locals are numbered through the
/// function, in the order of its locals.
#[derive(Debug, Drop)]
pub enum CodePlace {
    Const {
        d: u32,
        v: i64,
    },
    /// With the global's address and units, and whether pointers to it keep its bounds.
    AddrG {
        d: u32,
        g: u32,
        address: u32,
        units: u32,
        kept: bool,
    },
    /// With the local's offset in the frame and its units, and whether pointers to it keep its bounds.
    AddrL {
        d: u32,
        v: u32,
        offset: u32,
        units: u32,
        kept: bool,
    },
    AddrF {
        d: u32,
        f: u32,
    },
    GetLocal {
        d: u32,
        s: u32,
    },
    SetLocal {
        s: u32,
        a: u32,
    },
    Binary {
        d: u32,
        op: Operator,
        a: u32,
        b: u32,
    },
    Unary {
        d: u32,
        op: Operator,
        a: u32,
    },
    PtrAdd {
        d: u32,
        p: u32,
        i: u32,
        s: u32,
    },
    PtrConst {
        d: u32,
        p: u32,
        k: u32,
    },
    Cast {
        d: u32,
        a: u32,
        from: ScalarKind,
        to: ScalarKind,
    },
    /// The class is that of a pointer to the touch's type. A marked one touches a safe local.
    Touch {
        p: u32,
        class: Class,
        marked: bool,
    },
    /// With the unit, where it is one of a safe local.
    Load {
        d: u32,
        p: u32,
        kind: ScalarKind,
        unit: Option<u32>,
    },
    /// With the unit, where it is one of a safe local.
    Store {
        p: u32,
        a: u32,
        kind: ScalarKind,
        unit: Option<u32>,
    },
    Jump {
        l: u32,
    },
    Branch {
        a: u32,
        l: u32,
    },
    Call {
        f: u32,
        args: Arguments,
        s: Option<u32>,
    },
    CallInd {
        c: u32,
        args: Arguments,
        ty: FnTy,
        s: Option<u32>,
        origin: Origin,
    },
    Return {
        a: Option<u32>,
    },
    Enter,
    Leave,
    Malloc {
        d: u32,
        a: u32,
    },
    Free {
        p: u32,
    },
    Fork {
        d: u32,
    },
    StartArg {
        t: u32,
        a: u32,
    },
    StartFn {
        t: u32,
        f: u32,
    },
    Lock {
        p: u32,
    },
    Unlock {
        p: u32,
    },
    Join {
        t: u32,
    },
    Print {
        a: u32,
    },
    Input {
        d: u32,
        a: u32,
    },
}

/// The places of a function.
pub type CodePlaceList = Items<CodePlace>;

/// A variable of a function's frame object.
#[derive(Clone, Copy, Debug, PartialEq, Eq)]
pub struct CodeLocal {
    /// The units before it in the frame.
    pub offset: u32,
    pub units: u32,
    /// It is kept on the safe stack.
    pub safe: bool,
}

/// The frame locals of a function, in order.
pub type CodeLocalList = Items<CodeLocal>;

/// A function.
#[derive(Debug, Drop)]
pub struct CodeFunction {
    pub ty: FnTy,
    pub registers: u32,
    /// Its parameters are the first.
    pub slots: u32,
    pub locals: CodeLocalList,
    /// The units of its safe locals.
    pub safe_units: u32,
    /// The units of its frame object, 0 where it has none.
    pub frame_units: u32,
    pub body: CodePlaceList,
}

/// Functions in the order of their numbers.
pub type CodeFunctionList = Items<CodeFunction>;

/// The code of a program.
#[derive(Debug, Drop)]
pub struct Code {
    pub functions: CodeFunctionList,
    /// The number of the function in which thread 0 begins.
    pub entry: u32,
}
