//! Programs of Core.

use crate::instr::InstrList;
use c_types::{FnTy, StructTable, Ty};
use sqlite_items::Items;

/// A variable of a function's frame object, by its place in it.
#[derive(Debug, Drop)]
pub struct Local {
    pub ty: Ty,
    /// The units before it in the frame.
    pub offset: u32,
    pub units: u32,
}

/// The frame locals of a function, in order.
pub type LocalList = Items<Local>;

/// A function.
#[derive(Debug, Drop)]
pub struct Function {
    pub ty: FnTy,
    /// How many registers its full expressions use at most.
    pub registers: u32,
    /// How many slots it has; its parameters are the first.
    pub slots: u32,
    pub locals: LocalList,
    /// The units of its frame object, 0 where it has none.
    pub frame_units: u32,
    pub body: InstrList,
}

/// Functions in the order of their numbers.
pub type FunctionList = Items<Function>;

/// A global variable or a string.
#[derive(Debug, Drop)]
pub struct GlobalVar {
    pub ty: Ty,
    pub address: u32,
    pub units: u32,
}

/// Globals in order of declaration, and strings behind them.
pub type GlobalList = Items<GlobalVar>;

/// A program.
#[derive(Debug, Drop)]
pub struct Program {
    pub functions: FunctionList,
    pub globals: GlobalList,
    pub structs: StructTable,
    /// The number of the function in which thread 0 begins.
    pub entry: u32,
}
