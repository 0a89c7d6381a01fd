//! What operators do with their operands.

use c_types::Ty;
use core_ir::Operator;

/// What stands behind the operands of an operator; of pointers with the units of what they point to.
#[derive(Clone, Copy, Debug, PartialEq, Eq)]
pub enum Last {
    Binary(Operator),
    PointerPlus(u32),
    PlusPointer(u32),
    PointerMinus(u32),
    PointerDifference(u32),
}

/// What an operator does with its operands.
#[derive(Drop)]
pub struct Operation {
    /// To which type the first operand is converted.
    pub first: Ty,
    pub second: Ty,
    pub last: Last,
}
