//! What the code of a function is made from.

use c_types::{Name, StructTable, Ty};
use sqlite_items::Items;
use tables::Table;

/// Where a local stands.
#[derive(Clone, Copy, Debug, PartialEq, Eq)]
pub enum Standing {
    /// In this slot.
    Slot(u32),
    /// As this local of the frame.
    Frame(u32),
}

/// What the code of a function is made from.
#[derive(Drop)]
pub struct Scope {
    pub structs: StructTable,
    /// The names of the functions, in order of their numbers.
    pub functions: Table<Name>,
    /// The global of the first string: how many global variables there are.
    pub first_string: u32,
    /// Where the function's locals stand.
    pub locals: Items<Standing>,
    /// What the function returns.
    pub result: Ty,
    /// The function has a frame.
    pub has_frame: bool,
    /// Each integer constant expression is one `Const`: in the entry function.
    pub folds: bool,
}
