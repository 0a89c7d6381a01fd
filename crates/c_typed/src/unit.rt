//! Items and whole sources with their types.

use super::expression::{Declared, TypedSpec};
use super::statement::{TypedBlock, TypedDecl};
use c_types::{Name, StructTable, Ty};
use sqlite_items::Items;

/// A parameter or variable of a function.
#[derive(Drop)]
pub struct Local {
    pub name: Name,
    pub ty: Ty,
    /// It is somewhere itself the operand of a unary `&`.
    pub is_addressed: bool,
}

/// A function's definition.
#[derive(Drop)]
pub struct TypedFn {
    pub spec: TypedSpec,
    pub declared: Declared,
    /// The parameters, then the other variables in order of declaration.
    pub locals: Items<Local>,
    pub block: TypedBlock,
}

/// An item of a source.
#[derive(Drop)]
pub enum TypedItem {
    Decl(TypedDecl),
    Typedef(TypedSpec, Items<Declared>),
    Function(TypedFn),
}

/// A whole source with its types.
#[derive(Drop)]
pub struct Typed {
    pub items: Items<TypedItem>,
    /// The structs in order of their tags' first appearance.
    pub structs: StructTable,
    /// The bytes of each string object, without the final 0, in order of appearance.
    pub strings: Items<Items<u8>>,
}
