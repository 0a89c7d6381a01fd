//! Types. What a type points to is shared by its copies.

ghost use Rattle.std.specs.Prelude.{◌≡◌, IfOk};

use shared::Shared;
use sqlite_items::Items;
use std::alloc::AllocError;

/// A type of the language.
#[derive(Debug, Drop)]
#[cycle(types)]
pub enum Ty {
    Int,
    Char,
    Void,
    /// By its number in the table of structs.
    Struct(u32),
    Pointer(Shared<Ty>),
    /// The element, and how many of them.
    Array(Shared<Ty>, u32),
    Function(Shared<FnTy>),
}

/// The type of a function.
#[derive(Debug, Drop)]
#[cycle(types)]
pub struct FnTy {
    pub result: Ty,
    pub params: TyList,
}

/// Types in order.
pub type TyList = Items<Ty>;

/// A copy that equals its source. It shares what the source points to, so it takes the same time
/// for every type.
///
/// # Errors
///
/// `AllocError`, where the owners of what is shared can't be counted any more.
pub fn copy_type(ty: &Ty) -> Result<Ty, AllocError>
    ensures { IfOk result (λ copy. copy ≡ ty.now) }
{
    match ty {
        Ty::Int => Ok(Ty::Int),
        Ty::Char => Ok(Ty::Char),
        Ty::Void => Ok(Ty::Void),
        Ty::Struct(number) => Ok(Ty::Struct(*number)),
        Ty::Pointer(target) => Ok(Ty::Pointer(target.share()?)),
        Ty::Array(element, bound) => Ok(Ty::Array(element.share()?, *bound)),
        Ty::Function(function) => Ok(Ty::Function(function.share()?)),
    }
}
