//! The functions that the language has from the start.

ghost use Rattle.std.specs.Prelude.{◌≡◌, [], ◌∷◌, IfOk};
ghost use Rattle.c_scope.specs.BuiltIns as spec;
ghost use Rattle.c_layers.specs.Shapes.{function as function_type};

use c_typed::BuiltIn;
use c_types::{FnTy, Ty};
use shared::Shared;
use sqlite_items::Items;
use std::alloc::{AllocError, Global};

/// The built-in function of this name.
#[tactic(auto, unfolding(crate::specs::BuiltIns::built_in_named))]
pub fn built_in_named(name: &[u8]) -> Option<BuiltIn>
    ensures { result ≡ spec.built_in_named name.now }
{
    if name == b"spawn".as_slice() {
        return Some(BuiltIn::Spawn);
    }
    if name == b"join".as_slice() {
        return Some(BuiltIn::Join);
    }
    if name == b"lock".as_slice() {
        return Some(BuiltIn::Lock);
    }
    if name == b"unlock".as_slice() {
        return Some(BuiltIn::Unlock);
    }
    if name == b"print".as_slice() {
        return Some(BuiltIn::Print);
    }
    if name == b"input".as_slice() {
        return Some(BuiltIn::Input);
    }
    if name == b"malloc".as_slice() {
        return Some(BuiltIn::Malloc);
    }
    if name == b"free".as_slice() {
        return Some(BuiltIn::Free);
    }
    None
}

/// The type of a built-in function.
///
/// # Errors
///
/// `AllocError`, where no memory is left.
#[tactic(auto, unfolding(crate::specs::BuiltIns::built_in_type))]
pub fn built_in_type(alloc: Global, built_in: BuiltIn) -> Result<FnTy, AllocError>
    ensures { IfOk result (λ function. function ≡ spec.built_in_type built_in) }
{
    match built_in {
        BuiltIn::Spawn => spawn_type(alloc),
        BuiltIn::Join | BuiltIn::Print => of_one(alloc, Ty::Void, Ty::Int),
        BuiltIn::Lock | BuiltIn::Unlock => {
            of_one(alloc, Ty::Void, Ty::Pointer(Shared::new(alloc, Ty::Int)?))
        }
        BuiltIn::Input => of_one(alloc, Ty::Int, Ty::Int),
        BuiltIn::Malloc => of_one(alloc, void_pointer(alloc)?, Ty::Int),
        BuiltIn::Free => of_one(alloc, Ty::Void, void_pointer(alloc)?),
    }
}

/// `void *`.
fn void_pointer(alloc: Global) -> Result<Ty, AllocError>
    ensures { IfOk result (λ pointer. pointer ≡ spec.void_pointer) }
{
    Ok(Ty::Pointer(Shared::new(alloc, Ty::Void)?))
}

/// A function with one parameter.
fn of_one(alloc: Global, result_type: Ty, param: Ty) -> Result<FnTy, AllocError>
    ensures { IfOk result (λ function. function ≡ function_type result_type (param ∷ [])) }
{
    let mut params = Items::new(alloc);
    params.push(param)?;
    Ok(FnTy {
        result: result_type,
        params,
    })
}

/// The type of `spawn`: a function that a thread runs, and its argument.
fn spawn_type(alloc: Global) -> Result<FnTy, AllocError>
    ensures { IfOk result (λ function. function ≡ spec.spawn_type) }
{
    let run = of_one(alloc, Ty::Void, void_pointer(alloc)?)?;
    let mut params = Items::new(alloc);
    params.push(Ty::Pointer(Shared::new(alloc, Ty::Function(Shared::new(alloc, run)?))?))?;
    params.push(void_pointer(alloc)?)?;
    Ok(FnTy {
        result: Ty::Int,
        params,
    })
}
