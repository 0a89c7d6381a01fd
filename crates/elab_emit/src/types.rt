//! Types that instructions carry, and what is asked of them.

ghost use Rattle.std.specs.Prelude.{◌≡◌, Some, IfOk};
ghost use Rattle.c_types.specs.declared.ty.Ty.{out-Ty};
ghost use Rattle.c_types.specs.Kinds.{function_of as spec_function_of};
ghost use Rattle.core_ir.specs.Typed.{element_of};
ghost use Rattle.elab_rows.specs.Values as spec;
ghost use Rattle.elab_emit.specs.inner.Elements.{element_by};

use c_types::{FnTy, Ty, TyList, copy_type, function_of};
use sqlite_items::Items;
use std::alloc::{AllocError, Global};

/// The type of what is called: a function, or a pointer to one.
///
/// # Errors
///
/// `AllocError`, where it is neither.
#[tactic(auto, unfolding(elab_rows::specs::Values::called_type, c_types::specs::Kinds::decay, c_types::specs::Kinds::target_of, c_types::specs::Kinds::function_of))]
pub fn called_type(ty: &Ty) -> Result<&FnTy, AllocError>
    ensures { IfOk result (λ f. f.now ≡ spec.called_type ty.now) }
{
    match ty {
        Ty::Function(function) => Ok(function.get()),
        Ty::Pointer(target) => named_function(target.get()),
        Ty::Array(element, _) => named_function(element.get()),
        _ => Err(AllocError),
    }
}

/// The type of a function, without its kind.
///
/// # Errors
///
/// `AllocError`, where it is no function.
fn named_function(ty: &Ty) -> Result<&FnTy, AllocError>
    ensures { IfOk result (λ f. spec_function_of ty.now ≡ Some f.now) }
{
    match function_of(ty) {
        Some(function) => Ok(function),
        None => Err(AllocError),
    }
}

/// Copies of types.
fn copy_types(alloc: Global, types: &[Ty]) -> Result<TyList, AllocError>
    ensures { IfOk result (λ copies. copies ≡ types.now) }
{
    let mut copies = Items::new(alloc);
    for ty in types {
        copies.push(copy_type(ty)?)?;
    }
    Ok(copies)
}

/// A copy of a function's type.
///
/// # Errors
///
/// `AllocError`, where no memory is left.
pub fn copy_function(alloc: Global, function: &FnTy) -> Result<FnTy, AllocError>
    ensures { IfOk result (λ copy. copy ≡ function.now) }
{
    let result = copy_type(&function.result)?;
    let params = copy_types(alloc, function.params.as_slice())?;
    Ok(FnTy { result, params })
}

/// The innermost element of an array; each other type itself.
#[cycle(innermost)]
#[tactic(auto, using(crate::proofs::Elements::element_is))]
pub(crate) fn innermost(ty: &Ty) -> &Ty
    ensures { result.now ≡ element_of ty.now }
{
    innermost_by(ty)
}

/// The same by the outer form.
#[cycle(innermost)]
fn innermost_by(ty: &Ty) -> &Ty
    ensures { result.now ≡ element_by ty.now (out-Ty ty.now) }
{
    match ty {
        Ty::Array(element, _) => innermost(element.get()),
        _ => ty,
    }
}
