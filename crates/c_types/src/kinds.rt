//! The kinds of types, and what a type becomes where its value is used.

ghost use Rattle.std.specs.Prelude.{◌≡◌, IfOk};
ghost use Rattle.std.specs.Option.{option_copied};
ghost use Rattle.c_types.specs.Kinds as spec;

use crate::ty::{FnTy, Ty, copy_type};
use shared::Shared;
use std::alloc::{AllocError, Global};

/// Whether it is `int` or `char`.
#[tactic(auto, unfolding(crate::specs::Kinds::is_integer))]
pub fn is_integer(ty: &Ty) -> bool
    ensures { result ≡ spec.is_integer ty.now }
{
    matches!(ty, Ty::Int | Ty::Char)
}

/// Whether it is an integer or a pointer.
#[tactic(auto, unfolding(crate::specs::Kinds::is_scalar))]
pub fn is_scalar(ty: &Ty) -> bool
    ensures { result ≡ spec.is_scalar ty.now }
{
    matches!(ty, Ty::Int | Ty::Char | Ty::Pointer(_))
}

/// Whether it is `void`.
#[tactic(auto, unfolding(crate::specs::Kinds::is_void))]
pub fn is_void(ty: &Ty) -> bool
    ensures { result ≡ spec.is_void ty.now }
{
    matches!(ty, Ty::Void)
}

/// Whether it is a function.
#[tactic(auto, unfolding(crate::specs::Kinds::is_function))]
pub fn is_function(ty: &Ty) -> bool
    ensures { result ≡ spec.is_function ty.now }
{
    matches!(ty, Ty::Function(_))
}

/// What it becomes where its value is used: an array the pointer to its element, a function the
/// pointer to it, and each other type itself.
///
/// # Errors
///
/// `AllocError`, where no memory is left.
#[tactic(auto, unfolding(crate::specs::Kinds::decay))]
pub fn decay(alloc: Global, ty: &Ty) -> Result<Ty, AllocError>
    ensures { IfOk result (λ decayed. decayed ≡ spec.decay ty.now) }
{
    match ty {
        Ty::Array(element, _) => Ok(Ty::Pointer(element.share()?)),
        Ty::Function(_) => Ok(Ty::Pointer(Shared::new(alloc, copy_type(ty)?)?)),
        _ => copy_type(ty),
    }
}

/// Whether it is `char`.
#[tactic(auto, unfolding(crate::specs::Kinds::is_char))]
pub fn is_char(ty: &Ty) -> bool
    ensures { result ≡ spec.is_char ty.now }
{
    matches!(ty, Ty::Char)
}

/// What a pointer points to.
#[tactic(auto, unfolding(crate::specs::Kinds::target_of))]
pub fn target_of(ty: &Ty) -> Option<&Ty>
    ensures { option_copied result ≡ spec.target_of ty.now }
{
    match ty {
        Ty::Pointer(target) => Some(target.get()),
        _ => None,
    }
}

/// The type of a function, without its kind.
#[tactic(auto, unfolding(crate::specs::Kinds::function_of))]
pub fn function_of(ty: &Ty) -> Option<&FnTy>
    ensures { option_copied result ≡ spec.function_of ty.now }
{
    match ty {
        Ty::Function(function) => Some(function.get()),
        _ => None,
    }
}

/// The number of a struct.
#[tactic(auto, unfolding(crate::specs::Kinds::struct_of))]
pub fn struct_of(ty: &Ty) -> Option<u32>
    ensures { result ≡ spec.struct_of ty.now }
{
    match ty {
        Ty::Struct(number) => Some(*number),
        _ => None,
    }
}

/// The element of an array.
#[tactic(auto, unfolding(crate::specs::Kinds::element_of))]
pub fn element_of(ty: &Ty) -> Option<&Ty>
    ensures { option_copied result ≡ spec.element_of ty.now }
{
    match ty {
        Ty::Array(element, _) => Some(element.get()),
        _ => None,
    }
}

/// The bound of an array.
#[tactic(auto, unfolding(crate::specs::Kinds::bound_of))]
pub fn bound_of(ty: &Ty) -> Option<u32>
    ensures { result ≡ spec.bound_of ty.now }
{
    match ty {
        Ty::Array(_, bound) => Some(*bound),
        _ => None,
    }
}

/// Whether it is a pointer.
#[tactic(auto, unfolding(crate::specs::Kinds::is_pointer, crate::specs::Kinds::target_of))]
pub fn is_pointer(ty: &Ty) -> bool
    ensures { result ≡ spec.is_pointer ty.now }
{
    matches!(ty, Ty::Pointer(_))
}

/// Whether it is a pointer to `void`.
#[tactic(auto, unfolding(crate::specs::Kinds::is_void_pointer))]
pub fn is_void_pointer(ty: &Ty) -> bool
    ensures { result ≡ spec.is_void_pointer ty.now }
{
    match target_of(ty) {
        Some(target) => is_void(target),
        None => false,
    }
}

/// Whether it is a pointer whose target is no function.
#[tactic(auto, unfolding(crate::specs::Kinds::is_object_pointer))]
pub fn is_object_pointer(ty: &Ty) -> bool
    ensures { result ≡ spec.is_object_pointer ty.now }
{
    match target_of(ty) {
        Some(target) => !is_function(target),
        None => false,
    }
}

/// Whether it is a struct.
#[tactic(auto, unfolding(crate::specs::Kinds::is_struct, crate::specs::Kinds::struct_of))]
pub fn is_struct(ty: &Ty) -> bool
    ensures { result ≡ spec.is_struct ty.now }
{
    matches!(ty, Ty::Struct(_))
}

/// Whether it is an array.
#[tactic(auto, unfolding(crate::specs::Kinds::is_array, crate::specs::Kinds::element_of))]
pub fn is_array(ty: &Ty) -> bool
    ensures { result ≡ spec.is_array ty.now }
{
    matches!(ty, Ty::Array(_, _))
}
