//! What converts to what.

ghost use Rattle.std.specs.Prelude.{◌≡◌, IfOk};
ghost use Rattle.c_operators.specs.Operators as spec;
ghost use Rattle.c_types.specs.Units as units;

use c_typed::{Constant, TypedExpr};
use c_types::{
    StructTable, Ty, copy_type, decay, is_integer, is_object_pointer, is_pointer, is_scalar,
    is_struct, is_void_pointer, same, target_of,
};
use std::alloc::{AllocError, Global};

/// The type of an expression's value: an array or a function decays.
///
/// # Errors
///
/// `AllocError`, where no memory is left.
#[tactic(auto, unfolding(crate::specs::Operators::value_type, crate::specs::Operators::type_of))]
pub fn value_type(alloc: Global, e: &TypedExpr) -> Result<Ty, AllocError>
    ensures { IfOk result (λ ty. ty ≡ spec.value_type e.now) }
{
    decay(alloc, &e.ty)
}

/// Whether an expression's value is an integer or a pointer.
#[tactic(auto, unfolding(crate::specs::Operators::is_scalar_value, crate::specs::Operators::value_type, crate::specs::Operators::type_of, c_types::specs::Kinds::is_scalar, c_types::specs::Kinds::decay))]
pub fn is_scalar_value(e: &TypedExpr) -> bool
    ensures { result ≡ spec.is_scalar_value e.now }
{
    matches!(
        &e.ty,
        Ty::Int | Ty::Char | Ty::Pointer(_) | Ty::Array(_, _) | Ty::Function(_)
    )
}

/// Whether an expression's value is an integer.
#[tactic(auto, unfolding(crate::specs::Operators::is_integer_value, crate::specs::Operators::value_type, crate::specs::Operators::type_of, c_types::specs::Kinds::is_integer, c_types::specs::Kinds::decay))]
pub fn is_integer_value(e: &TypedExpr) -> bool
    ensures { result ≡ spec.is_integer_value e.now }
{
    matches!(&e.ty, Ty::Int | Ty::Char)
}

/// Whether it is a pointer that can be counted up and indexed: its target has units.
#[tactic(auto, unfolding(crate::specs::Operators::is_counted))]
pub fn is_counted(structs: &StructTable, ty: &Ty) -> bool
    ensures { result ≡ spec.is_counted structs.now ty.now }
{
    match target_of(ty) {
        Some(target) => has_units(structs, target),
        None => false,
    }
}

/// Whether a type has units that aren't refused.
#[tactic(auto, unfolding(c_types::specs::Units::has_units))]
pub fn has_units(structs: &StructTable, ty: &Ty) -> bool
    ensures { result ≡ units.has_units structs.now ty.now }
{
    structs.units(ty).is_ok()
}

/// Whether it is an integer constant expression of value 0.
#[tactic(auto, unfolding(crate::specs::Operators::is_null, crate::specs::Operators::constant_of))]
pub fn is_null(e: &TypedExpr) -> bool
    ensures { result ≡ spec.is_null e.now }
{
    matches!(e.constant, Constant::Value(0))
}

/// Whether each value of the one type converts to the other without a cast.
#[tactic(auto, unfolding(crate::specs::Operators::type_converts))]
pub fn type_converts(from: &Ty, to: &Ty) -> bool
    ensures { result ≡ spec.type_converts from.now to.now }
{
    same(from, to)
        || (is_integer(from) && is_integer(to))
        || (is_void_pointer(from) && is_object_pointer(to))
        || (is_object_pointer(from) && is_void_pointer(to))
}

/// Whether an expression's value converts to the type without a cast.
///
/// # Errors
///
/// `AllocError`, where no memory is left.
#[tactic(auto, unfolding(crate::specs::Operators::converts))]
pub fn converts(alloc: Global, e: &TypedExpr, to: &Ty) -> Result<bool, AllocError>
    ensures { IfOk result (λ converts. converts ≡ spec.converts e.now to.now) }
{
    Ok(type_converts(&value_type(alloc, e)?, to) || (is_null(e) && is_pointer(to)))
}

/// Whether a target of the type can take a value.
#[tactic(auto, unfolding(crate::specs::Operators::takes_value))]
pub fn takes_value(ty: &Ty) -> bool
    ensures { result ≡ spec.takes_value ty.now }
{
    is_scalar(ty) || is_struct(ty)
}
