//! What binary operators and `?:` take and give.

ghost use Rattle.std.specs.Prelude.{◌≡◌, IfOk};
ghost use Rattle.c_operators.specs.Operators as spec;

use crate::conversions::{is_counted, is_null, value_type};
use c_tree::BinaryOperator;
use c_typed::TypedExpr;
use c_types::{
    StructTable, Ty, copy_type, is_integer, is_pointer, is_scalar, is_void_pointer, same,
};
use std::alloc::{AllocError, Global};

/// `int` of two integers.
#[tactic(auto, unfolding(crate::specs::Operators::integers))]
fn integers(a: &Ty, b: &Ty) -> Option<Ty>
    ensures { result ≡ spec.integers a.now b.now }
{
    if is_integer(a) && is_integer(b) {
        return Some(Ty::Int);
    }
    None
}

/// The type of a sum: of two integers, or of a counted pointer and an integer in either order.
#[tactic(auto, unfolding(crate::specs::Operators::added, crate::specs::Operators::integers))]
fn added(structs: &StructTable, a: &Ty, b: &Ty) -> Result<Option<Ty>, AllocError>
    ensures { IfOk result (λ ty. ty ≡ spec.added structs.now a.now b.now) }
{
    if is_integer(a) && is_integer(b) {
        return Ok(Some(Ty::Int));
    }
    if is_counted(structs, a) && is_integer(b) {
        return Ok(Some(copy_type(a)?));
    }
    if is_integer(a) && is_counted(structs, b) {
        return Ok(Some(copy_type(b)?));
    }
    Ok(None)
}

/// The type of a difference: of two integers, of a counted pointer and an integer, or of two same
/// counted pointers.
#[tactic(auto, unfolding(crate::specs::Operators::subtracted, crate::specs::Operators::integers))]
fn subtracted(structs: &StructTable, a: &Ty, b: &Ty) -> Result<Option<Ty>, AllocError>
    ensures { IfOk result (λ ty. ty ≡ spec.subtracted structs.now a.now b.now) }
{
    if is_integer(a) && is_integer(b) {
        return Ok(Some(Ty::Int));
    }
    if is_counted(structs, a) && is_integer(b) {
        return Ok(Some(copy_type(a)?));
    }
    if is_counted(structs, a) && same(a, b) {
        return Ok(Some(Ty::Int));
    }
    Ok(None)
}

/// `int` of two integers or of two same pointers.
#[tactic(auto, unfolding(crate::specs::Operators::ordered))]
fn ordered(a: &Ty, b: &Ty) -> Option<Ty>
    ensures { result ≡ spec.ordered a.now b.now }
{
    if (is_integer(a) && is_integer(b)) || (is_pointer(a) && same(a, b)) {
        return Some(Ty::Int);
    }
    None
}

/// `int` of two scalars.
#[tactic(auto, unfolding(crate::specs::Operators::tested))]
fn tested(a: &Ty, b: &Ty) -> Option<Ty>
    ensures { result ≡ spec.tested a.now b.now }
{
    if is_scalar(a) && is_scalar(b) {
        return Some(Ty::Int);
    }
    None
}

/// The type to which two values are converted to be compared; each type with whether its value is a
/// constant 0.
#[tactic(auto, unfolding(crate::specs::Operators::common_type, crate::specs::Operators::integers))]
fn common_type(a: &Ty, a_is_null: bool, b: &Ty, b_is_null: bool) -> Result<Option<Ty>, AllocError>
    ensures { IfOk result (λ ty. ty ≡ spec.common_type a.now a_is_null b.now b_is_null) }
{
    if is_integer(a) && is_integer(b) {
        return Ok(Some(Ty::Int));
    }
    if is_pointer(a) && same(a, b) {
        return Ok(Some(copy_type(a)?));
    }
    if is_pointer(a) && is_void_pointer(b) {
        return Ok(Some(copy_type(b)?));
    }
    if is_void_pointer(a) && is_pointer(b) {
        return Ok(Some(copy_type(a)?));
    }
    if is_pointer(a) && b_is_null {
        return Ok(Some(copy_type(a)?));
    }
    if a_is_null && is_pointer(b) {
        return Ok(Some(copy_type(b)?));
    }
    Ok(None)
}

/// `int`, where two values are converted to one type to be compared.
#[tactic(auto, unfolding(crate::specs::Operators::compared))]
fn compared(a: &Ty, a_is_null: bool, b: &Ty, b_is_null: bool) -> Result<Option<Ty>, AllocError>
    ensures { IfOk result (λ ty. ty ≡ spec.compared a.now a_is_null b.now b_is_null) }
{
    match common_type(a, a_is_null, b, b_is_null)? {
        Some(_) => Ok(Some(Ty::Int)),
        None => Ok(None),
    }
}

/// The type that a binary operator gives of two values.
fn operated_types(
    structs: &StructTable,
    operator: BinaryOperator,
    a: &Ty,
    a_is_null: bool,
    b: &Ty,
    b_is_null: bool,
) -> Result<Option<Ty>, AllocError>
    ensures { IfOk result
        (λ ty. ty ≡ spec.operated_types structs.now operator a.now a_is_null b.now b_is_null) }
{
    match operator {
        BinaryOperator::LogicalOr | BinaryOperator::LogicalAnd => Ok(tested(a, b)),
        BinaryOperator::Equal | BinaryOperator::NotEqual => compared(a, a_is_null, b, b_is_null),
        BinaryOperator::Less
        | BinaryOperator::Greater
        | BinaryOperator::LessEqual
        | BinaryOperator::GreaterEqual => Ok(ordered(a, b)),
        BinaryOperator::Add => added(structs, a, b),
        BinaryOperator::Subtract => subtracted(structs, a, b),
        _ => Ok(integers(a, b)),
    }
}

/// The type of `?:` of two values.
#[tactic(auto, unfolding(crate::specs::Operators::chosen_type, crate::specs::Operators::integers))]
fn chosen_type(a: &Ty, a_is_null: bool, b: &Ty, b_is_null: bool) -> Result<Option<Ty>, AllocError>
    ensures { IfOk result (λ ty. ty ≡ spec.chosen_type a.now a_is_null b.now b_is_null) }
{
    if is_integer(a) && is_integer(b) {
        return Ok(Some(Ty::Int));
    }
    if is_pointer(a) && same(a, b) {
        return Ok(Some(copy_type(a)?));
    }
    if is_pointer(a) && b_is_null {
        return Ok(Some(copy_type(a)?));
    }
    if a_is_null && is_pointer(b) {
        return Ok(Some(copy_type(b)?));
    }
    Ok(None)
}

/// What both operands of `==` are converted to, and none where there is no such type.
///
/// # Errors
///
/// `AllocError`, where no memory is left.
#[tactic(auto, unfolding(crate::specs::Operators::compared_as))]
pub fn compared_as(alloc: Global, x: &TypedExpr, y: &TypedExpr) -> Result<Option<Ty>, AllocError>
    ensures { IfOk result (λ ty. ty ≡ spec.compared_as x.now y.now) }
{
    let a = value_type(alloc, x)?;
    let b = value_type(alloc, y)?;
    common_type(&a, is_null(x), &b, is_null(y))
}

/// The type that a binary operator gives, and none where its operands don't fit.
///
/// # Errors
///
/// `AllocError`, where no memory is left.
#[tactic(auto, unfolding(crate::specs::Operators::operated))]
pub fn operated(
    alloc: Global,
    structs: &StructTable,
    operator: BinaryOperator,
    x: &TypedExpr,
    y: &TypedExpr,
) -> Result<Option<Ty>, AllocError>
    ensures { IfOk result (λ ty. ty ≡ spec.operated structs.now operator x.now y.now) }
{
    let a = value_type(alloc, x)?;
    let b = value_type(alloc, y)?;
    operated_types(structs, operator, &a, is_null(x), &b, is_null(y))
}

/// The type of `?:`, and none where its arms don't fit.
///
/// # Errors
///
/// `AllocError`, where no memory is left.
#[tactic(auto, unfolding(crate::specs::Operators::chosen))]
pub fn chosen(alloc: Global, x: &TypedExpr, y: &TypedExpr) -> Result<Option<Ty>, AllocError>
    ensures { IfOk result (λ ty. ty ≡ spec.chosen x.now y.now) }
{
    let a = value_type(alloc, x)?;
    let b = value_type(alloc, y)?;
    chosen_type(&a, is_null(x), &b, is_null(y))
}
