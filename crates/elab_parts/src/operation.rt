//! What operators do with their operands.

ghost use Rattle.std.specs.Prelude.{◌≡◌, IfOk};
ghost use Rattle.c_types.specs.declared.ty.Ty.TheVariants as ty;
ghost use Rattle.c_types.specs.Kinds.{is_pointer};
ghost use Rattle.elab_rows.specs.Rows as spec;
ghost use Rattle.elab_rows.specs.Values.{operand, part};

use crate::types::operand_type;
use c_operators::value_type;
use c_tree::BinaryOperator;
use c_typed::TypedExpr;
use c_types::{Ty, copy_type};
use elab_emit::{becomes_pointer, operator_of, target_units};
use elab_rows::{Last, Operation, Scope};
use std::alloc::{AllocError, Global};

/// Both operands are converted to one type.
fn plain(
    alloc: Global,
    scope: &Scope,
    operator: BinaryOperator,
    x: &TypedExpr,
    y: &TypedExpr,
) -> Result<Operation, AllocError>
    ensures { IfOk result (λ r. r ≡ spec.plain operator (operand (part scope.now x.now)) (operand (part scope.now y.now))) }
{
    let first = operand_type(alloc, scope, x, y)?;
    let second = copy_type(&first)?;
    Ok(Operation {
        first,
        second,
        last: Last::Binary(operator_of(operator)),
    })
}

/// A pointer and an integer.
#[tactic(auto, using(crate::proofs::Nodes::operand_is))]
fn counted(
    alloc: Global,
    _scope: &Scope,
    p: &TypedExpr,
    last: Last,
) -> Result<Operation, AllocError>
    ensures { IfOk result (λ r. r ≡
        record { first = (operand (part _scope.now p.now)).ty; second = ty.Int; last = last }) }
{
    let first = value_type(alloc, p)?;
    let second = Ty::Int;
    Ok(Operation {
        first,
        second,
        last,
    })
}

/// An integer and a pointer.
#[tactic(auto, using(crate::proofs::Nodes::operand_is))]
fn counted_back(
    alloc: Global,
    _scope: &Scope,
    p: &TypedExpr,
    last: Last,
) -> Result<Operation, AllocError>
    ensures { IfOk result (λ r. r ≡
        record { first = ty.Int; second = (operand (part _scope.now p.now)).ty; last = last }) }
{
    let second = value_type(alloc, p)?;
    let first = Ty::Int;
    Ok(Operation {
        first,
        second,
        last,
    })
}

/// Two pointers.
#[tactic(auto, using(crate::proofs::Nodes::operand_is))]
fn pointers(
    alloc: Global,
    _scope: &Scope,
    p: &TypedExpr,
    q: &TypedExpr,
    last: Last,
) -> Result<Operation, AllocError>
    ensures { IfOk result (λ r. r ≡ record {
      first = (operand (part _scope.now p.now)).ty;
      second = (operand (part _scope.now q.now)).ty;
      last = last;
    }) }
{
    let first = value_type(alloc, p)?;
    let second = value_type(alloc, q)?;
    Ok(Operation {
        first,
        second,
        last,
    })
}

/// Whether a value is a pointer.
#[tactic(auto, using(crate::proofs::Nodes::pointer_is))]
fn has_pointer(_scope: &Scope, x: &TypedExpr) -> bool
    ensures { result ≡ is_pointer (operand (part _scope.now x.now)).ty }
{
    becomes_pointer(&x.ty)
}

/// The units of what a value points to.
#[tactic(auto, using(crate::proofs::Nodes::units_are))]
fn pointed_units(scope: &Scope, x: &TypedExpr) -> Result<u32, AllocError>
    ensures { IfOk result (λ n. n ≡ spec.target_units scope.now.structs (operand (part scope.now x.now)).ty) }
{
    target_units(scope, &x.ty)
}

/// A sum.
fn sum(alloc: Global, scope: &Scope, x: &TypedExpr, y: &TypedExpr) -> Result<Operation, AllocError>
    ensures { IfOk result (λ r. r ≡ spec.sum scope.now.structs
        (operand (part scope.now x.now)) (operand (part scope.now y.now))) }
{
    if has_pointer(scope, x) {
        let n = pointed_units(scope, x)?;
        return counted(alloc, scope, x, Last::PointerPlus(n));
    }
    if has_pointer(scope, y) {
        let n = pointed_units(scope, y)?;
        return counted_back(alloc, scope, y, Last::PlusPointer(n));
    }
    plain(alloc, scope, BinaryOperator::Add, x, y)
}

/// A difference.
fn difference(
    alloc: Global,
    scope: &Scope,
    x: &TypedExpr,
    y: &TypedExpr,
) -> Result<Operation, AllocError>
    ensures { IfOk result (λ r. r ≡ spec.difference scope.now.structs
        (operand (part scope.now x.now)) (operand (part scope.now y.now))) }
{
    if has_pointer(scope, y) {
        let n = pointed_units(scope, x)?;
        return pointers(alloc, scope, x, y, Last::PointerDifference(n));
    }
    if has_pointer(scope, x) {
        let n = pointed_units(scope, x)?;
        return counted(alloc, scope, x, Last::PointerMinus(n));
    }
    plain(alloc, scope, BinaryOperator::Subtract, x, y)
}

/// What an operator does with these operands.
pub(crate) fn operation_of(
    alloc: Global,
    scope: &Scope,
    operator: BinaryOperator,
    x: &TypedExpr,
    y: &TypedExpr,
) -> Result<Operation, AllocError>
    ensures { IfOk result (λ r. r ≡ spec.operation_of scope.now.structs operator
        (operand (part scope.now x.now)) (operand (part scope.now y.now))) }
{
    match operator {
        BinaryOperator::Add => sum(alloc, scope, x, y),
        BinaryOperator::Subtract => difference(alloc, scope, x, y),
        _ => plain(alloc, scope, operator, x, y),
    }
}
