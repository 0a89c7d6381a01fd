//! Assignments, `++` and `--`.

ghost use Rattle.std.specs.Prelude.{◌≡◌, IfOk};
ghost use Rattle.c_rules.specs.Rules as spec;
ghost use Rattle.c_tree.specs.Operators.{binary_operator};
ghost use Rattle.c_tree.specs.declared.operator.BinaryOperator.TheVariants as op;
ghost use Rattle.c_typed.specs.declared.expression.TypedForm.TheVariants as form;
ghost use Rattle.c_scope.specs.Walks.{Walks};

use c_operators::{converts, is_assignable, operated, takes_value, type_converts};
use c_scope::{Failure, Rule, World, found};
use c_tree::{AssignOperator, BinaryOperator};
use c_typed::{Constant, TypedExpr, TypedForm};
use c_types::{Ty, copy_type, is_struct};
use sqlite_items::Boxed;
use std::alloc::{AllocError, Global};

/// An assignment.
///
/// # Errors
///
/// `Broken`, at the first rule that is broken. `Memory`, where no memory is left.
#[tactic(auto, unfolding(crate::specs::Rules::assignment, c_operators::specs::Operators::typed))]
pub fn assignment(
    alloc: Global,
    world: &World,
    x: Boxed<TypedExpr>,
    operator: AssignOperator,
    y: Boxed<TypedExpr>,
) -> Result<TypedExpr, Failure>
    ensures { Walks (spec.assignment x operator y world.now) result world.now }
{
    let ty = assigned(alloc, world, x.get(), operator, y.get())?;
    Ok(TypedExpr {
        form: TypedForm::Assign(x, operator, y),
        ty,
        constant: Constant::Other,
    })
}

/// What an assignment asks, and the type that it gives.
fn assigned(
    alloc: Global,
    world: &World,
    x: &TypedExpr,
    operator: AssignOperator,
    y: &TypedExpr,
) -> Result<Ty, Failure>
    ensures { Walks (spec.assigned_by x.now y.now (binary_operator operator) world.now)
        result world.now }
{
    match operator.binary_operator() {
        None => Ok(plain(alloc, world, x, y)?),
        Some(binary) => Ok(updated(alloc, world, binary, x, y)?),
    }
}

/// Whether the target takes no value at all, or the value converts to it.
#[tactic(auto, unfolding(crate::specs::Rules::takes, c_operators::specs::Operators::type_of))]
fn takes(alloc: Global, x: &TypedExpr, y: &TypedExpr) -> Result<bool, AllocError>
    ensures { IfOk result (λ takes. takes ≡ spec.takes x.now y.now) }
{
    Ok(!takes_value(&x.ty) || converts(alloc, y, &x.ty)?)
}

/// The same of a value of this type.
#[tactic(auto, unfolding(crate::specs::Rules::takes_type, c_operators::specs::Operators::type_of))]
fn takes_type(x: &TypedExpr, ty: &Ty) -> bool
    ensures { result ≡ spec.takes_type x.now ty.now }
{
    !takes_value(&x.ty) || type_converts(ty, &x.ty)
}

/// What `=` asks, and the type that it gives.
#[tactic(auto, unfolding(crate::specs::Rules::plain, c_operators::specs::Operators::type_of))]
fn plain(alloc: Global, _world: &World, x: &TypedExpr, y: &TypedExpr) -> Result<Ty, Failure>
    ensures { Walks (spec.plain x.now y.now _world.now) result _world.now }
{
    if !takes(alloc, x, y)? {
        return Err(Failure::Broken(Rule::Unconverted));
    }
    if !is_assignable(x) {
        return Err(Failure::Broken(Rule::NotLvalue));
    }
    Ok(assigned_type(&x.ty)?)
}

/// The type of an assignment: of a struct it has no value.
#[tactic(auto, unfolding(crate::specs::Rules::assigned_type))]
fn assigned_type(ty: &Ty) -> Result<Ty, AllocError>
    ensures { IfOk result (λ assigned. assigned ≡ spec.assigned_type ty.now) }
{
    if is_struct(ty) {
        return Ok(Ty::Void);
    }
    copy_type(ty)
}

/// What `x op= y` asks, and the type that it gives.
#[tactic(auto, unfolding(crate::specs::Rules::updated, c_operators::specs::Operators::type_of))]
fn updated(
    alloc: Global,
    world: &World,
    operator: BinaryOperator,
    x: &TypedExpr,
    y: &TypedExpr,
) -> Result<Ty, Failure>
    ensures { Walks (spec.updated operator x.now y.now world.now) result world.now }
{
    let ty = found(
        Rule::Operands,
        operated(alloc, &world.structs, operator, x, y)?,
    )?;
    if !takes_type(x, &ty) {
        return Err(Failure::Broken(Rule::Unconverted));
    }
    if !is_assignable(x) {
        return Err(Failure::Broken(Rule::NotLvalue));
    }
    Ok(copy_type(&x.ty)?)
}

/// What `++` and `--` ask, as `op= 1`, and the type that they give.
#[tactic(auto, unfolding(c_operators::specs::Operators::typed))]
fn stepped(
    alloc: Global,
    world: &World,
    operator: BinaryOperator,
    x: &TypedExpr,
) -> Result<Ty, Failure>
    ensures { Walks (spec.updated operator x.now spec.one world.now) result world.now }
{
    let one = TypedExpr {
        form: TypedForm::Number(1),
        ty: Ty::Int,
        constant: Constant::Value(1),
    };
    updated(alloc, world, operator, x, &one)
}

/// `++` in front of its operand.
///
/// # Errors
///
/// `Broken`, at the first rule that is broken. `Memory`, where no memory is left.
#[tactic(auto, unfolding(crate::specs::Rules::stepped, c_operators::specs::Operators::typed))]
pub fn pre_increment(
    alloc: Global,
    world: &World,
    x: Boxed<TypedExpr>,
) -> Result<TypedExpr, Failure>
    ensures { Walks (spec.stepped op.Add form.PreIncrement x world.now) result world.now }
{
    let ty = stepped(alloc, world, BinaryOperator::Add, x.get())?;
    Ok(TypedExpr {
        form: TypedForm::PreIncrement(x),
        ty,
        constant: Constant::Other,
    })
}

/// `--` in front of its operand.
///
/// # Errors
///
/// `Broken`, at the first rule that is broken. `Memory`, where no memory is left.
#[tactic(auto, unfolding(crate::specs::Rules::stepped, c_operators::specs::Operators::typed))]
pub fn pre_decrement(
    alloc: Global,
    world: &World,
    x: Boxed<TypedExpr>,
) -> Result<TypedExpr, Failure>
    ensures { Walks (spec.stepped op.Subtract form.PreDecrement x world.now) result world.now }
{
    let ty = stepped(alloc, world, BinaryOperator::Subtract, x.get())?;
    Ok(TypedExpr {
        form: TypedForm::PreDecrement(x),
        ty,
        constant: Constant::Other,
    })
}

/// `++` behind its operand.
///
/// # Errors
///
/// `Broken`, at the first rule that is broken. `Memory`, where no memory is left.
#[tactic(auto, unfolding(crate::specs::Rules::stepped, c_operators::specs::Operators::typed))]
pub fn post_increment(
    alloc: Global,
    world: &World,
    x: Boxed<TypedExpr>,
) -> Result<TypedExpr, Failure>
    ensures { Walks (spec.stepped op.Add form.PostIncrement x world.now) result world.now }
{
    let ty = stepped(alloc, world, BinaryOperator::Add, x.get())?;
    Ok(TypedExpr {
        form: TypedForm::PostIncrement(x),
        ty,
        constant: Constant::Other,
    })
}

/// `--` behind its operand.
///
/// # Errors
///
/// `Broken`, at the first rule that is broken. `Memory`, where no memory is left.
#[tactic(auto, unfolding(crate::specs::Rules::stepped, c_operators::specs::Operators::typed))]
pub fn post_decrement(
    alloc: Global,
    world: &World,
    x: Boxed<TypedExpr>,
) -> Result<TypedExpr, Failure>
    ensures { Walks (spec.stepped op.Subtract form.PostDecrement x world.now) result world.now }
{
    let ty = stepped(alloc, world, BinaryOperator::Subtract, x.get())?;
    Ok(TypedExpr {
        form: TypedForm::PostDecrement(x),
        ty,
        constant: Constant::Other,
    })
}
