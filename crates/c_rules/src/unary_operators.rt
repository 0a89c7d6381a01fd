//! Unary operators.

ghost use Rattle.std.specs.Prelude.{◌≡◌, true, IfOk, OnOk};
ghost use Rattle.c_rules.specs.Rules as spec;
ghost use Rattle.c_scope.specs.Walks.{Walks};

use crate::operands::pointed;
use c_operators::{has_units, is_integer_value, is_lvalue, is_scalar_value, of_unary};
use c_scope::{Failure, Rule, World, test};
use c_tree::UnaryOperator;
use c_typed::{Constant, Entity, Local, TypedExpr, TypedForm};
use c_types::{Ty, copy_name, copy_type, is_function};
use shared::Shared;
use sqlite_items::{Boxed, Items};
use std::alloc::{AllocError, Global};

/// A unary operator.
///
/// # Errors
///
/// `Broken`, at the first rule that is broken. `Memory`, where no memory is left.
#[tactic(auto, unfolding(crate::specs::Rules::unary_of))]
pub fn unary(
    alloc: Global,
    world: &mut World,
    operator: UnaryOperator,
    x: Boxed<TypedExpr>,
) -> Result<TypedExpr, Failure>
    ensures { Walks (spec.unary_of operator x world.old) result world.new }
{
    match operator {
        UnaryOperator::Address => address(alloc, world, x),
        UnaryOperator::Dereference => dereference(alloc, world, x),
        UnaryOperator::Not => negation(world, x),
        UnaryOperator::Negate | UnaryOperator::Complement => { arithmetic(world, operator, x) }
    }
}

/// `&`
#[tactic(auto, unfolding(crate::specs::Rules::address, c_operators::specs::Operators::typed, c_operators::specs::Operators::type_of))]
fn address(alloc: Global, world: &mut World, x: Boxed<TypedExpr>) -> Result<TypedExpr, Failure>
    ensures { Walks (spec.address x world.old) result world.new }
{
    test(Rule::NotLvalue, has_address(x.get()))?;
    mark_addressed(alloc, world, x.get())?;
    let ty = Ty::Pointer(Shared::new(alloc, copy_type(&x.get().ty)?)?);
    Ok(TypedExpr {
        form: TypedForm::Unary(UnaryOperator::Address, x),
        ty,
        constant: Constant::Other,
    })
}

/// Whether it is a function or an lvalue.
#[tactic(auto, unfolding(crate::specs::Rules::has_address, c_operators::specs::Operators::type_of))]
fn has_address(x: &TypedExpr) -> bool
    ensures { result ≡ spec.has_address x.now }
{
    is_function(&x.ty) || is_lvalue(x)
}

/// A local that is itself the operand of `&` becomes a local whose address is taken.
#[tactic(auto, unfolding(crate::specs::Rules::mark_addressed, c_operators::specs::Operators::form_of))]
fn mark_addressed(alloc: Global, world: &mut World, x: &TypedExpr) -> Result<(), Failure>
    ensures { Walks (spec.mark_addressed x.now world.old) result world.new }
{
    let TypedForm::Identifier(_, Entity::Local(number)) = &x.form else {
        return Ok(());
    };
    mark_local(alloc, &mut world.locals, *number as usize)?;
    Ok(())
}

/// The local of this number becomes one whose address is taken. It is copied at most once.
#[tactic(auto, using(crate::proofs::AddressedLocals::addressed))]
fn mark_local(alloc: Global, locals: &mut Items<Local>, number: usize) -> Result<(), AllocError>
    ensures { OnOk result (locals.new ≡ spec.addressed_at number locals.old) }
{
    let Some(local) = locals.get(number) else {
        return Ok(());
    };
    if local.is_addressed {
        return Ok(());
    }
    let addressed = addressed(alloc, local)?;
    locals.set(number, addressed);
    Ok(())
}

/// The same local, with its address taken.
fn addressed(alloc: Global, local: &Local) -> Result<Local, AllocError>
    ensures { IfOk result (λ addressed. addressed ≡ record local.now { is_addressed = true }) }
{
    Ok(Local {
        name: copy_name(alloc, &local.name)?,
        ty: copy_type(&local.ty)?,
        is_addressed: true,
    })
}

/// `*`
#[tactic(auto, unfolding(crate::specs::Rules::dereference, c_operators::specs::Operators::typed))]
fn dereference(alloc: Global, world: &World, x: Boxed<TypedExpr>) -> Result<TypedExpr, Failure>
    ensures { Walks (spec.dereference x world.now) result world.now }
{
    let ty = dereferenced(alloc, world, x.get())?;
    Ok(TypedExpr {
        form: TypedForm::Unary(UnaryOperator::Dereference, x),
        ty,
        constant: Constant::Other,
    })
}

/// What `*` asks, and the type that it gives.
#[tactic(auto, unfolding(crate::specs::Rules::dereferenced))]
fn dereferenced(alloc: Global, world: &World, x: &TypedExpr) -> Result<Ty, Failure>
    ensures { Walks (spec.dereferenced x.now world.now) result world.now }
{
    let ty = pointed(alloc, world, x)?;
    if !is_function(&ty) && !has_units(&world.structs, &ty) {
        return Err(Failure::Broken(Rule::Pointer));
    }
    Ok(ty)
}

/// `-` and `~`
#[tactic(auto, unfolding(crate::specs::Rules::arithmetic, c_operators::specs::Operators::typed, c_operators::specs::Operators::constant_of))]
fn arithmetic(
    _world: &World,
    operator: UnaryOperator,
    x: Boxed<TypedExpr>,
) -> Result<TypedExpr, Failure>
    ensures { Walks (spec.arithmetic operator x _world.now) result _world.now }
{
    test(Rule::Operands, is_integer_value(x.get()))?;
    let constant = of_unary(operator, x.get().constant);
    Ok(TypedExpr {
        form: TypedForm::Unary(operator, x),
        ty: Ty::Int,
        constant,
    })
}

/// `!`
#[tactic(auto, unfolding(crate::specs::Rules::negation, c_operators::specs::Operators::typed, c_operators::specs::Operators::constant_of))]
fn negation(_world: &World, x: Boxed<TypedExpr>) -> Result<TypedExpr, Failure>
    ensures { Walks (spec.negation x _world.now) result _world.now }
{
    test(Rule::NotScalar, is_scalar_value(x.get()))?;
    let constant = of_unary(UnaryOperator::Not, x.get().constant);
    Ok(TypedExpr {
        form: TypedForm::Unary(UnaryOperator::Not, x),
        ty: Ty::Int,
        constant,
    })
}
