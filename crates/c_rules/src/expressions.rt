//! Numbers, strings, binary operators, `?:` and indices.

ghost use Rattle.std.specs.Prelude.{◌≡◌};
ghost use Rattle.c_rules.specs.Rules as spec;
ghost use Rattle.c_scope.specs.Walks.{Walks};

use crate::operands::pointed;
use c_operators::{
    chosen, has_units, is_integer_value, is_scalar_value, of_binary, of_conditional, operated,
};
use c_scope::{Failure, Rule, World, count, found};
use c_tree::BinaryOperator;
use c_typed::{Constant, TypedExpr, TypedForm};
use c_types::Ty;
use shared::Shared;
use sqlite_items::{Boxed, Items};
use std::alloc::Global;

/// A number.
#[tactic(auto, unfolding(crate::specs::Rules::number, c_operators::specs::Operators::typed))]
pub fn number(_world: &World, value: i64) -> Result<TypedExpr, Failure>
    ensures { Walks (spec.number value _world.now) result _world.now }
{
    Ok(TypedExpr {
        form: TypedForm::Number(value),
        ty: Ty::Int,
        constant: Constant::Value(value),
    })
}

/// A string, which is an object of its own.
///
/// # Errors
///
/// `Memory`, where no memory is left or there are too many strings to be counted.
#[tactic(auto, unfolding(crate::specs::Rules::text, c_operators::specs::Operators::typed))]
pub fn text(alloc: Global, world: &mut World, bytes: &[u8]) -> Result<TypedExpr, Failure>
    ensures { Walks (spec.text bytes.now world.old) result world.new }
{
    let number = count(world.strings.len())?;
    let units = count(bytes.len() + 1)?;
    world.strings.push(Items::from_slice(alloc, bytes)?)?;
    Ok(TypedExpr {
        form: TypedForm::Text(Items::from_slice(alloc, bytes)?, number),
        ty: Ty::Array(Shared::new(alloc, Ty::Char)?, units),
        constant: Constant::Other,
    })
}

/// The rule of a binary operator's operands: `&&` and `||` ask for scalars as conditions do.
fn operand_rule(operator: BinaryOperator) -> Rule
    ensures { result ≡ spec.operand_rule operator }
{
    if operator.is_logical() {
        Rule::NotScalar
    } else {
        Rule::Operands
    }
}

/// A binary operator.
///
/// # Errors
///
/// `Broken`, at the first rule that is broken. `Memory`, where no memory is left.
#[tactic(auto, unfolding(crate::specs::Rules::binary, c_operators::specs::Operators::typed, c_operators::specs::Operators::constant_of))]
pub fn binary(
    alloc: Global,
    world: &World,
    x: Boxed<TypedExpr>,
    operator: BinaryOperator,
    y: Boxed<TypedExpr>,
) -> Result<TypedExpr, Failure>
    ensures { Walks (spec.binary x operator y world.now) result world.now }
{
    let ty = found(
        operand_rule(operator),
        operated(alloc, &world.structs, operator, x.get(), y.get())?,
    )?;
    let constant = of_binary(operator, x.get().constant, y.get().constant);
    Ok(TypedExpr {
        form: TypedForm::Binary(x, operator, y),
        ty,
        constant,
    })
}

/// `?:`
///
/// # Errors
///
/// `Broken`, at the first rule that is broken. `Memory`, where no memory is left.
#[tactic(auto, unfolding(crate::specs::Rules::conditional, c_operators::specs::Operators::typed, c_operators::specs::Operators::constant_of))]
pub fn conditional(
    alloc: Global,
    _world: &World,
    condition: Boxed<TypedExpr>,
    then_value: Boxed<TypedExpr>,
    else_value: Boxed<TypedExpr>,
) -> Result<TypedExpr, Failure>
    ensures { Walks (spec.conditional condition then_value else_value _world.now) result _world.now }
{
    let ty = conditional_type(
        alloc,
        _world,
        condition.get(),
        then_value.get(),
        else_value.get(),
    )?;
    let constant = of_conditional(
        condition.get().constant,
        then_value.get().constant,
        else_value.get().constant,
    );
    Ok(TypedExpr {
        form: TypedForm::Conditional {
            condition,
            then_value,
            else_value,
        },
        ty,
        constant,
    })
}

/// What `?:` asks, and the type that it gives.
#[tactic(auto, unfolding(crate::specs::Rules::conditional_type))]
fn conditional_type(
    alloc: Global,
    _world: &World,
    condition: &TypedExpr,
    then_value: &TypedExpr,
    else_value: &TypedExpr,
) -> Result<Ty, Failure>
    ensures { Walks (spec.conditional_type condition.now then_value.now else_value.now _world.now)
        result _world.now }
{
    let ty = found(Rule::Operands, chosen(alloc, then_value, else_value)?)?;
    if !is_scalar_value(condition) {
        return Err(Failure::Broken(Rule::NotScalar));
    }
    Ok(ty)
}

/// An index.
///
/// # Errors
///
/// `Broken`, at the first rule that is broken. `Memory`, where no memory is left.
#[tactic(auto, unfolding(crate::specs::Rules::index, c_operators::specs::Operators::typed))]
pub fn index(
    alloc: Global,
    world: &World,
    x: Boxed<TypedExpr>,
    i: Boxed<TypedExpr>,
) -> Result<TypedExpr, Failure>
    ensures { Walks (spec.index x i world.now) result world.now }
{
    let ty = indexed(alloc, world, x.get(), i.get())?;
    Ok(TypedExpr {
        form: TypedForm::Index(x, i),
        ty,
        constant: Constant::Other,
    })
}

/// What an index asks, and the type that it gives.
#[tactic(auto, unfolding(crate::specs::Rules::indexed))]
fn indexed(alloc: Global, world: &World, x: &TypedExpr, i: &TypedExpr) -> Result<Ty, Failure>
    ensures { Walks (spec.indexed x.now i.now world.now) result world.now }
{
    if !is_integer_value(i) {
        return Err(Failure::Broken(Rule::Operands));
    }
    let ty = pointed(alloc, world, x)?;
    if !has_units(&world.structs, &ty) {
        return Err(Failure::Broken(Rule::Pointer));
    }
    Ok(ty)
}
