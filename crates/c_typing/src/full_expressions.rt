//! Expressions of statements, which are no parts of others.

ghost use Rattle.std.specs.Prelude.{◌≡◌};
ghost use Rattle.std.specs.Option.{option_copied};
ghost use Rattle.c_scope.specs.Walks.{Walks};
ghost use Rattle.c_typing.specs.Statements as spec;

use c_declaration_typing::declaration;
use c_expr_typing::expression;
use c_operators::{converts, is_scalar_value};
use c_rules::Place;
use c_scope::{Failure, Rule, World, test};
use c_tree::{ForInit, FullExpr};
use c_typed::{TypedForInit, TypedFullExpr, TypedStmt};
use c_types::{Ty, is_void};
use sqlite_items::Boxed;
use std::alloc::Global;

/// An expression.
#[tactic(auto, unfolding(crate::specs::Statements::full))]
fn full(alloc: Global, world: &mut World, e: &FullExpr) -> Result<TypedFullExpr, Failure>
    ensures { Walks (spec.full e.now world.old) result world.new }
{
    let expr = expression(alloc, world, e.expr.get(), Place::Value)?;
    Ok(TypedFullExpr { expr })
}

/// An expression, if there is one.
fn optional(
    alloc: Global,
    world: &mut World,
    e: Option<&FullExpr>,
) -> Result<Option<TypedFullExpr>, Failure>
    ensures { Walks (spec.optional (option_copied e.entry) world.old) result world.new }
{
    match e {
        None => Ok(None),
        Some(e) => Ok(Some(full(alloc, world, e)?)),
    }
}

/// A condition, which is a scalar.
///
/// # Errors
///
/// `Broken`, at the first rule that is broken. `Memory`, where no memory is left.
#[tactic(auto, unfolding(crate::specs::Statements::condition))]
pub(crate) fn condition(
    alloc: Global,
    world: &mut World,
    e: &FullExpr,
) -> Result<TypedFullExpr, Failure>
    ensures { Walks (spec.condition e.now world.old) result world.new }
{
    let x = full(alloc, world, e)?;
    test(Rule::NotScalar, is_scalar_value(x.expr.get()))?;
    Ok(x)
}

/// A condition, if there is one.
fn optional_condition(
    alloc: Global,
    world: &mut World,
    e: Option<&FullExpr>,
) -> Result<Option<TypedFullExpr>, Failure>
    ensures { Walks (spec.optional_condition (option_copied e.entry) world.old) result world.new }
{
    match e {
        None => Ok(None),
        Some(e) => Ok(Some(condition(alloc, world, e)?)),
    }
}

/// An expression that is a statement, if there is one.
///
/// # Errors
///
/// `Broken`, at the first rule that is broken. `Memory`, where no memory is left.
pub(crate) fn expression_statement(
    alloc: Global,
    world: &mut World,
    e: Option<&FullExpr>,
) -> Result<TypedStmt, Failure>
    ensures { Walks (spec.expr_walked (option_copied e.entry) world.old) result world.new }
{
    Ok(TypedStmt::Expr(optional(alloc, world, e)?))
}

/// What is asked of a value that is returned, or of none.
fn returned_rules(
    alloc: Global,
    _world: &World,
    returns: &Ty,
    value: Option<&TypedFullExpr>,
) -> Result<(), Failure>
    ensures { Walks (spec.returned_rules returns.now (option_copied value.entry) _world.now)
        result _world.now }
{
    let Some(value) = value else {
        return test(Rule::Return, is_void(returns));
    };
    if is_void(returns) {
        return Err(Failure::Broken(Rule::Return));
    }
    test(
        Rule::Unconverted,
        converts(alloc, value.expr.get(), returns)?,
    )
}

/// `return`, in a function that returns this.
///
/// # Errors
///
/// `Broken`, at the first rule that is broken. `Memory`, where no memory is left.
pub(crate) fn return_statement(
    alloc: Global,
    world: &mut World,
    returns: &Ty,
    e: Option<&FullExpr>,
) -> Result<TypedStmt, Failure>
    ensures { Walks (spec.return_walked returns.now (option_copied e.entry) world.old)
        result world.new }
{
    let value = optional(alloc, world, e)?;
    returned_rules(alloc, world, returns, value.as_ref())?;
    Ok(TypedStmt::Return(value))
}

/// What a `for` begins with.
#[tactic(auto, unfolding(crate::specs::Statements::typed_for_init))]
fn for_init(alloc: Global, world: &mut World, init: &ForInit) -> Result<TypedForInit, Failure>
    ensures { Walks (spec.typed_for_init init.now world.old) result world.new }
{
    match init {
        ForInit::Decl(decl) => {
            let decl = declaration(alloc, world, false, decl.get())?;
            Ok(TypedForInit::Decl(Boxed::new(alloc, decl)?))
        }
        ForInit::Expr(e) => Ok(TypedForInit::Expr(optional(alloc, world, e.as_ref())?)),
    }
}

/// What stands in front of the statement of a `for`.
///
/// # Errors
///
/// `Broken`, at the first rule that is broken. `Memory`, where no memory is left.
pub(crate) fn for_head(
    alloc: Global,
    world: &mut World,
    init: &ForInit,
    condition: Option<&FullExpr>,
    step: Option<&FullExpr>,
) -> Result<(TypedForInit, Option<TypedFullExpr>, Option<TypedFullExpr>), Failure>
    ensures { let c = option_copied condition.entry
        in let s = option_copied step.entry
        in Walks (spec.for_head init.now c s world.old) result world.new }
{
    let init = for_init(alloc, world, init)?;
    let condition = optional_condition(alloc, world, condition)?;
    let step = optional(alloc, world, step)?;
    Ok((init, condition, step))
}
