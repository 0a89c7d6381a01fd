//! The walk of statements and blocks, which contain one another.

ghost use Rattle.std.specs.Prelude.{◌≡◌, map};
ghost use Rattle.c_scope.specs.Walks.{Walks};
ghost use Rattle.c_typing.specs.Statements as spec;
ghost use Rattle.c_typing.specs.Statements.{walked_statements};
ghost use Rattle.c_typed.specs.declared.statement.TypedStmt.TheVariants as stmt;

use crate::full_expressions::{condition, expression_statement, for_head, return_statement};
use c_declaration_typing::declaration;
use c_scope::{Failure, Rule, World};
use c_tree::{Block, BlockItem, ForLoop, FullExpr, Stmt};
use c_typed::{TypedBlock, TypedBlockItem, TypedForLoop, TypedStmt};
use c_types::Ty;
use sqlite_items::{Boxed, Items};
use std::alloc::Global;

/// The typed form of a statement, in a function that returns this.
#[cycle(statement)]
#[tactic(auto, using(crate::proofs::StatementForms::statements))]
fn statement(
    alloc: Global,
    world: &mut World,
    returns: &Ty,
    in_loop: bool,
    stmt: &Stmt,
) -> Result<TypedStmt, Failure>
    ensures { Walks ((walked_statements returns.now).stmt stmt.now in_loop world.old)
        result world.new }
{
    match stmt {
        Stmt::Block(inside) => block_statement(alloc, world, returns, in_loop, inside),
        Stmt::If {
            condition,
            then_branch,
            else_branch,
        } => match else_branch {
            None => if_alone(alloc, world, returns, in_loop, condition, then_branch.get()),
            Some(other) => if_else(
                alloc,
                world,
                returns,
                in_loop,
                condition,
                then_branch.get(),
                other.get(),
            ),
        },
        Stmt::While(condition, body) => {
            while_statement(alloc, world, returns, condition, body.get())
        }
        Stmt::Do(body, condition) => do_statement(alloc, world, returns, body.get(), condition),
        Stmt::For(inside) => for_statement(alloc, world, returns, in_loop, inside.get()),
        Stmt::Break => break_statement(world, in_loop),
        Stmt::Continue => continue_statement(world, in_loop),
        Stmt::Return(value) => return_statement(alloc, world, returns, value.as_ref()),
        Stmt::Expr(value) => expression_statement(alloc, world, value.as_ref()),
    }
}

/// `break`, which stands in a loop.
fn break_statement(_world: &World, in_loop: bool) -> Result<TypedStmt, Failure>
    ensures { Walks (spec.jump stmt.Break in_loop _world.now) result _world.now }
{
    if !in_loop {
        return Err(Failure::Broken(Rule::OutsideLoop));
    }
    Ok(TypedStmt::Break)
}

/// `continue`, which stands in a loop.
fn continue_statement(_world: &World, in_loop: bool) -> Result<TypedStmt, Failure>
    ensures { Walks (spec.jump stmt.Continue in_loop _world.now) result _world.now }
{
    if !in_loop {
        return Err(Failure::Broken(Rule::OutsideLoop));
    }
    Ok(TypedStmt::Continue)
}

/// A block that is a statement, in a scope of its own.
#[cycle(statement)]
fn block_statement(
    alloc: Global,
    world: &mut World,
    returns: &Ty,
    in_loop: bool,
    inside: &Block,
) -> Result<TypedStmt, Failure>
    ensures { let of = walked_statements returns.now
        in Walks (spec.block_walked (of.block inside.now) in_loop world.old) result world.new }
{
    world.enter()?;
    let inside = block(alloc, world, returns, in_loop, inside)?;
    world.leave()?;
    Ok(TypedStmt::Block(inside))
}

/// `if` without `else`.
#[cycle(statement)]
fn if_alone(
    alloc: Global,
    world: &mut World,
    returns: &Ty,
    in_loop: bool,
    test: &FullExpr,
    then_branch: &Stmt,
) -> Result<TypedStmt, Failure>
    ensures { let of = walked_statements returns.now
        in Walks (spec.if_alone test.now (of.stmt then_branch.now) in_loop world.old)
        result world.new }
{
    let condition = condition(alloc, world, test)?;
    let then_branch = boxed_statement(alloc, world, returns, in_loop, then_branch)?;
    Ok(TypedStmt::If {
        condition,
        then_branch,
        else_branch: None,
    })
}

/// `if` with `else`.
#[cycle(statement)]
fn if_else(
    alloc: Global,
    world: &mut World,
    returns: &Ty,
    in_loop: bool,
    test: &FullExpr,
    then_branch: &Stmt,
    other: &Stmt,
) -> Result<TypedStmt, Failure>
    ensures { let of = (walked_statements returns.now).stmt
        in Walks (spec.if_else test.now (of then_branch.now) (of other.now) in_loop world.old)
        result world.new }
{
    let condition = condition(alloc, world, test)?;
    let (then_branch, other) = branches(alloc, world, returns, in_loop, then_branch, other)?;
    Ok(TypedStmt::If {
        condition,
        then_branch,
        else_branch: Some(other),
    })
}

/// Two statements.
#[cycle(statement)]
fn branches(
    alloc: Global,
    world: &mut World,
    returns: &Ty,
    in_loop: bool,
    then_branch: &Stmt,
    other: &Stmt,
) -> Result<(Boxed<TypedStmt>, Boxed<TypedStmt>), Failure>
    ensures { let of = (walked_statements returns.now).stmt
        in Walks (spec.branches (of then_branch.now) (of other.now) in_loop world.old)
        result world.new }
{
    let then_branch = boxed_statement(alloc, world, returns, in_loop, then_branch)?;
    let other = boxed_statement(alloc, world, returns, in_loop, other)?;
    Ok((then_branch, other))
}

/// A statement, by itself in memory.
#[cycle(statement)]
fn boxed_statement(
    alloc: Global,
    world: &mut World,
    returns: &Ty,
    in_loop: bool,
    stmt: &Stmt,
) -> Result<Boxed<TypedStmt>, Failure>
    ensures { Walks ((walked_statements returns.now).stmt stmt.now in_loop world.old)
        result world.new }
{
    let made = statement(alloc, world, returns, in_loop, stmt)?;
    Ok(Boxed::new(alloc, made)?)
}

/// `while`.
#[cycle(statement)]
fn while_statement(
    alloc: Global,
    world: &mut World,
    returns: &Ty,
    test: &FullExpr,
    body: &Stmt,
) -> Result<TypedStmt, Failure>
    ensures { let of = walked_statements returns.now
        in Walks (spec.while_walked test.now (of.stmt body.now) world.old) result world.new }
{
    let condition = condition(alloc, world, test)?;
    let body = boxed_statement(alloc, world, returns, true, body)?;
    Ok(TypedStmt::While(condition, body))
}

/// `do`.
#[cycle(statement)]
fn do_statement(
    alloc: Global,
    world: &mut World,
    returns: &Ty,
    body: &Stmt,
    test: &FullExpr,
) -> Result<TypedStmt, Failure>
    ensures { let of = walked_statements returns.now
        in Walks (spec.do_walked (of.stmt body.now) test.now world.old) result world.new }
{
    let body = boxed_statement(alloc, world, returns, true, body)?;
    let condition = condition(alloc, world, test)?;
    Ok(TypedStmt::Do(body, condition))
}

/// A `for`, in a scope of its own.
#[cycle(statement)]
fn for_statement(
    alloc: Global,
    world: &mut World,
    returns: &Ty,
    in_loop: bool,
    inside: &ForLoop,
) -> Result<TypedStmt, Failure>
    ensures { let of = walked_statements returns.now
        in Walks (spec.for_walked (of.for_loop inside.now) in_loop world.old) result world.new }
{
    world.enter()?;
    let inside = boxed_loop(alloc, world, returns, in_loop, inside)?;
    world.leave()?;
    Ok(TypedStmt::For(inside))
}

/// A `for` with its statement, by itself in memory.
#[cycle(statement)]
fn boxed_loop(
    alloc: Global,
    world: &mut World,
    returns: &Ty,
    in_loop: bool,
    inside: &ForLoop,
) -> Result<Boxed<TypedForLoop>, Failure>
    ensures { Walks ((walked_statements returns.now).for_loop inside.now in_loop world.old)
        result world.new }
{
    let made = for_loop(alloc, world, returns, in_loop, inside)?;
    Ok(Boxed::new(alloc, made)?)
}

/// A `for` with its statement, in the scope that is there.
#[cycle(statement)]
#[tactic(auto, using(crate::proofs::StatementForms::blocks))]
fn for_loop(
    alloc: Global,
    world: &mut World,
    returns: &Ty,
    in_loop: bool,
    inside: &ForLoop,
) -> Result<TypedForLoop, Failure>
    ensures { Walks ((walked_statements returns.now).for_loop inside.now in_loop world.old)
        result world.new }
{
    let (init, condition, step) = for_head(
        alloc,
        world,
        &inside.init,
        inside.condition.as_ref(),
        inside.step.as_ref(),
    )?;
    let body = statement(alloc, world, returns, true, &inside.body)?;
    Ok(TypedForLoop {
        init,
        condition,
        step,
        body,
    })
}

/// The typed form of a block in the scope that is there, in a function that returns this.
///
/// # Errors
///
/// `Broken`, at the first rule that is broken. `Memory`, where no memory is left.
#[cycle(statement)]
#[tactic(auto, using(crate::proofs::StatementForms::blocks))]
pub(crate) fn block(
    alloc: Global,
    world: &mut World,
    returns: &Ty,
    in_loop: bool,
    inside: &Block,
) -> Result<TypedBlock, Failure>
    ensures { Walks ((walked_statements returns.now).block inside.now in_loop world.old)
        result world.new }
{
    let items = block_items(alloc, world, returns, in_loop, inside.items.as_slice())?;
    Ok(TypedBlock { items })
}

/// The items of a block.
#[cycle(statement)]
#[tactic(auto, using(c_scope::specs::inner::Lists::lists))]
fn block_items(
    alloc: Global,
    world: &mut World,
    returns: &Ty,
    in_loop: bool,
    all: &[BlockItem],
) -> Result<Items<TypedBlockItem>, Failure>
    ensures { let of = walked_statements returns.now
        in Walks (spec.block_items (map of.block_item all.now) in_loop world.old) result world.new }
{
    let mut found = Items::new(alloc);
    for item in all {
        found.push(block_item(alloc, world, returns, in_loop, item)?)?;
    }
    Ok(found)
}

/// A declaration or a statement of a block.
#[cycle(statement)]
#[tactic(auto, using(crate::proofs::StatementForms::block_items))]
fn block_item(
    alloc: Global,
    world: &mut World,
    returns: &Ty,
    in_loop: bool,
    item: &BlockItem,
) -> Result<TypedBlockItem, Failure>
    ensures { Walks ((walked_statements returns.now).block_item item.now in_loop world.old)
        result world.new }
{
    match item {
        BlockItem::Decl(decl) => {
            let decl = declaration(alloc, world, false, decl.get())?;
            Ok(TypedBlockItem::Decl(Boxed::new(alloc, decl)?))
        }
        BlockItem::Stmt(stmt) => Ok(TypedBlockItem::Stmt(statement(
            alloc, world, returns, in_loop, stmt,
        )?)),
    }
}
