//! The code of statements and blocks, which contain one another. One function for each row.

ghost use Rattle.std.specs.Prelude.{◌≡◌, map};
ghost use Rattle.std.specs.Option.{option_copied, option_map};
ghost use Rattle.elab_pieces.specs.Lines.{all_joined};
ghost use Rattle.elab_pieces.specs.Statements as spec;
ghost use Rattle.elab_pieces.specs.Statements.{block_code, block_item_code, for_loop_code, stmt_code, value_of};
ghost use Rattle.elab_statements.specs.Bodies.{PieceOutcome, piece_at};
ghost use Rattle.elab_statements.specs.inner.Jumps.{StatementOutcome};
ghost use Rattle.elab_emit.specs.Emits.{IsSound};

use crate::body::{Body, full_value};
use crate::conditions::{
    condition, else_jump, finish_do, finish_if, finish_if_else, finish_loop, optional_test,
};
use crate::declarations::declaration;
use crate::open::{Open, jump};
use crate::simple::{expression, first_part, return_value};
use c_typed::{TypedBlock, TypedBlockItem, TypedForLoop, TypedFullExpr, TypedStmt};
use elab_emit::Trouble;
use elab_rows::Scope;
use sqlite_items::Items;

/// The code of a statement. Its jumps of `break` and `continue` to the loop around it are still open.
#[cycle(statement)]
fn statement(
    body: &mut Body,
    scope: &Scope,
    stmt: &TypedStmt,
    jumps: &mut Items<Open>,
) -> Result<(), Trouble>
    requires { IsSound body.old.out }
    ensures made { StatementOutcome body.old jumps.old (piece_at body.old (stmt_code scope.now stmt.now)) result body.new jumps.new }
    ensures sound { IsSound body.new.out }
{
    match stmt {
        TypedStmt::Block(inside) => block(body, scope, inside, jumps),
        TypedStmt::If {
            condition,
            then_branch,
            else_branch,
        } => match else_branch {
            None => if_alone(body, scope, condition, then_branch.get(), jumps),
            Some(other) => {
                if_else(
                    body,
                    scope,
                    condition,
                    then_branch.get(),
                    other.get(),
                    jumps,
                )
            }
        },
        TypedStmt::While(condition, inside) => while_loop(body, scope, condition, inside.get()),
        TypedStmt::Do(inside, condition) => do_loop(body, scope, inside.get(), condition),
        TypedStmt::For(inside) => for_loop(body, scope, inside.get()),
        TypedStmt::Break => jump(body, false, jumps),
        TypedStmt::Continue => jump(body, true, jumps),
        TypedStmt::Return(value) => return_value(body, scope, value.as_ref()),
        TypedStmt::Expr(value) => expression(body, scope, value.as_ref()),
    }
}

/// `if` without `else`.
#[cycle(statement)]
fn if_alone(
    body: &mut Body,
    scope: &Scope,
    c: &TypedFullExpr,
    inside: &TypedStmt,
    jumps: &mut Items<Open>,
) -> Result<(), Trouble>
    requires { IsSound body.old.out }
    ensures made { StatementOutcome body.old jumps.old (piece_at body.old (spec.if_code (value_of scope.now c.now) (stmt_code scope.now inside.now))) result body.new jumps.new }
    ensures sound { IsSound body.new.out }
{
    let c = condition(body, scope, c)?;
    statement(body, scope, inside, jumps)?;
    finish_if(body, c);
    Ok(())
}

/// `if` with `else`.
#[cycle(statement)]
fn if_else(
    body: &mut Body,
    scope: &Scope,
    c: &TypedFullExpr,
    inside: &TypedStmt,
    other: &TypedStmt,
    jumps: &mut Items<Open>,
) -> Result<(), Trouble>
    requires { IsSound body.old.out }
    ensures made { StatementOutcome body.old jumps.old (piece_at body.old (spec.if_else_code (value_of scope.now c.now) (stmt_code scope.now inside.now) (stmt_code scope.now other.now))) result body.new jumps.new }
    ensures sound { IsSound body.new.out }
{
    let c = condition(body, scope, c)?;
    statement(body, scope, inside, jumps)?;
    let jump = else_jump(body)?;
    statement(body, scope, other, jumps)?;
    finish_if_else(body, c, jump);
    Ok(())
}

/// `while`.
#[cycle(statement)]
fn while_loop(
    body: &mut Body,
    scope: &Scope,
    c: &TypedFullExpr,
    inside: &TypedStmt,
) -> Result<(), Trouble>
    requires { IsSound body.old.out }
    ensures made { PieceOutcome body.old (piece_at body.old (spec.while_code (value_of scope.now c.now) (stmt_code scope.now inside.now))) result body.new }
    ensures sound { IsSound body.new.out }
{
    let start = body.out.code.len() as u32;
    let c = condition(body, scope, c)?;
    let mut own = Items::new(body.out.alloc);
    statement(body, scope, inside, &mut own)?;
    finish_loop(body, Some(c), own.as_slice(), start, start)
}

/// `do`.
#[cycle(statement)]
fn do_loop(
    body: &mut Body,
    scope: &Scope,
    inside: &TypedStmt,
    c: &TypedFullExpr,
) -> Result<(), Trouble>
    requires { IsSound body.old.out }
    ensures made { PieceOutcome body.old (piece_at body.old (spec.do_code (stmt_code scope.now inside.now) (value_of scope.now c.now))) result body.new }
    ensures sound { IsSound body.new.out }
{
    let start = body.out.code.len() as u32;
    let mut own = Items::new(body.out.alloc);
    statement(body, scope, inside, &mut own)?;
    let next = body.out.code.len() as u32;
    let value = full_value(body, scope, c.expr.get())?;
    finish_do(body, value, own.as_slice(), start, next)
}

/// `for`.
#[cycle(statement)]
fn for_loop(body: &mut Body, scope: &Scope, inside: &TypedForLoop) -> Result<(), Trouble>
    requires { IsSound body.old.out }
    ensures made { PieceOutcome body.old (piece_at body.old (for_loop_code scope.now inside.now)) result body.new }
    ensures sound { IsSound body.new.out }
{
    first_part(body, scope, &inside.init)?;
    stepped_loop(
        body,
        scope,
        inside.condition.as_ref(),
        &inside.body,
        inside.step.as_ref(),
    )
}

/// A `for` behind its first part.
#[cycle(statement)]
fn stepped_loop(
    body: &mut Body,
    scope: &Scope,
    c: Option<&TypedFullExpr>,
    inside: &TypedStmt,
    step: Option<&TypedFullExpr>,
) -> Result<(), Trouble>
    requires { IsSound body.old.out }
    ensures made { PieceOutcome body.old (piece_at body.old (spec.loop_code (option_map (value_of scope.now) (option_copied c.entry)) (stmt_code scope.now inside.now) (spec.step_code scope.now (option_copied step.entry)))) result body.new }
    ensures sound { IsSound body.new.out }
{
    let start = body.out.code.len() as u32;
    let c = optional_test(body, scope, c)?;
    let mut own = Items::new(body.out.alloc);
    statement(body, scope, inside, &mut own)?;
    let next = body.out.code.len() as u32;
    expression(body, scope, step)?;
    finish_loop(body, c, own.as_slice(), start, next)
}

/// The code of a block.
#[cycle(statement)]
fn block(
    body: &mut Body,
    scope: &Scope,
    inside: &TypedBlock,
    jumps: &mut Items<Open>,
) -> Result<(), Trouble>
    requires { IsSound body.old.out }
    ensures made { StatementOutcome body.old jumps.old (piece_at body.old (block_code scope.now inside.now)) result body.new jumps.new }
    ensures sound { IsSound body.new.out }
{
    block_items(body, scope, inside.items.as_slice(), jumps)
}

/// The code of a function's block: no loop is around it, so that its jumps needn't be kept.
pub fn function_block(body: &mut Body, scope: &Scope, inside: &TypedBlock) -> Result<(), Trouble>
    requires { IsSound body.old.out }
    ensures made { PieceOutcome body.old (piece_at body.old (block_code scope.now inside.now)) result body.new }
    ensures sound { IsSound body.new.out }
{
    let mut jumps = Items::new(body.out.alloc);
    block(body, scope, inside, &mut jumps)
}

/// The items of a block.
#[cycle(statement)]
#[tactic(auto, using(crate::proofs::Joined::leads))]
fn block_items(
    body: &mut Body,
    scope: &Scope,
    all: &[TypedBlockItem],
    jumps: &mut Items<Open>,
) -> Result<(), Trouble>
    requires { IsSound body.old.out }
    ensures made { StatementOutcome body.old jumps.old (piece_at body.old (all_joined (map (block_item_code scope.now) all.now))) result body.new jumps.new }
    ensures sound { IsSound body.new.out }
{
    for item in all {
        block_item(body, scope, item, jumps)?;
    }
    Ok(())
}

/// A declaration or a statement of a block.
#[cycle(statement)]
fn block_item(
    body: &mut Body,
    scope: &Scope,
    item: &TypedBlockItem,
    jumps: &mut Items<Open>,
) -> Result<(), Trouble>
    requires { IsSound body.old.out }
    ensures made { StatementOutcome body.old jumps.old (piece_at body.old (block_item_code scope.now item.now)) result body.new jumps.new }
    ensures sound { IsSound body.new.out }
{
    match item {
        TypedBlockItem::Decl(decl) => declaration(body, scope, decl.get()),
        TypedBlockItem::Stmt(stmt) => statement(body, scope, stmt, jumps),
    }
}
