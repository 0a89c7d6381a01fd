//! Statements that contain no others.

ghost use Rattle.std.specs.Prelude.{◌≡◌};
ghost use Rattle.std.specs.Option.{option_copied};
ghost use Rattle.elab_pieces.specs.Statements as spec;
ghost use Rattle.elab_statements.specs.inner.Expressions.{DoneOutcome, made_at};
ghost use Rattle.elab_statements.specs.Bodies.{PieceOutcome, piece_at};
ghost use Rattle.elab_emit.specs.Emits.{IsSound};
ghost use Rattle.elab_rows.specs.Values.{converted_code};

use crate::body::{Body, full_converted, full_value, leave};
use crate::declarations::declaration;
use c_typed::{TypedExpr, TypedForInit, TypedFullExpr};
use elab_emit::Trouble;
use elab_rows::Scope;

/// A full expression whose value nobody asks for, if there is one.
pub(crate) fn expression(
    body: &mut Body,
    scope: &Scope,
    expr: Option<&TypedFullExpr>,
) -> Result<(), Trouble>
    requires { IsSound body.old.out }
    ensures made { DoneOutcome body.old (made_at body.old (spec.step_code scope.now (option_copied expr.entry))) result body.new }
    ensures sound { IsSound body.new.out }
{
    if let Some(expr) = expr {
        full_value(body, scope, expr.expr.get())?;
    }
    Ok(())
}

/// `return`.
pub(crate) fn return_value(
    body: &mut Body,
    scope: &Scope,
    value: Option<&TypedFullExpr>,
) -> Result<(), Trouble>
    requires { IsSound body.old.out }
    ensures made { PieceOutcome body.old (piece_at body.old (spec.return_code scope.now (option_copied value.entry))) result body.new }
    ensures sound { IsSound body.new.out }
{
    match value {
        None => leave(body, scope.has_frame, None),
        Some(value) => return_expression(body, scope, value.expr.get()),
    }
}

/// `return` of an expression.
fn return_expression(body: &mut Body, scope: &Scope, expr: &TypedExpr) -> Result<(), Trouble>
    requires { IsSound body.old.out }
    ensures made { PieceOutcome body.old (piece_at body.old (spec.returned scope.now.has_frame (converted_code scope.now expr.now scope.now.result))) result body.new }
    ensures sound { IsSound body.new.out }
{
    let a = full_converted(body, scope, expr, &scope.result)?;
    leave(body, scope.has_frame, Some(a))
}

/// What a `for` begins with.
pub(crate) fn first_part(body: &mut Body, scope: &Scope, init: &TypedForInit) -> Result<(), Trouble>
    requires { IsSound body.old.out }
    ensures made { PieceOutcome body.old (piece_at body.old (spec.first_code scope.now init.now)) result body.new }
    ensures sound { IsSound body.new.out }
{
    match init {
        TypedForInit::Decl(decl) => declaration(body, scope, decl.get()),
        TypedForInit::Expr(expr) => expression(body, scope, expr.as_ref()),
    }
}
