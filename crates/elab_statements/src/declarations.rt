//! The initialisers of a function's locals.

ghost use Rattle.std.specs.Prelude.{◌≡◌, map};
ghost use Rattle.std.specs.Option.{option_copied};
ghost use Rattle.c_typed.specs.declared.statement.TypedInit.{out-TypedInit};
ghost use Rattle.elab_pieces.specs.Lines.{all_full};
ghost use Rattle.elab_pieces.specs.Statements as spec;
ghost use Rattle.elab_statements.specs.inner.Expressions.{DoneOutcome, made_at};
ghost use Rattle.elab_statements.specs.Bodies.{PieceOutcome, piece_at};
ghost use Rattle.elab_rows.specs.Addresses.{slot_assigned};
ghost use Rattle.elab_emit.specs.Emits.{IsSound};
ghost use Rattle.elab_rows.specs.Scope.{standing_of};
ghost use Rattle.elab_rows.specs.Values.{converted_code};

use crate::body::{Body, full_converted};
use crate::initialisers::initialise;
use crate::targets::{Base, Target};
use c_typed::{Entity, TypedDecl, TypedExpr, TypedInit, TypedInitDeclarator};
use c_types::{Ty, copy_type};
use core_ir::Instr;
use elab_emit::{Trouble, put};
use elab_rows::{Scope, Standing};

/// The initialisers of a declaration.
#[tactic(auto, using(crate::proofs::Joined::reaches))]
pub(crate) fn declaration(body: &mut Body, scope: &Scope, decl: &TypedDecl) -> Result<(), Trouble>
    requires { IsSound body.old.out }
    ensures made { PieceOutcome body.old (piece_at body.old (spec.decl_code scope.now decl.now)) result body.new }
    ensures sound { IsSound body.new.out }
{
    for declarator in decl.declarators.as_slice() {
        declared(body, scope, declarator)?;
    }
    Ok(())
}

/// The initialiser of a declared name, if it has one.
fn declared(body: &mut Body, scope: &Scope, declarator: &TypedInitDeclarator) -> Result<(), Trouble>
    requires { IsSound body.old.out }
    ensures made { PieceOutcome body.old (piece_at body.old (spec.declarator_code scope.now declarator.now)) result body.new }
    ensures sound { IsSound body.new.out }
{
    match (&declarator.init, declarator.entity) {
        (Some(init), Entity::Local(n)) => local(body, scope, n, &declarator.declared.ty, init),
        _ => Ok(()),
    }
}

/// The initialiser of a local.
#[tactic(auto, unfolding(elab_rows::specs::Scope::standing_of))]
fn local(body: &mut Body, scope: &Scope, n: u32, ty: &Ty, init: &TypedInit) -> Result<(), Trouble>
    requires { IsSound body.old.out }
    ensures made { PieceOutcome body.old (piece_at body.old (all_full (spec.local_initialised scope.now (standing_of scope.now n) ty.now init.now))) result body.new }
    ensures sound { IsSound body.new.out }
{
    match scope.locals.get(n as usize) {
        Some(Standing::Slot(s)) => slot_local(body, scope, *s, ty, init),
        Some(Standing::Frame(v)) => {
            let target = Target {
                base: Base::Local(*v),
                ty: copy_type(ty)?,
                all: true,
            };
            initialise(body, scope, &target, init)
        }
        None => Ok(()),
    }
}

/// The initialiser of a slot local.
fn slot_local(
    body: &mut Body,
    scope: &Scope,
    s: u32,
    ty: &Ty,
    init: &TypedInit,
) -> Result<(), Trouble>
    requires { IsSound body.old.out }
    ensures made { PieceOutcome body.old (piece_at body.old (all_full (spec.slot_initialised scope.now s ty.now (out-TypedInit init.now)))) result body.new }
    ensures sound { IsSound body.new.out }
{
    match init {
        TypedInit::Expr(expr) => set_local(body, scope, s, ty, expr),
        _ => Ok(()),
    }
}

/// The value of an expression becomes a slot local's.
fn set_local(
    body: &mut Body,
    scope: &Scope,
    s: u32,
    ty: &Ty,
    expr: &TypedExpr,
) -> Result<(), Trouble>
    requires { IsSound body.old.out }
    ensures made { DoneOutcome body.old (made_at body.old (slot_assigned s (converted_code scope.now expr.now ty.now))) result body.new }
    ensures sound { IsSound body.new.out }
{
    let a = full_converted(body, scope, expr, ty)?;
    put(&mut body.out, Instr::SetLocal { s, a })
}
