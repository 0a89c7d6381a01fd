//! The leaves of initialisers, each a full expression.

ghost use Rattle.std.specs.Prelude.{◌≡◌, Some, pos};
ghost use Rattle.elab_pieces.specs.Initialisers.{ByExpr, leaf_assigned};
ghost use Rattle.elab_pieces.specs.Functions.{parameter_copy as copied};
ghost use Rattle.elab_pieces.specs.Lines.{full};
ghost use Rattle.elab_statements.specs.Bodies.{PieceOutcome, piece_at};
ghost use Rattle.elab_statements.specs.inner.Expressions.{DoneOutcome, made_at};
ghost use Rattle.elab_statements.specs.inner.Leaves.{lvalue_of};
ghost use Rattle.c_types.specs.declared.ty.Ty.TheVariants as ty_is;
ghost use Rattle.elab_rows.specs.Addresses.{assigned, struct_assigned};
ghost use Rattle.elab_emit.specs.Emits.{IsSound, Outcome, code_of};
ghost use Rattle.elab_rows.specs.Made.{converted as converts};
ghost use Rattle.elab_rows.specs.Rows.{number as number_code};
ghost use Rattle.elab_rows.specs.Units.{scalars};
ghost use Rattle.elab_rows.specs.Values.{converted_code, part};

use crate::body::Body;
use crate::targets::{Base, Target, part_address, store_part, zero};
use c_typed::TypedExpr;
use c_types::{Ty, copy_type, is_struct};
use elab_emit::{Emitter, Trouble, copy_struct, number, slot};
use elab_expr::{address, converted, root};
use elab_rows::Scope;

/// A part that an expression gives; without an offset the whole variable.
pub(crate) fn given(
    body: &mut Body,
    scope: &Scope,
    target: &Target,
    ty: &Ty,
    offset: Option<u32>,
    expr: &TypedExpr,
) -> Result<(), Trouble>
    requires { IsSound body.old.out }
    ensures made { DoneOutcome body.old (made_at body.old (leaf_assigned scope.now (lvalue_of target.now offset ty.now) (ByExpr expr.now))) result body.new }
    ensures sound { IsSound body.new.out }
{
    body.out.register = 0;
    if is_struct(ty) {
        give_struct(&mut body.out, scope, target, ty, offset, expr)?;
    } else {
        give_scalar(&mut body.out, scope, target, ty, offset, expr)?;
    }
    body.registers = body.registers.max(body.out.register);
    Ok(())
}

/// A scalar that an expression gives.
fn give_scalar(
    out: &mut Emitter,
    scope: &Scope,
    target: &Target,
    ty: &Ty,
    offset: Option<u32>,
    expr: &TypedExpr,
) -> Result<u32, Trouble>
    requires { IsSound out.old }
    ensures made { Outcome out.old (code_of out.old (assigned (lvalue_of target.now offset ty.now) (converted_code scope.now expr.now ty.now))) result out.new }
    ensures sound { IsSound out.new }
{
    let a = converted(out, scope, expr, ty)?;
    store_part(out, target, ty, offset, a)
}

/// A struct that an expression gives.
fn give_struct(
    out: &mut Emitter,
    scope: &Scope,
    target: &Target,
    ty: &Ty,
    offset: Option<u32>,
    expr: &TypedExpr,
) -> Result<u32, Trouble>
    requires { IsSound out.old }
    ensures made { Outcome out.old (code_of out.old (struct_assigned (scalars scope.now.structs ty.now) (lvalue_of target.now offset ty.now) (part scope.now expr.now).lvalue)) result out.new }
    ensures sound { IsSound out.new }
{
    let from = root(scope, expr)?;
    let p = address(out, scope, expr)?;
    let q = part_address(out, target.base, offset)?;
    copy_struct(out, &scope.structs, ty, &from, p, &target.ty, q)
}

/// A byte of a string.
pub(crate) fn byte_leaf(
    body: &mut Body,
    target: &Target,
    ty: &Ty,
    offset: u32,
    byte: u8,
) -> Result<(), Trouble>
    requires { IsSound body.old.out }
    ensures made { DoneOutcome body.old (made_at body.old (assigned (lvalue_of target.now (Some offset) ty.now) (number_code (pos byte)))) result body.new }
    ensures sound { IsSound body.new.out }
{
    body.out.register = 0;
    let a = number(&mut body.out, i64::from(byte))?;
    store_part(&mut body.out, target, ty, Some(offset), a)?;
    body.registers = body.registers.max(body.out.register);
    Ok(())
}

/// A scalar that nothing gives.
pub(crate) fn missing_leaf(
    body: &mut Body,
    target: &Target,
    ty: &Ty,
    offset: u32,
) -> Result<(), Trouble>
    requires { IsSound body.old.out }
    ensures made { DoneOutcome body.old (made_at body.old (assigned (lvalue_of target.now (Some offset) ty.now) (converts ty_is.Int ty.now (number_code (pos 0))))) result body.new }
    ensures sound { IsSound body.new.out }
{
    body.out.register = 0;
    let a = zero(&mut body.out, ty)?;
    store_part(&mut body.out, target, ty, Some(offset), a)?;
    body.registers = body.registers.max(body.out.register);
    Ok(())
}

/// The copy of a parameter from its slot to the frame.
pub fn parameter_copy(body: &mut Body, s: u32, v: u32, ty: &Ty) -> Result<(), Trouble>
    requires { IsSound body.old.out }
    ensures made { PieceOutcome body.old (piece_at body.old (full (copied s v ty.now))) result body.new }
    ensures sound { IsSound body.new.out }
{
    body.out.register = 0;
    let a = slot(&mut body.out, s)?;
    let target = Target {
        base: Base::Local(v),
        ty: copy_type(ty)?,
        all: true,
    };
    store_part(&mut body.out, &target, ty, None, a)?;
    body.registers = body.registers.max(body.out.register);
    Ok(())
}
