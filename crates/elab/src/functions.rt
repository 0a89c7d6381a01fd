//! The code of functions.

ghost use Rattle.std.specs.Prelude.{◌≡◌, ◌<◌, IfOk, MatchOption, OnOk, length};
ghost use Rattle.c_types.specs.declared.ty.FnTy.{out-FnTy};
ghost use Rattle.elab_pieces.specs.Functions as spec;
ghost use Rattle.elab_statements.specs.Bodies.{PieceOutcome, PutAll, piece_at};
ghost use Rattle.core_ir.specs.Valid.{most_frame_units};
ghost use Rattle.core_ir.specs.declared.program.Function.{Function as CoreFunction};
ghost use Rattle.elab_pieces.specs.Statements.{block_code};
ghost use Rattle.elab.specs.inner.Programs.{BodyOutcome, FunctionOutcome, IsFunction, bare, frame_stands, inside, is_laid_out};
ghost use Rattle.elab_emit.specs.Emits.{IsSound};
ghost use Rattle.elab_rows.specs.Scope.{slots_behind, standings};

use crate::frames::{Frame, frame_of, local_standings};
use c_typed::TypedFn;
use c_types::{FnTy, Ty, copy_type, function_of};
use core_ir::{Function, Instr};
use elab_emit::{Trouble, copy_function, put};
use elab_rows::{Scope, Standing};
use elab_statements::{Body, function_block, leave, parameter_copy};
use sqlite_items::Items;
use std::alloc::{AllocError, Global};

/// The most slots of parameters and locals: of each, a source has a token.
const MOST_LOCALS: u32 = 2_147_483_648;

/// A function whose code is there. It has no frame where that has more units than a frame may have.
#[derive(Drop)]
pub(crate) struct Elaborated {
    pub(crate) ty: FnTy,
    pub(crate) body: Body,
    pub(crate) frame: Option<Frame>,
}

/// The copies of the parameters that are frame locals.
fn parameter_copies(body: &mut Body, params: &[Ty], locals: &[Standing]) -> Result<(), Trouble>
    requires { IsSound body.old.out }
    ensures made { PieceOutcome body.old (piece_at body.old (spec.parameter_copies 0 params.now locals.now)) result body.new }
    ensures sound { IsSound body.new.out }
{
    for (i, ty) in params.iter().enumerate() {
        let Some(local) = locals.get(i) else {
            return Ok(());
        };
        copy_by(body, i, ty, *local)?;
    }
    Ok(())
}

/// The copy of a parameter that stands here, if it is a frame local.
fn copy_by(body: &mut Body, i: usize, ty: &Ty, local: Standing) -> Result<(), Trouble>
    requires { IsSound body.old.out }
    ensures made { PieceOutcome body.old (piece_at body.old (spec.copy_by i ty.now local)) result body.new }
    ensures sound { IsSound body.new.out }
{
    match local {
        Standing::Frame(v) => parameter_copy(body, slot_number(i)?, v, ty),
        Standing::Slot(_) => Ok(()),
    }
}

/// The slot of a parameter.
///
/// # Errors
///
/// `AllocError`, where its number is above 32 bits.
fn slot_number(i: usize) -> Result<u32, AllocError>
    ensures { IfOk result (λ s. s ≡ i) }
{
    if i > u32::MAX as usize {
        return Err(AllocError);
    }
    Ok(i as u32)
}

/// `Enter`, if there is a frame.
fn enter(body: &mut Body, has_frame: bool) -> Result<(), Trouble>
    requires { IsSound body.old.out }
    ensures made { PutAll body.old (spec.entering has_frame) result body.new }
    ensures sound { IsSound body.new.out }
{
    if !has_frame {
        return Ok(());
    }
    put(&mut body.out, Instr::Enter)
}

/// The whole body of a function in its scope.
fn whole_body(body: &mut Body, scope: &Scope, ty: &FnTy, function: &TypedFn) -> Result<(), Trouble>
    requires { IsSound body.old.out }
    ensures made { PieceOutcome body.old (piece_at body.old (spec.body_code scope.now.has_frame (spec.parameter_copies 0 (out-FnTy ty.now).params scope.now.locals) (block_code scope.now function.now.block))) result body.new }
    ensures sound { IsSound body.new.out }
{
    enter(body, scope.has_frame)?;
    parameter_copies(body, ty.params.as_slice(), scope.locals.as_slice())?;
    function_block(body, scope, &function.block)?;
    leave(body, scope.has_frame, None)
}

/// The same from no code on, behind so many slots.
fn body_of(
    alloc: Global,
    scope: &Scope,
    slots: u32,
    ty: &FnTy,
    function: &TypedFn,
) -> Result<Body, Trouble>
    ensures { BodyOutcome (spec.body_code scope.now.has_frame (spec.parameter_copies 0 (out-FnTy ty.now).params scope.now.locals) (block_code scope.now function.now.block) 0 slots) result }
{
    if slots > MOST_LOCALS {
        return Err(Trouble::Memory);
    }
    let mut body = Body::new(alloc, slots);
    whole_body(&mut body, scope, ty, function)?;
    Ok(body)
}

/// The scope becomes that of a function of this type.
fn go_inside(
    scope: &mut Scope,
    ty: &FnTy,
    places: Items<Standing>,
    has_frame: bool,
) -> Result<(), AllocError>
    ensures scope { OnOk result (scope.new ≡ inside scope.old (out-FnTy ty.now).result places has_frame) }
    ensures file { bare scope.new ≡ bare scope.old }
{
    scope.has_frame = has_frame;
    scope.locals = places;
    scope.result = copy_type(&ty.result)?;
    Ok(())
}

/// The scope becomes that of a definition of this type. The first slot behind those of its locals.
fn settle(
    alloc: Global,
    scope: &mut Scope,
    ty: &FnTy,
    definition: &TypedFn,
    has_frame: bool,
) -> Result<u32, AllocError>
    ensures scope { IfOk result (λ slots. (slots ≡ slots_behind (length (out-FnTy ty.now).params) 0 definition.now.locals)
        × (scope.new ≡ inside scope.old (out-FnTy ty.now).result (standings (length (out-FnTy ty.now).params) 0 0 definition.now.locals) has_frame)) }
    ensures file { bare scope.new ≡ bare scope.old }
{
    let own = local_standings(alloc, ty.params.len(), definition.locals.as_slice())?;
    let slots = own.slots;
    go_inside(scope, ty, own.places, has_frame)?;
    Ok(slots)
}

/// The function of a definition. The scope becomes that of the function.
pub(crate) fn function(
    alloc: Global,
    scope: &mut Scope,
    definition: &TypedFn,
) -> Result<Elaborated, Trouble>
    ensures made { FunctionOutcome (spec.function_code (bare scope.old) definition.now) result }
    ensures scope { bare scope.new ≡ bare scope.old }
{
    let Some(ty) = function_of(&definition.declared.ty) else {
        return Err(Trouble::Memory);
    };
    let frame = frame_of(alloc, scope, definition.locals.as_slice())?;
    let slots = settle(alloc, scope, ty, definition, has_frame(&frame))?;
    let body = body_of(alloc, scope, slots, ty, definition)?;
    let ty = copy_function(alloc, ty)?;
    Ok(Elaborated { ty, body, frame })
}

/// Whether there is a frame: also one of more units than a frame may have.
fn has_frame(frame: &Option<Frame>) -> bool
    ensures { result ≡ frame_stands frame.now }
{
    match frame {
        Some(frame) => !frame.locals.is_empty(),
        None => true,
    }
}

/// Whether a function has a frame that it may have.
pub(crate) fn has_room(frame: &Option<Frame>) -> bool
    ensures { result ≡ is_laid_out frame.now }
{
    match frame {
        Some(_) => true,
        None => false,
    }
}

/// The function itself, where its frame isn't too large.
pub(crate) fn finished(made: Elaborated) -> Option<Function>
    ensures { (f : CoreFunction) → IsFunction f made → MatchOption result (most_frame_units < f.frame_units) (λ g. g ≡ f) }
{
    let Elaborated { ty, body, frame } = made;
    let Body { out, registers } = body;
    match frame {
        Some(frame) => Some(Function {
            ty,
            registers,
            slots: out.slot,
            locals: frame.locals,
            frame_units: frame.units,
            body: out.code,
        }),
        None => None,
    }
}
