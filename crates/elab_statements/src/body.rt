//! The code of a function so far, and its full expressions, each of which numbers its registers from 0.

ghost use Rattle.std.specs.Prelude.{◌≡◌, [], length};
ghost use Rattle.elab_statements.specs.inner.Expressions.{FullOutcome, made_at};
ghost use Rattle.elab_statements.specs.Bodies.{PutAll};
ghost use Rattle.elab_pieces.specs.Statements.{leaving};
ghost use Rattle.elab_emit.specs.Emits.{IsSound};
ghost use Rattle.elab_rows.specs.Values.{converted_code, value_code};

use c_typed::TypedExpr;
use c_types::Ty;
use core_ir::Instr;
use elab_emit::{Emitter, Trouble, put};
use elab_expr::{converted, value};
use elab_rows::Scope;
use std::alloc::Global;

/// The code of a function so far.
#[derive(Debug, Drop)]
pub struct Body {
    pub out: Emitter,
    /// The most registers of its full expressions.
    pub registers: u32,
}

impl Body {
    /// No code, where this is the first slot behind those of parameters and locals.
    pub fn new(alloc: Global, slot: u32) -> Body
        ensures code { result.out.code ≡ [] }
        ensures slot { result.out.slot ≡ slot }
        ensures register { result.out.register ≡ 0 }
        ensures registers { result.registers ≡ 0 }
    {
        Body {
            out: Emitter::new(alloc, slot),
            registers: 0,
        }
    }
}

/// The value of a full expression, and the register that it has.
#[tactic(auto, unfolding(elab_rows::specs::Values::value_code))]
pub(crate) fn full_value(body: &mut Body, scope: &Scope, expr: &TypedExpr) -> Result<u32, Trouble>
    requires { IsSound body.old.out }
    ensures made { FullOutcome body.old (made_at body.old (value_code scope.now expr.now)) result body.new }
    ensures sound { IsSound body.new.out }
{
    body.out.register = 0;
    let value = value(&mut body.out, scope, expr)?;
    body.registers = body.registers.max(body.out.register);
    Ok(value)
}

/// The same, converted to this type.
#[tactic(auto, unfolding(elab_rows::specs::Values::converted_code))]
pub(crate) fn full_converted(
    body: &mut Body,
    scope: &Scope,
    expr: &TypedExpr,
    to: &Ty,
) -> Result<u32, Trouble>
    requires { IsSound body.old.out }
    ensures made { FullOutcome body.old (made_at body.old (converted_code scope.now expr.now to.now)) result body.new }
    ensures sound { IsSound body.new.out }
{
    body.out.register = 0;
    let value = converted(&mut body.out, scope, expr, to)?;
    body.registers = body.registers.max(body.out.register);
    Ok(value)
}

/// `Leave`, if there is a frame; `Return`.
pub fn leave(body: &mut Body, has_frame: bool, a: Option<u32>) -> Result<(), Trouble>
    requires { IsSound body.old.out }
    ensures made { PutAll body.old (leaving has_frame a) result body.new }
    ensures sound { IsSound body.new.out }
{
    if has_frame {
        put(&mut body.out, Instr::Leave)?;
    }
    put(&mut body.out, Instr::Return { a })
}
