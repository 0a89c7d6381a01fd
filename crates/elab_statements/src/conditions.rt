//! Conditions. The branch behind one is written once its place is known.

ghost use Rattle.std.specs.Prelude.{◌<◌, length};
ghost use Rattle.std.specs.Option.{option_copied, option_map};
ghost use Rattle.elab_pieces.specs.Statements.{value_of};
ghost use Rattle.elab_statements.specs.inner.Expressions.{made_at};
ghost use Rattle.elab_statements.specs.inner.Jumps.{AreWithin, DoOutcome, IsWithin, JumpOutcome, LoopOutcome, OptionalTest, Rewritten, TestOutcome, if_else_end, if_end};
ghost use Rattle.elab_emit.specs.Emits.{IsSound};

use crate::body::{Body, full_value};
use crate::open::{Open, lead};
use c_typed::TypedFullExpr;
use core_ir::Instr;
use elab_emit::{Trouble, put};
use elab_rows::Scope;

/// A condition: the register of its value, and the place of its branch.
#[derive(Clone, Copy, Debug, PartialEq, Eq)]
pub(crate) struct Test {
    pub(crate) value: u32,
    pub(crate) place: usize,
}

/// `V(c); Branch`.
pub(crate) fn condition(body: &mut Body, scope: &Scope, c: &TypedFullExpr) -> Result<Test, Trouble>
    requires { IsSound body.old.out }
    ensures made { TestOutcome body.old (made_at body.old (value_of scope.now c.now)) result body.new }
    ensures sound { IsSound body.new.out }
{
    let value = full_value(body, scope, c.expr.get())?;
    let place = body.out.code.len();
    put(&mut body.out, Instr::Branch { a: value, l: 0 })?;
    Ok(Test { value, place })
}

/// The same, if there is a condition.
pub(crate) fn optional_test(
    body: &mut Body,
    scope: &Scope,
    c: Option<&TypedFullExpr>,
) -> Result<Option<Test>, Trouble>
    requires { IsSound body.old.out }
    ensures made { OptionalTest body.old (option_map (made_at body.old) (option_map (value_of scope.now) (option_copied c.entry))) result body.new }
    ensures sound { IsSound body.new.out }
{
    match c {
        None => Ok(None),
        Some(c) => Ok(Some(condition(body, scope, c)?)),
    }
}

/// The end of an `if` without `else`: the branch of its condition leads behind it.
pub(crate) fn finish_if(body: &mut Body, c: Test)
    requires sound { IsSound body.old.out }
    requires hole { c.place < length body.old.out.code }
    ensures made { Rewritten body.old (if_end body.old c) body.new }
    ensures sound { IsSound body.new.out }
{
    let end = body.out.code.len() as u32;
    body.out
        .code
        .set(c.place, Instr::Branch { a: c.value, l: end });
}

/// The jump behind the first part of an `if` with `else`, and its place. It isn't written yet.
pub(crate) fn else_jump(body: &mut Body) -> Result<usize, Trouble>
    requires { IsSound body.old.out }
    ensures made { JumpOutcome body.old result body.new }
    ensures sound { IsSound body.new.out }
{
    let place = body.out.code.len();
    put(&mut body.out, Instr::Jump { l: 0 })?;
    Ok(place)
}

/// The end of an `if` with `else`: the branch leads behind the jump, and that to the end.
pub(crate) fn finish_if_else(body: &mut Body, c: Test, jump: usize)
    requires sound { IsSound body.old.out }
    requires hole { c.place < length body.old.out.code }
    requires jump { jump < length body.old.out.code }
    ensures made { Rewritten body.old (if_else_end body.old c jump) body.new }
    ensures sound { IsSound body.new.out }
{
    let end = body.out.code.len() as u32;
    let other = jump as u32 + 1;
    body.out.code.set(
        c.place,
        Instr::Branch {
            a: c.value,
            l: other,
        },
    );
    body.out.code.set(jump, Instr::Jump { l: end });
}

/// The end of a loop: a jump to its start; its open jumps are written, and the branch of its condition.
pub(crate) fn finish_loop(
    body: &mut Body,
    c: Option<Test>,
    jumps: &[Open],
    start: u32,
    next: u32,
) -> Result<(), Trouble>
    requires sound { IsSound body.old.out }
    requires test { IsWithin (length body.old.out.code) c }
    requires jumps { AreWithin (length body.old.out.code) jumps.now }
    ensures made { LoopOutcome body.old c jumps.now start next result body.new }
    ensures sound { IsSound body.new.out }
{
    put(&mut body.out, Instr::Jump { l: start })?;
    let end = body.out.code.len() as u32;
    lead(&mut body.out.code, jumps, end, next);
    if let Some(c) = c {
        body.out
            .code
            .set(c.place, Instr::Branch { a: c.value, l: end });
    }
    Ok(())
}

/// The end of a `do`: its branch, a jump to its start; its open jumps are written.
pub(crate) fn finish_do(
    body: &mut Body,
    value: u32,
    jumps: &[Open],
    start: u32,
    next: u32,
) -> Result<(), Trouble>
    requires sound { IsSound body.old.out }
    requires jumps { AreWithin (length body.old.out.code) jumps.now }
    ensures made { DoOutcome body.old value jumps.now start next result body.new }
    ensures sound { IsSound body.new.out }
{
    let end = body.out.code.len() as u32 + 2;
    put(&mut body.out, Instr::Branch { a: value, l: end })?;
    put(&mut body.out, Instr::Jump { l: start })?;
    lead(&mut body.out.code, jumps, end, next);
    Ok(())
}
