//! The code of expressions: what emits one level, tied to itself.

ghost use Rattle.std.specs.Prelude.{◌≡◌};
ghost use Rattle.elab_emit.specs.Emits.{IsSound, Outcome, code_of};
ghost use Rattle.elab_rows.specs.Values as spec;
ghost use Rattle.elab_rows.specs.Values.{part};

use crate::pass::Pass;
use c_typed::TypedExpr;
use c_types::Ty;
use elab_emit::{Emitter, Trouble};
use elab_parts::{Parts, convert_value};
use elab_rows::Scope;

/// How deep a tree may nest. Those of sources nest a few hundred deep.
const DEEPEST: u32 = 65_536;

/// The value of a tree that nests at most so deep.
#[cycle(nests)]
fn nested_value(
    out: &mut Emitter,
    scope: &Scope,
    depth: u32,
    expr: &TypedExpr,
) -> Result<u32, Trouble>
    requires { IsSound out.old }
    ensures made { Outcome out.old (code_of out.old (part scope.now expr.now).value) result out.new }
    ensures sound { IsSound out.new }
{
    let parts = Parts {
        scope,
        depth,
        values: nested_value,
        addresses: nested_address,
    };
    Pass { parts }.node_value(out, expr)
}

/// A of a tree that nests at most so deep.
#[cycle(nests)]
fn nested_address(
    out: &mut Emitter,
    scope: &Scope,
    depth: u32,
    expr: &TypedExpr,
) -> Result<u32, Trouble>
    requires { IsSound out.old }
    ensures made { Outcome out.old (code_of out.old (part scope.now expr.now).lvalue.address) result out.new }
    ensures sound { IsSound out.new }
{
    let parts = Parts {
        scope,
        depth,
        values: nested_value,
        addresses: nested_address,
    };
    Pass { parts }.node_address(out, expr)
}

/// The code of a value, and the register that it has. An expression without a value gives any register.
///
/// # Errors
///
/// `TooLong`, exactly where memory lasts and the code is longer than a function may be. `Memory`, where no
/// memory is left, or a number that typing bounds is above its bound, as how deep a tree nests.
pub fn value(out: &mut Emitter, scope: &Scope, expr: &TypedExpr) -> Result<u32, Trouble>
    requires { IsSound out.old }
    ensures made { Outcome out.old (code_of out.old (part scope.now expr.now).value) result out.new }
    ensures sound { IsSound out.new }
{
    nested_value(out, scope, DEEPEST, expr)
}

/// A of an lvalue in memory.
///
/// # Errors
///
/// As of `value`.
pub fn address(out: &mut Emitter, scope: &Scope, expr: &TypedExpr) -> Result<u32, Trouble>
    requires { IsSound out.old }
    ensures made { Outcome out.old (code_of out.old (part scope.now expr.now).lvalue.address) result out.new }
    ensures sound { IsSound out.new }
{
    nested_address(out, scope, DEEPEST, expr)
}

/// The code of a value, converted to this type.
///
/// # Errors
///
/// As of `value`.
#[tactic(auto, using(elab_parts::proofs::ValueRows::converted_row, elab_parts::proofs::ValueRows::converted_stop))]
pub fn converted(
    out: &mut Emitter,
    scope: &Scope,
    expr: &TypedExpr,
    to: &Ty,
) -> Result<u32, Trouble>
    requires { IsSound out.old }
    ensures made { Outcome out.old (code_of out.old (spec.converted_part (part scope.now expr.now) to.now)) result out.new }
    ensures sound { IsSound out.new }
{
    let a = value(out, scope, expr)?;
    convert_value(out, scope, expr, a, to)
}
