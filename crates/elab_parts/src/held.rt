//! Rows of parts whose value or address a register has already.

ghost use Rattle.std.specs.Prelude.{◌≡◌, IfOk, pos};
ghost use Rattle.c_types.specs.Kinds.{is_function as function_test, is_struct as struct_test};
ghost use Rattle.elab_rows.specs.Addresses as lvalues;
ghost use Rattle.elab_emit.specs.Emits.{IsSound, Outcome, code_of};
ghost use Rattle.elab_rows.specs.Made.{converted, held};
ghost use Rattle.elab_rows.specs.Rows as rows;
ghost use Rattle.elab_rows.specs.Units.{scalars, units as unit_count};
ghost use Rattle.elab_rows.specs.Values as spec;
ghost use Rattle.elab_rows.specs.Values.{operand, part};
ghost use Rattle.elab_emit.specs.Held.{from_root};

use crate::types::{operated_type, pointed, root};
use c_operators::value_type;
use c_tree::BinaryOperator;
use c_typed::TypedExpr;
use c_types::{FnTy, Ty, is_function, is_struct};
use elab_emit::{
    Emitter, Trouble, called_type, convert, copy_struct, load, member_offset, point, size, store,
    value_at,
};
use elab_rows::Scope;
use std::alloc::AllocError;

/// The units of an expression.
#[tactic(auto, using(crate::proofs::Nodes::type_is))]
pub fn size_of(out: &mut Emitter, scope: &Scope, x: &TypedExpr) -> Result<u32, Trouble>
    requires { IsSound out.old }
    ensures made { Outcome out.old (code_of out.old (rows.number (pos (unit_count scope.now.structs (part scope.now x.now).ty)))) result out.new }
    ensures sound { IsSound out.new }
{
    size(out, scope, &x.ty)
}

/// A conversion of an expression's value, which a register has.
#[tactic(auto, using(crate::proofs::Nodes::type_is), unfolding(c_operators::specs::Operators::value_type, c_operators::specs::Operators::type_of))]
pub fn convert_value(
    out: &mut Emitter,
    scope: &Scope,
    x: &TypedExpr,
    a: u32,
    to: &Ty,
) -> Result<u32, Trouble>
    requires { IsSound out.old }
    ensures made { Outcome out.old (code_of out.old (rows.converted_to to.now (spec.old_operand (part scope.now x.now) (held a)))) result out.new }
    ensures sound { IsSound out.new }
{
    let alloc = out.alloc;
    let from = value_type(alloc, x)?;
    convert(out, a, &from, to)
}

/// The value of an lvalue at this address.
#[tactic(auto, using(crate::proofs::Nodes::lvalue_type))]
pub fn value_of(out: &mut Emitter, scope: &Scope, expr: &TypedExpr, p: u32) -> Result<u32, Trouble>
    requires { IsSound out.old }
    ensures made { let l = (part scope.now expr.now).lvalue in
        Outcome out.old (code_of out.old (lvalues.lvalue_value (from_root l.ty l.root (held p)))) result out.new }
    ensures sound { IsSound out.new }
{
    let root = root(scope, expr)?;
    value_at(out, root, &expr.ty, p)
}

/// The pointer to an lvalue at this address.
#[tactic(auto, using(crate::proofs::Nodes::lvalue_type))]
pub fn pointer_to(
    out: &mut Emitter,
    scope: &Scope,
    expr: &TypedExpr,
    p: u32,
) -> Result<u32, Trouble>
    requires { IsSound out.old }
    ensures made { let l = (part scope.now expr.now).lvalue in
        Outcome out.old (code_of out.old (lvalues.pointing l.root l.ty (held p))) result out.new }
    ensures sound { IsSound out.new }
{
    let root = root(scope, expr)?;
    point(out, root, &expr.ty, p)
}

/// The value of an lvalue at this address.
#[tactic(auto, using(crate::proofs::Nodes::lvalue_type))]
pub fn load_lvalue(out: &mut Emitter, scope: &Scope, a: &TypedExpr, p: u32) -> Result<u32, Trouble>
    requires { IsSound out.old }
    ensures made { Outcome out.old (code_of out.old (lvalues.loaded (record (part scope.now a.now).lvalue { address = held p }))) result out.new }
    ensures sound { IsSound out.new }
{
    let root = root(scope, a)?;
    load(out, root, &a.ty, p)
}

/// A register is stored in an lvalue at this address.
#[tactic(auto, using(crate::proofs::Nodes::lvalue_type))]
pub fn store_lvalue(
    out: &mut Emitter,
    scope: &Scope,
    a: &TypedExpr,
    p: u32,
    x: u32,
) -> Result<u32, Trouble>
    requires { IsSound out.old }
    ensures made { Outcome out.old (lvalues.restored_made (part scope.now a.now).lvalue.root (part scope.now a.now).lvalue.ty p (code_of out.old (held x))) result out.new }
    ensures sound { IsSound out.new }
{
    let root = root(scope, a)?;
    store(out, root, &a.ty, p, x)
}

/// Whether an expression has the type of a function.
#[tactic(auto, using(crate::proofs::Nodes::type_is))]
pub fn has_function_type(_scope: &Scope, x: &TypedExpr) -> bool
    ensures { result ≡ function_test (part _scope.now x.now).ty }
{
    is_function(&x.ty)
}

/// Whether an expression has the type of a struct.
#[tactic(auto, using(crate::proofs::Nodes::type_is))]
pub fn has_struct_type(_scope: &Scope, x: &TypedExpr) -> bool
    ensures { result ≡ struct_test (part _scope.now x.now).ty }
{
    is_struct(&x.ty)
}

/// The offset of a member of a struct that an expression is.
///
/// # Errors
///
/// `AllocError`, where it is no struct or there is no such member.
#[tactic(auto, using(crate::proofs::Nodes::type_is))]
pub fn dot_offset(scope: &Scope, x: &TypedExpr, member: u32) -> Result<u32, AllocError>
    ensures { IfOk result (λ k. k ≡ spec.member_offset scope.now (part scope.now x.now).ty member) }
{
    member_offset(scope, &x.ty, member)
}

/// The offset of a member of a struct to which a value points.
///
/// # Errors
///
/// `AllocError`, where it points to no struct or there is no such member.
pub fn arrow_offset(scope: &Scope, x: &TypedExpr, member: u32) -> Result<u32, AllocError>
    ensures { IfOk result (λ k. k ≡ spec.member_offset scope.now (spec.target (spec.value_type (part scope.now x.now))) member) }
{
    let target = pointed(scope, x)?;
    member_offset(scope, target, member)
}

/// The type of the function that an expression calls.
///
/// # Errors
///
/// `AllocError`, where it is neither a function nor a pointer to one.
#[tactic(auto, using(crate::proofs::Nodes::type_is))]
pub(crate) fn callee_type<'a>(_scope: &Scope, x: &'a TypedExpr) -> Result<&'a FnTy, AllocError>
    ensures { IfOk result (λ f. f.now ≡ spec.called_type (part _scope.now x.now).ty) }
{
    called_type(&x.ty)
}

/// What an operator gives is converted back to the type of its first operand.
#[tactic(auto, using(crate::proofs::Nodes::type_is))]
pub fn convert_back(
    out: &mut Emitter,
    scope: &Scope,
    operator: BinaryOperator,
    x: &TypedExpr,
    y: &TypedExpr,
    a: u32,
) -> Result<u32, Trouble>
    requires { IsSound out.old }
    ensures made { Outcome out.old (code_of out.old (converted (rows.operated_type scope.now.structs operator
        (operand (part scope.now x.now)) (operand (part scope.now y.now))) (part scope.now x.now).ty (held a))) result out.new }
    ensures sound { IsSound out.new }
{
    let alloc = out.alloc;
    let from = operated_type(alloc, scope, operator, x, y)?;
    convert(out, a, &from, &x.ty)
}

/// The struct of one lvalue, at `p`, is assigned to another, at `q`.
#[tactic(auto, using(crate::proofs::Nodes::type_is))]
pub fn copy_lvalue(
    out: &mut Emitter,
    scope: &Scope,
    to: &TypedExpr,
    q: u32,
    from: &TypedExpr,
    p: u32,
) -> Result<u32, Trouble>
    requires { IsSound out.old }
    ensures made { Outcome out.old (lvalues.copied_made (part scope.now from.now).lvalue.root (part scope.now to.now).lvalue.root
        (scalars scope.now.structs (part scope.now to.now).ty) (code_of out.old (held p)) (code_of out.old (held q))) result out.new }
    ensures sound { IsSound out.new }
{
    let source = root(scope, from)?;
    let target = root(scope, to)?;
    copy_struct(out, &scope.structs, &to.ty, &source, p, &target, q)
}
