//! Types that rows ask for.

ghost use Rattle.std.specs.Prelude.{◌≡◌, IfOk, pos};
ghost use Rattle.std.specs.Mem.{manually_drop_value};
ghost use Rattle.c_operators.specs.Operators.{typed};
ghost use Rattle.c_typed.specs.declared.entity.Constant.TheVariants as constant;
ghost use Rattle.c_typed.specs.declared.expression.TypedForm.TheVariants as form;
ghost use Rattle.c_typed.specs.declared.expression.TypedExpr.{out-TypedExpr};
ghost use Rattle.c_types.specs.declared.ty.Ty.TheVariants as ty;
ghost use Rattle.elab_rows.specs.Rows as rows;
ghost use Rattle.elab_rows.specs.Values as spec;
ghost use Rattle.elab_rows.specs.Values.{operand, part};
ghost use Rattle.elab_parts.specs.inner.Nodes.{node, root_by};

use c_operators::{compared_as, operated};
use c_tree::BinaryOperator;
use c_typed::{Constant, TypedExpr, TypedForm};
use c_types::{Ty, copy_type};
use elab_emit::target;
use elab_rows::Scope;
use std::alloc::{AllocError, Global};
use std::mem::ManuallyDrop;

/// The type to which both operands are converted.
#[tactic(auto, using(crate::proofs::Nodes::operand_is), unfolding(elab_rows::specs::Rows::operand_type, c_operators::specs::Operators::compared_as))]
pub(crate) fn operand_type(
    alloc: Global,
    _scope: &Scope,
    x: &TypedExpr,
    y: &TypedExpr,
) -> Result<Ty, AllocError>
    ensures { IfOk result (λ t.
        t ≡ rows.operand_type (operand (part _scope.now x.now)) (operand (part _scope.now y.now))) }
{
    match compared_as(alloc, x, y)? {
        Some(ty) => Ok(ty),
        None => Ok(Ty::Int),
    }
}

/// The type that an operator gives.
#[tactic(auto, using(crate::proofs::Nodes::operand_is), unfolding(elab_rows::specs::Rows::operated_type, c_operators::specs::Operators::operated))]
pub(crate) fn operated_type(
    alloc: Global,
    scope: &Scope,
    operator: BinaryOperator,
    x: &TypedExpr,
    y: &TypedExpr,
) -> Result<Ty, AllocError>
    ensures { IfOk result (λ t. t ≡ rows.operated_type scope.now.structs operator
        (operand (part scope.now x.now)) (operand (part scope.now y.now))) }
{
    match operated(alloc, &scope.structs, operator, x, y)? {
        Some(ty) => Ok(ty),
        None => Ok(Ty::Int),
    }
}

/// The number 1. It is never let go, as it holds nothing to let go: whatever owns a tree has a case for each of
/// its forms wherever it may end.
#[tactic(auto, unfolding(c_operators::specs::Operators::typed))]
pub fn one() -> ManuallyDrop<TypedExpr>
    ensures { manually_drop_value result ≡ typed (form.Number (pos 1)) ty.Int (constant.Value (pos 1)) }
{
    ManuallyDrop::new(TypedExpr {
        form: TypedForm::Number(1),
        ty: Ty::Int,
        constant: Constant::Value(1),
    })
}

/// What the pointer that an expression's value is points to.
///
/// # Errors
///
/// `AllocError`, where it is no pointer.
#[tactic(auto, using(crate::proofs::Nodes::target_is))]
pub(crate) fn pointed<'a>(_scope: &Scope, expr: &'a TypedExpr) -> Result<&'a Ty, AllocError>
    ensures { IfOk result (λ t. t.now ≡ spec.target (spec.value_type (part _scope.now expr.now))) }
{
    target(&expr.ty)
}

/// The root of an lvalue: its variable's type, or that of what is dereferenced.
///
/// # Errors
///
/// `AllocError`, where no memory is left, or `->` stands behind no pointer.
#[cycle(root)]
#[tactic(auto, using(crate::proofs::Nodes::root_is))]
pub fn root(scope: &Scope, expr: &TypedExpr) -> Result<Ty, AllocError>
    ensures { IfOk result (λ t. t ≡ (part scope.now expr.now).lvalue.root) }
{
    form_root(scope, expr)
}

/// The same of a form.
#[cycle(root)]
fn form_root(scope: &Scope, expr: &TypedExpr) -> Result<Ty, AllocError>
    ensures { IfOk result (λ t. t ≡ root_by (node scope.now expr.now) (out-TypedExpr expr.now).ty) }
{
    match &expr.form {
        TypedForm::Member(a, _, _) => root(scope, a.get()),
        TypedForm::Arrow(a, _, _) => copy_type(pointed(scope, a.get())?),
        _ => copy_type(&expr.ty),
    }
}
