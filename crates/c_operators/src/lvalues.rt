//! Which expressions are lvalues.

ghost use Rattle.std.specs.Prelude.{◌≡◌};
ghost use Rattle.c_operators.specs.Operators as spec;

use c_tree::UnaryOperator;
use c_typed::{Entity, TypedExpr, TypedForm};
use c_types::{is_array, is_function};

/// Whether it is the name of a variable, `*e` or `e[i]` that is no function, or a member.
#[tactic(auto, unfolding(crate::specs::Operators::is_lvalue, crate::specs::Operators::type_of, crate::specs::Operators::form_of))]
pub fn is_lvalue(e: &TypedExpr) -> bool
    ensures { result ≡ spec.is_lvalue e.now }
{
    match &e.form {
        TypedForm::Identifier(_, entity) => is_variable(*entity),
        TypedForm::Unary(UnaryOperator::Dereference, _) => !is_function(&e.ty),
        TypedForm::Index(_, _) => true,
        TypedForm::Member(_, _, _) => true,
        TypedForm::Arrow(_, _, _) => true,
        _ => false,
    }
}

/// Whether a name stands for a variable or a parameter.
fn is_variable(entity: Entity) -> bool
    ensures { result ≡ spec.is_variable entity }
{
    matches!(
        entity,
        Entity::Global(_) | Entity::Local(_) | Entity::Parameter
    )
}

/// Whether it is an lvalue that is no array.
#[tactic(auto, unfolding(crate::specs::Operators::is_assignable, crate::specs::Operators::type_of))]
pub fn is_assignable(e: &TypedExpr) -> bool
    ensures { result ≡ spec.is_assignable e.now }
{
    is_lvalue(e) && !is_array(&e.ty)
}
