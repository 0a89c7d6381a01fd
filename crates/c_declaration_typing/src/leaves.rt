//! Which expressions may give a global variable its value.

ghost use Rattle.std.specs.Prelude.{◌≡◌};
ghost use Rattle.c_declaration_typing.specs.Leaves as spec;
ghost use Rattle.c_types.specs.Kinds.{bound_of as bound_of_type};
ghost use Rattle.c_typed.specs.declared.expression.TypedExpr.{out-TypedExpr};
ghost use Rattle.c_declaration_typing.specs.inner.LeafForms.{leaf_node};

use c_tree::UnaryOperator;
use c_typed::{Constant, Entity, TypedExpr, TypedForm};
use c_types::{bound_of, is_array};

/// Whether it is an integer constant expression, a string, a function, a global array, or an
/// address of a function or of a part of a global, each under any casts.
#[tactic(auto, unfolding(crate::specs::Leaves::is_constant_leaf))]
pub(crate) fn is_constant_leaf(e: &TypedExpr) -> bool
    ensures { result ≡ spec.is_constant_leaf e.now }
{
    is_leaf(e)
}

/// The same, as it is found.
#[cycle(leaf)]
#[tactic(auto, using(crate::specs::inner::LeafForms::leaves))]
fn is_leaf(e: &TypedExpr) -> bool
    ensures { result ≡ (spec.leaf e.now).is_leaf }
{
    has_value(e.constant) || is_leaf_form(e)
}

/// Whether its form says so.
#[cycle(leaf)]
fn is_leaf_form(e: &TypedExpr) -> bool
    ensures { result ≡ spec.leaf_form (out-TypedExpr e.now).ty (leaf_node e.now) }
{
    match &e.form {
        TypedForm::Cast(_, a) => is_leaf(a.get()),
        TypedForm::Text(_, _) => true,
        TypedForm::Identifier(_, entity) => {
            is_function(*entity) || (is_global_variable(*entity) && is_array(&e.ty))
        }
        TypedForm::Unary(UnaryOperator::Address, a) => {
            is_function_name(a.get()) || is_place(a.get())
        }
        _ => false,
    }
}

/// Whether it is a global variable with members and constant indices inside their arrays.
#[cycle(place)]
#[tactic(auto, using(crate::specs::inner::LeafForms::leaves))]
fn is_place(e: &TypedExpr) -> bool
    ensures { result ≡ (spec.leaf e.now).is_place }
{
    is_place_form(e)
}

/// Whether its form says so.
#[cycle(place)]
fn is_place_form(e: &TypedExpr) -> bool
    ensures { result ≡ spec.place_form (leaf_node e.now) }
{
    match &e.form {
        TypedForm::Identifier(_, entity) => is_global_variable(*entity),
        TypedForm::Member(a, _, _) => is_place(a.get()),
        TypedForm::Index(a, i) => is_place(a.get()) && is_index(a.get(), i.get()),
        _ => false,
    }
}

/// Whether it is a constant index inside the array.
#[tactic(auto, using(crate::specs::inner::LeafForms::leaves))]
fn is_index(a: &TypedExpr, i: &TypedExpr) -> bool
    ensures { result
        ≡ spec.is_below (spec.leaf i.now).constant (bound_of_type (spec.leaf a.now).ty) }
{
    is_below(i.constant, bound_of(&a.ty))
}

/// Whether it is the name of a function.
#[tactic(auto, using(crate::specs::inner::LeafForms::leaves))]
fn is_function_name(e: &TypedExpr) -> bool
    ensures { result ≡ (spec.leaf e.now).is_function }
{
    is_function_form(e)
}

/// Whether its form says so.
fn is_function_form(e: &TypedExpr) -> bool
    ensures { result ≡ spec.function_form (leaf_node e.now) }
{
    match &e.form {
        TypedForm::Identifier(_, entity) => is_function(*entity),
        _ => false,
    }
}

/// Whether it is an integer constant expression.
fn has_value(constant: Constant) -> bool
    ensures { result ≡ spec.has_value constant }
{
    matches!(constant, Constant::Value(_))
}

/// Whether it is a constant index of an array with this bound.
fn is_below(constant: Constant, bound: Option<u32>) -> bool
    ensures { result ≡ spec.is_below constant bound }
{
    match (constant, bound) {
        (Constant::Value(value), Some(bound)) => 0 <= value && value < i64::from(bound),
        _ => false,
    }
}

/// Whether the name stands for a global variable.
fn is_global_variable(entity: Entity) -> bool
    ensures { result ≡ spec.is_global_variable entity }
{
    matches!(entity, Entity::Global(_))
}

/// Whether the name stands for a function of the source.
fn is_function(entity: Entity) -> bool
    ensures { result ≡ spec.is_function_entity entity }
{
    matches!(entity, Entity::Function)
}
