//! What a name alone stands for.

ghost use Rattle.std.specs.Prelude.{◌≡◌};
ghost use Rattle.elab_rows.specs.Scope.{function_number, standing_of};
ghost use Rattle.elab_rows.specs.Values as spec;
ghost use Rattle.elab_parts.specs.inner.Nodes.{node};

use c_typed::{Entity, TypedExpr, TypedForm};
use c_types::Name;
use elab_rows::{Named, Scope, Standing};

/// Where a local stands.
#[tactic(auto, unfolding(elab_rows::specs::Scope::standing_of))]
fn standing(scope: &Scope, local: u32) -> Option<Standing>
    ensures { result ≡ standing_of scope.now local }
{
    scope.locals.get(local as usize).copied()
}

/// The number of the function of this name.
#[tactic(auto, unfolding(elab_rows::specs::Scope::function_number))]
fn number_of(scope: &Scope, name: &Name) -> usize
    ensures { result ≡ function_number scope.now.functions name.now }
{
    scope.functions.find(name.bytes()).unwrap_or(0)
}

/// What a local's name stands for.
fn local_name(standing: Option<Standing>) -> Named
    ensures { result ≡ spec.local_name standing }
{
    match standing {
        Some(Standing::Slot(slot)) => Named::Slot(slot),
        Some(Standing::Frame(local)) => Named::Frame(local),
        None => Named::Other,
    }
}

/// What a name stands for.
pub fn entity_name(scope: &Scope, name: &Name, entity: Entity) -> Named
    ensures { result ≡ spec.entity_name scope.now name.now entity }
{
    match entity {
        Entity::Global(global) => Named::Global(global),
        Entity::Local(local) => local_name(standing(scope, local)),
        Entity::Function => Named::Function(number_of(scope, name)),
        Entity::BuiltIn(built_in) => Named::BuiltIn(built_in),
        Entity::Parameter => Named::Other,
    }
}

/// What a form stands for, where it is a name alone.
fn form_name(scope: &Scope, expr: &TypedExpr) -> Named
    ensures { result ≡ spec.form_name scope.now (node scope.now expr.now) }
{
    match &expr.form {
        TypedForm::Identifier(name, entity) => entity_name(scope, name, *entity),
        _ => Named::Other,
    }
}

/// What an expression stands for, where it is a name alone.
#[tactic(auto, using(crate::proofs::Nodes::name_is))]
pub fn name(scope: &Scope, expr: &TypedExpr) -> Named
    ensures { result ≡ (spec.part scope.now expr.now).name }
{
    form_name(scope, expr)
}
