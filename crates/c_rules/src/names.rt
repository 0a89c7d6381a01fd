//! What names in expressions stand for.

ghost use Rattle.std.specs.Prelude.{◌≡◌, IfOk};
ghost use Rattle.std.specs.Option.{option_copied};
ghost use Rattle.c_rules.specs.Rules as spec;
ghost use Rattle.c_scope.specs.Scopes.{meaning_of};
ghost use Rattle.c_scope.specs.Walks.{Walks};

use crate::place::Place;
use c_scope::{Failure, Meaning, Rule, World, built_in_named, built_in_type, mark_used};
use c_typed::{BuiltIn, Constant, Entity, TypedExpr, TypedForm};
use c_types::{Name, Ty, copy_name, copy_type};
use shared::Shared;
use std::alloc::{AllocError, Global};

/// A name.
///
/// # Errors
///
/// `Broken`, at the first rule that is broken. `Memory`, where no memory is left.
#[tactic(auto, unfolding(crate::specs::Rules::identifier))]
pub fn identifier(
    alloc: Global,
    world: &mut World,
    name: &Name,
    place: Place,
) -> Result<TypedExpr, Failure>
    ensures { Walks (spec.identifier name.now place world.old) result world.new }
{
    if let Some(built_in) = built_in_named(name.bytes()) {
        return built_in_at(alloc, world, name, place, built_in);
    }
    meant(alloc, world, name)
}

/// A name that is no built-in's.
fn meant(alloc: Global, world: &mut World, name: &Name) -> Result<TypedExpr, Failure>
    ensures { Walks (spec.meant name.now world.old) result world.new }
{
    if means_function(world, name) {
        return Ok(mentioned(alloc, world, name)?);
    }
    variable(alloc, world, name)
}

/// Whether it means a function.
#[tactic(auto, unfolding(crate::specs::Rules::means_function))]
fn means_function(world: &World, name: &Name) -> bool
    ensures { result ≡ spec.means_function world.now name.now }
{
    matches!(world.scopes.meaning(name.bytes()), Some(Meaning::Function))
}

/// A variable or a parameter.
fn variable(alloc: Global, world: &World, name: &Name) -> Result<TypedExpr, Failure>
    ensures { Walks (spec.variable name.now (meaning_of world.now.scopes name.now) world.now)
        result world.now }
{
    match world.scopes.meaning(name.bytes()) {
        Some(Meaning::Variable(entity, ty)) => { Ok(named(alloc, name, *entity, copy_type(ty)?)?) }
        _ => Err(Failure::Broken(Rule::Undeclared)),
    }
}

/// A name with what it stands for and its type.
#[tactic(auto, unfolding(crate::specs::Rules::named, c_operators::specs::Operators::typed))]
fn named(alloc: Global, name: &Name, entity: Entity, ty: Ty) -> Result<TypedExpr, AllocError>
    ensures { IfOk result (λ e. e ≡ spec.named name.now entity ty) }
{
    Ok(TypedExpr {
        form: TypedForm::Identifier(copy_name(alloc, name)?, entity),
        ty,
        constant: Constant::Other,
    })
}

/// The name of a built-in function.
fn built_in_at(
    alloc: Global,
    _world: &World,
    name: &Name,
    place: Place,
    built_in: BuiltIn,
) -> Result<TypedExpr, Failure>
    ensures { Walks (spec.built_in_at name.now place built_in _world.now) result _world.now }
{
    match place {
        Place::Value => Err(Failure::Broken(Rule::Undeclared)),
        Place::Callee => {
            let ty = Ty::Function(Shared::new(alloc, built_in_type(alloc, built_in)?)?);
            Ok(named(alloc, name, Entity::BuiltIn(built_in), ty)?)
        }
    }
}

/// The name of a function, which is used from here on.
fn mentioned(alloc: Global, world: &mut World, name: &Name) -> Result<TypedExpr, Failure>
    ensures { Walks (spec.mentioned name.now world.old) result world.new }
{
    let Some(function) = world.functions.find_item(name.bytes()) else {
        return Err(Failure::Broken(Rule::Undeclared));
    };
    let ty = Ty::Function(function.ty.share()?);
    mark_used(alloc, world, name)?;
    Ok(named(alloc, name, Entity::Function, ty)?)
}
