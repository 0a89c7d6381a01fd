//! Variables that are declared.

ghost use Rattle.std.specs.Prelude.{◌≡◌};
ghost use Rattle.c_scope.specs.Definitions as spec;
ghost use Rattle.c_scope.specs.Walks.{Walks};

use crate::failure::Failure;
use crate::scopes::Meaning;
use crate::world::{World, count};
use c_typed::{Entity, Local};
use c_types::{Name, Ty, copy_name, copy_type};
use std::alloc::Global;

/// Declares a variable, a global or a local one, and tells what the name stands for.
///
/// # Errors
///
/// `Memory`, where no memory is left or there are too many to be counted.
#[tactic(auto, unfolding(crate::specs::Definitions::declare_variable))]
pub fn declare_variable(
    alloc: Global,
    world: &mut World,
    is_global: bool,
    name: &Name,
    ty: &Ty,
) -> Result<Entity, Failure>
    ensures { Walks (spec.declare_variable is_global name.now ty.now world.old) result world.new }
{
    let entity = if is_global {
        new_global(world)?
    } else {
        new_local(alloc, world, name, ty)?
    };
    world.bind(alloc, name, Meaning::Variable(entity, copy_type(ty)?))?;
    Ok(entity)
}

/// One more global variable.
fn new_global(world: &mut World) -> Result<Entity, Failure>
    ensures { Walks (spec.new_global world.old) result world.new }
{
    let number = world.globals;
    let Some(next) = number.checked_add(1) else {
        return Err(Failure::Memory);
    };
    world.globals = next;
    Ok(Entity::Global(number))
}

/// One more local variable.
fn new_local(alloc: Global, world: &mut World, name: &Name, ty: &Ty) -> Result<Entity, Failure>
    ensures { Walks (spec.new_local name.now ty.now world.old) result world.new }
{
    let number = count(world.locals.len())?;
    world.locals.push(Local {
        name: copy_name(alloc, name)?,
        ty: copy_type(ty)?,
        is_addressed: false,
    })?;
    Ok(Entity::Local(number))
}
