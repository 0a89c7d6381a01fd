//! Functions that are declared, and what is asked of them behind the last item.

ghost use Rattle.std.specs.Prelude.{◌≡◌, IfOk};
ghost use Rattle.std.specs.Option.{option_copied};
ghost use Rattle.c_scope.specs.Definitions as spec;
ghost use Rattle.c_scope.specs.Walks.{Walks};

use crate::built_ins::built_in_named;
use crate::failure::Failure;
use crate::scopes::Meaning;
use crate::world::{KnownFunction, World};
use c_layers::Shape;
use c_typed::Entity;
use c_types::{FnTy, Name, Ty, copy_name, same};
use shared::Shared;
use std::alloc::{AllocError, Global};

/// A function of this name becomes known, unless it is known already.
fn make_known(
    alloc: Global,
    world: &mut World,
    name: &Name,
    ty: &Shared<FnTy>,
) -> Result<(), Failure>
    ensures { Walks (spec.make_known name.now ty.now world.old) result world.new }
{
    if world.functions.find_item(name.bytes()).is_some() {
        return Ok(());
    }
    let function = KnownFunction {
        name: copy_name(alloc, name)?,
        ty: ty.share()?,
        first: world.item,
        is_used: false,
        is_defined: false,
    };
    world.functions.push(function)?;
    Ok(())
}

/// Whether the innermost scope has the name.
#[tactic(auto, unfolding(crate::specs::Definitions::is_bound_here))]
fn is_bound_here(world: &World, name: &Name) -> bool
    ensures { result ≡ spec.is_bound_here world.now name.now }
{
    world.scopes.meaning_here(name.bytes()).is_some()
}

/// A function gets its name in the innermost scope, unless it has it there.
fn bind_function(alloc: Global, world: &mut World, name: &Name) -> Result<(), Failure>
    ensures { Walks (spec.bind_function name.now world.old) result world.new }
{
    if is_bound_here(world, name) {
        return Ok(());
    }
    world.bind(alloc, name, Meaning::Function)?;
    Ok(())
}

/// Declares a function, or a built-in again, and tells what the name stands for.
///
/// # Errors
///
/// `Memory`, where no memory is left.
#[tactic(auto, unfolding(crate::specs::Definitions::declare_function))]
pub fn declare_function(
    alloc: Global,
    world: &mut World,
    name: &Name,
    ty: &Shared<FnTy>,
) -> Result<Entity, Failure>
    ensures { Walks (spec.declare_function name.now ty.now world.old) result world.new }
{
    if let Some(built_in) = built_in_named(name.bytes()) {
        return Ok(Entity::BuiltIn(built_in));
    }
    make_known(alloc, world, name, ty)?;
    bind_function(alloc, world, name)?;
    Ok(Entity::Function)
}

impl World {
    /// Whether a function of this type may be defined under the name: it is no built-in, and it
    /// wasn't defined.
    ///
    /// # Errors
    ///
    /// `AllocError`, where no memory is left.
    #[tactic(auto, unfolding(crate::specs::Definitions::may_be_defined))]
    pub fn may_be_defined(
        &self,
        alloc: Global,
        name: &[u8],
        shape: &Shape,
    ) -> Result<bool, AllocError>
        ensures { IfOk result (λ may. may ≡ spec.may_be_defined self.now name.now shape.now) }
    {
        Ok(
            built_in_named(name).is_none()
                && self.may_be_declared(alloc, name, shape)?
                && is_undefined(self.functions.find_item(name)),
        )
    }
}

/// Whether it isn't defined.
fn is_undefined(function: Option<&KnownFunction>) -> bool
    ensures { result ≡ spec.is_undefined_function (option_copied function.entry) }
{
    match function {
        None => true,
        Some(function) => !function.is_defined,
    }
}

/// The item of the first function that is used and not defined.
pub fn undefined_use(functions: &[KnownFunction]) -> Option<u32>
    ensures { result ≡ spec.undefined_use functions.now }
{
    for function in functions {
        if function.is_used && !function.is_defined {
            return Some(function.first);
        }
    }
    None
}

/// Whether it is defined, as `int main(void)`.
pub fn is_main(function: Option<&KnownFunction>) -> bool
    ensures { result ≡ spec.is_main (option_copied function.entry) }
{
    match function {
        None => false,
        Some(function) => function.is_defined && is_main_type(function.ty.get()),
    }
}

/// Whether it is the type of a function without parameters that gives an `int`.
#[tactic(auto, unfolding(crate::specs::Definitions::is_main_type))]
fn is_main_type(ty: &FnTy) -> bool
    ensures { result ≡ spec.is_main_type ty.now }
{
    same(&ty.result, &Ty::Int) && ty.params.len() == 0
}
