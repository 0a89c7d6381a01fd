//! What the definition of a function changes.

ghost use Rattle.std.specs.Prelude.{◌≡◌, IfOk, OnOk, IsTrue};
ghost use Rattle.std.specs.Option.{option_copied};
ghost use Rattle.c_scope.specs.Definitions as spec;
ghost use Rattle.c_scope.specs.Scopes.{with_function};
ghost use Rattle.c_scope.specs.Walks.{Walks};

use crate::failure::Failure;
use crate::variables::declare_variable;
use crate::world::{KnownFunction, World};
use c_layers::{Layer, Parameter, Parameters};
use c_types::{Name, copy_name};
use sqlite_items::Items;
use std::alloc::{AllocError, Global};
use tables::Table;

/// The parameters of the list at the name.
pub fn own_parameters(layers: &[Layer]) -> Option<&Parameters>
    ensures { option_copied result ≡ spec.own_parameters layers.now }
{
    match layers.first() {
        Some(Layer::Function(params)) => Some(params),
        _ => None,
    }
}

/// Whether each parameter has a name.
pub fn all_named(params: &[Parameter]) -> bool
    ensures { result ≡ spec.all_named params.now }
{
    for param in params {
        if param.name.is_none() {
            return false;
        }
    }
    true
}

/// The function of this name is used.
///
/// # Errors
///
/// `Memory`, where no memory is left.
#[tactic(auto, unfolding(crate::specs::Definitions::mark_used))]
pub fn mark_used(alloc: Global, world: &mut World, name: &Name) -> Result<(), Failure>
    ensures { Walks (spec.mark_used name.now world.old) result world.new }
{
    mark(alloc, &mut world.functions, name, true, false)?;
    Ok(())
}

/// The function of this name is defined, and its locals begin.
///
/// # Errors
///
/// `Memory`, where no memory is left.
#[tactic(auto, unfolding(crate::specs::Definitions::mark_defined))]
pub fn mark_defined(alloc: Global, world: &mut World, name: &Name) -> Result<(), Failure>
    ensures { Walks (spec.mark_defined name.now world.old) result world.new }
{
    mark(alloc, &mut world.functions, name, false, true)?;
    world.locals = Items::new(alloc);
    Ok(())
}

/// The function of this name is used or defined from here on. It is copied at most twice.
#[tactic(auto, using(crate::proofs::MarkedFunctions::marks))]
fn mark(
    alloc: Global,
    functions: &mut Table<KnownFunction>,
    name: &Name,
    used: bool,
    defined: bool,
) -> Result<(), AllocError>
    ensures { OnOk result
        (functions.new ≡ with_function (spec.marked used defined) functions.old name.now) }
{
    let Some(place) = functions.find(name.bytes()) else {
        return Ok(());
    };
    let Some(function) = functions.get(place) else {
        unreachable!()
    };
    if has_marks(function, used, defined) {
        return Ok(());
    }
    let marked = marked(alloc, function, used, defined)?;
    functions.replace(place, marked);
    Ok(())
}

/// Whether nothing changes.
#[tactic(auto, unfolding(crate::specs::Definitions::marked), using(crate::proofs::MarkedFunctions::marked_same))]
fn has_marks(function: &KnownFunction, used: bool, defined: bool) -> bool
    ensures { IsTrue result → spec.marked used defined function.now ≡ function.now }
{
    (function.is_used || !used) && (function.is_defined || !defined)
}

/// The same function, used or defined from here on.
#[tactic(auto, unfolding(crate::specs::Definitions::marked))]
fn marked(
    alloc: Global,
    function: &KnownFunction,
    used: bool,
    defined: bool,
) -> Result<KnownFunction, AllocError>
    ensures { IfOk result (λ marked. marked ≡ spec.marked used defined function.now) }
{
    Ok(KnownFunction {
        name: copy_name(alloc, &function.name)?,
        ty: function.ty.share()?,
        first: function.first,
        is_used: used || function.is_used,
        is_defined: defined || function.is_defined,
    })
}

/// Each parameter becomes a local variable.
///
/// # Errors
///
/// `Memory`, where no memory is left.
pub fn bind_parameters(
    alloc: Global,
    world: &mut World,
    params: &[Parameter],
) -> Result<(), Failure>
    ensures { Walks (spec.bind_parameters params.now world.old) result world.new }
{
    for param in params {
        if let Some(name) = &param.name {
            let _ = declare_variable(alloc, world, false, name, &param.ty)?;
        }
    }
    Ok(())
}
