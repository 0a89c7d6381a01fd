//! The walk of definitions of functions.

ghost use Rattle.std.specs.Prelude.{◌≡◌, [], OnOk, IfOk};
ghost use Rattle.std.specs.Option.{option_copied};
ghost use Rattle.c_types.specs.Kinds.{function_of};
ghost use Rattle.c_scope.specs.Walks.{Walks};
ghost use Rattle.c_typing.specs.Functions as spec;

use crate::statements::block;
use c_declarator_rules::LayeredDeclarator;
use c_expr_typing::declarator;
use c_layers::{CheckedShape, Layer, Shape, checked_shape};
use c_scope::{
    Failure, Rule, World, all_named, bind_parameters, declare_function, mark_defined,
    own_parameters,
};
use c_tree::{Block, Declarator};
use c_typed::{Local, TypedBlock, TypedFn, TypedSpec};
use c_types::{FnTy, Name, Ty, copy_type};
use shared::Shared;
use sqlite_items::{Boxed, Items};
use std::alloc::Global;

/// Whether the list of parameters stands at the name itself, and each has a name.
#[tactic(auto, unfolding(crate::specs::Functions::is_definition))]
fn is_definition(layers: &[Layer]) -> bool
    ensures { result ≡ spec.is_definition layers.now }
{
    match own_parameters(layers) {
        Some(params) => all_named(params.as_slice()),
        None => false,
    }
}

/// The type of a function, without its kind.
#[tactic(auto, unfolding(c_types::specs::Kinds::function_of))]
fn as_function(ty: &Ty) -> Option<&Shared<FnTy>>
    ensures { option_copied result ≡ function_of ty.now }
{
    match ty {
        Ty::Function(function) => Some(function),
        _ => None,
    }
}

/// The type of a definition of this shape.
#[tactic(auto, unfolding(crate::specs::Functions::defined_type))]
fn defined_type(
    alloc: Global,
    world: &World,
    name: &Name,
    shape: &Shape,
    fits: bool,
) -> Result<Shared<FnTy>, Failure>
    ensures { Walks (spec.defined_type name.now shape.now fits world.now) result world.now }
{
    if !world.may_be_defined(alloc, name.bytes(), shape)? {
        return Err(Failure::Broken(Rule::Redeclared));
    }
    let Some(ty) = shape.whole() else {
        return Err(Failure::Broken(Rule::Unsized));
    };
    if !fits {
        return Err(Failure::Broken(Rule::Form));
    }
    let Some(function) = as_function(ty) else {
        return Err(Failure::Broken(Rule::Form));
    };
    Ok(function.share()?)
}

/// The type that a definition's declarator gives its name.
fn shaped_function(
    alloc: Global,
    world: &World,
    base: &Ty,
    declarator: &LayeredDeclarator,
) -> Result<Shared<FnTy>, Failure>
    ensures { Walks (spec.shaped_function base.now declarator.now world.now) result world.now }
{
    let layers = declarator.layers.as_slice();
    let CheckedShape { shape, results_fit } = checked_shape(
        alloc,
        &world.structs,
        copy_type(base)?,
        layers,
    )?;
    let fits = results_fit && is_definition(layers);
    defined_type(alloc, world, &declarator.name, &shape, fits)
}

/// Declares a function, which is defined from here on.
fn define_function(
    alloc: Global,
    world: &mut World,
    base: &Ty,
    declarator: &LayeredDeclarator,
) -> Result<Shared<FnTy>, Failure>
    ensures { Walks (spec.define_function base.now declarator.now world.old) result world.new }
{
    let function = shaped_function(alloc, world, base, declarator)?;
    let _ = declare_function(alloc, world, &declarator.name, &function)?;
    mark_defined(alloc, world, &declarator.name)?;
    Ok(function)
}

/// The parameters of the list at the name become local variables.
fn bind_own(alloc: Global, world: &mut World, layers: &[Layer]) -> Result<(), Failure>
    ensures { Walks (spec.bind_own layers.now world.old) result world.new }
{
    match own_parameters(layers) {
        Some(params) => bind_parameters(alloc, world, params.as_slice()),
        None => Ok(()),
    }
}

/// The body of a function, in one scope with its parameters.
fn function_body(
    alloc: Global,
    world: &mut World,
    layers: &[Layer],
    function: &FnTy,
    inside: &Block,
) -> Result<TypedBlock, Failure>
    ensures { Walks (spec.function_body layers.now function.now inside.now world.old)
        result world.new }
{
    world.enter()?;
    bind_own(alloc, world, layers)?;
    let body = block(alloc, world, &function.result, false, inside)?;
    world.leave()?;
    Ok(body)
}

/// The variables of the function that ends here.
fn take_locals(alloc: Global, world: &mut World) -> Result<Items<Local>, Failure>
    ensures { Walks (spec.take_locals world.old) result world.new }
{
    Ok(std::mem::replace(&mut world.locals, Items::new(alloc)))
}

/// The type, the variables and the body of a function.
fn function_parts(
    alloc: Global,
    world: &mut World,
    base: &Ty,
    declarator: &LayeredDeclarator,
    inside: &Block,
) -> Result<(Shared<FnTy>, Items<Local>, TypedBlock), Failure>
    ensures { Walks (spec.function_parts base.now declarator.now inside.now world.old)
        result world.new }
{
    let function = define_function(alloc, world, base, declarator)?;
    let layers = declarator.layers.as_slice();
    let body = function_body(alloc, world, layers, function.get(), inside)?;
    let locals = take_locals(alloc, world)?;
    Ok((function, locals, body))
}

/// The typed form of a function's definition.
///
/// # Errors
///
/// `Broken`, at the first rule that is broken. `Memory`, where no memory is left.
#[tactic(auto, unfolding(crate::specs::Functions::typed_function))]
pub(crate) fn function(
    alloc: Global,
    world: &mut World,
    base: Boxed<(TypedSpec, Ty)>,
    outer: &Declarator,
    inside: &Block,
) -> Result<TypedFn, Failure>
    ensures { Walks (spec.typed_function base.0 base.1 outer.now inside.now world.old)
        result world.new }
{
    let layered = declarator(alloc, world, outer)?;
    let ty = &base.get().1;
    let (function, locals, block) = function_parts(alloc, world, ty, layered.get(), inside)?;
    let (spec, _) = base.into_inner();
    let (declared, _) = layered.into_inner().into_declared(Ty::Function(function));
    Ok(TypedFn {
        spec,
        declared,
        locals,
        block,
    })
}
