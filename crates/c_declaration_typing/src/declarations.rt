//! The walk of declarations and of what defines types.

ghost use Rattle.std.specs.Prelude.{◌≡◌, ◌+◌, Some, length, map, IfOk};
ghost use Rattle.std.specs.Option.{option_copied};
ghost use Rattle.c_types.specs.Kinds.{function_of};
ghost use Rattle.c_scope.specs.Walk.{each};
ghost use Rattle.c_scope.specs.Walks.{Walks};
ghost use Rattle.c_declaration_typing.specs.Declarations as spec;

use crate::initialisers::{initialiser, text_of};
use c_declarator_rules::LayeredDeclarator;
use c_expr_typing::{declarator, spec};
use c_layers::{CheckedShape, Shape, checked_shape, limited};
use c_operators::has_units;
use c_scope::{Failure, Meaning, Rule, World, declare_function, declare_variable, test};
use c_tree::{Decl, Declarator, Init, InitDeclarator};
use c_typed::{Declared, Entity, TypedDecl, TypedInit, TypedInitDeclarator};
use c_types::{Name, Ty, copy_type, is_char};
use shared::Shared;
use sqlite_items::Items;
use std::alloc::{AllocError, Global};

/// The most units of a type, and so the greatest bound.
const MOST_UNITS: usize = 65_536;

/// A number of parts that an array may have.
fn allowed(count: usize) -> Option<u32>
    ensures { result ≡ spec.allowed (Some count) }
{
    if count > MOST_UNITS {
        return None;
    }
    Some(count as u32)
}

/// The bound that a string gives an array.
fn text_bound(bytes: &[u8]) -> Option<u32>
    ensures { result ≡ spec.allowed (Some (length bytes.now + 1)) }
{
    if bytes.len() >= MOST_UNITS {
        return None;
    }
    Some(bytes.len() as u32 + 1)
}

/// The bound that an initialiser gives an array of this element, if it may have it.
#[tactic(auto, unfolding(crate::specs::Declarations::given_bound))]
fn given_bound(element: &Ty, init: &Init) -> Option<u32>
    ensures { result ≡ spec.allowed (spec.given_bound element.now init.now) }
{
    match init {
        Init::Braces(parts) => allowed(parts.len()),
        Init::Expr(e) if is_char(element) => text_bound(text_of(e)?.as_slice()),
        Init::Expr(_) => None,
    }
}

/// An array of this element with this bound.
fn bounded(alloc: Global, element: Ty, bound: Option<u32>) -> Result<Shape, AllocError>
    ensures { IfOk result (λ shape. shape ≡ spec.bounded element bound) }
{
    match bound {
        Some(bound) => Ok(limited(Ty::Array(Shared::new(alloc, element)?, bound))),
        None => Ok(Shape::Broken(false)),
    }
}

/// An array without a bound takes it from its initialiser.
fn completed(alloc: Global, init: Option<&Init>, shape: Shape) -> Result<Shape, AllocError>
    ensures { IfOk result (λ whole. whole ≡ spec.completed (option_copied init.entry) shape) }
{
    match shape {
        Shape::Open(element) => closed(alloc, element, init),
        other => Ok(other),
    }
}

/// An array of this element, with the bound that its initialiser gives.
fn closed(alloc: Global, element: Ty, init: Option<&Init>) -> Result<Shape, AllocError>
    ensures { IfOk result (λ whole. whole ≡ spec.closed element (option_copied init.entry)) }
{
    match init {
        None => Ok(Shape::Broken(false)),
        Some(init) => {
            let bound = given_bound(&element, init);
            bounded(alloc, element, bound)
        }
    }
}

/// What is asked of a variable's or function's type.
#[tactic(auto, unfolding(crate::specs::Declarations::type_rules))]
fn type_rules(world: &World, is_function: bool, ty: &Ty, fits: bool) -> Result<(), Failure>
    ensures { Walks (spec.type_rules is_function ty.now fits world.now) result world.now }
{
    if !is_function && !has_units(&world.structs, ty) {
        return Err(Failure::Broken(Rule::Unsized));
    }
    test(Rule::Form, fits)
}

/// The type of a declared name of this shape.
#[tactic(auto, unfolding(crate::specs::Declarations::declared_type))]
fn declared_type(
    alloc: Global,
    world: &World,
    name: &Name,
    shape: &Shape,
    fits: bool,
) -> Result<Ty, Failure>
    ensures { Walks (spec.declared_type name.now shape.now fits world.now) result world.now }
{
    if !world.may_be_declared(alloc, name.bytes(), shape)? {
        return Err(Failure::Broken(Rule::Redeclared));
    }
    let Some(ty) = shape.whole() else {
        return Err(Failure::Broken(Rule::Unsized));
    };
    type_rules(world, shape.is_function(), ty, fits)?;
    Ok(copy_type(ty)?)
}

/// The type that a declarator gives its name.
fn shaped_type(
    alloc: Global,
    world: &World,
    base: &Ty,
    declarator: &LayeredDeclarator,
    init: Option<&Init>,
) -> Result<Ty, Failure>
    ensures { Walks (spec.shaped_type base.now declarator.now (option_copied init.entry) world.now)
        result world.now }
{
    let layers = declarator.layers.as_slice();
    let CheckedShape { shape, results_fit } = checked_shape(
        alloc,
        &world.structs,
        copy_type(base)?,
        layers,
    )?;
    let shape = completed(alloc, init, shape)?;
    declared_type(alloc, world, &declarator.name, &shape, results_fit)
}

/// Declares a variable or a function of this type.
#[tactic(auto, unfolding(c_types::specs::Kinds::function_of))]
fn declare_by(
    alloc: Global,
    world: &mut World,
    is_global: bool,
    name: &Name,
    ty: &Ty,
) -> Result<Entity, Failure>
    ensures { Walks (spec.declare_by is_global name.now ty.now (function_of ty.now) world.old)
        result world.new }
{
    match ty {
        Ty::Function(function) => declare_function(alloc, world, name, function),
        _ => declare_variable(alloc, world, is_global, name, ty),
    }
}

/// Declares the name of a declarator, and tells its type and what it stands for.
fn declare(
    alloc: Global,
    world: &mut World,
    is_global: bool,
    base: &Ty,
    declarator: &LayeredDeclarator,
    init: Option<&Init>,
) -> Result<(Ty, Entity), Failure>
    ensures { let i = option_copied init.entry
        in Walks (spec.declare is_global base.now declarator.now i world.old) result world.new }
{
    let ty = shaped_type(alloc, world, base, declarator, init)?;
    let entity = declare_by(alloc, world, is_global, &declarator.name, &ty)?;
    Ok((ty, entity))
}

/// The initialiser of a variable of this type, if it has one.
fn optional_init(
    alloc: Global,
    world: &mut World,
    is_global: bool,
    ty: &Ty,
    init: Option<&Init>,
) -> Result<Option<TypedInit>, Failure>
    ensures { Walks (spec.optional_init is_global ty.now (option_copied init.entry) world.old)
        result world.new }
{
    match init {
        None => Ok(None),
        Some(init) => Ok(Some(initialiser(alloc, world, is_global, init, Some(ty))?)),
    }
}

/// Declares a name, which is in scope in its own initialiser.
fn declare_all(
    alloc: Global,
    world: &mut World,
    is_global: bool,
    base: &Ty,
    declarator: &LayeredDeclarator,
    init: Option<&Init>,
) -> Result<(Ty, Entity, Option<TypedInit>), Failure>
    ensures { let i = option_copied init.entry
        in Walks (spec.declare_all is_global base.now declarator.now i world.old) result world.new }
{
    let (ty, entity) = declare(alloc, world, is_global, base, declarator, init)?;
    let init = optional_init(alloc, world, is_global, &ty, init)?;
    Ok((ty, entity, init))
}

/// A declarator with its initialiser.
#[tactic(auto, unfolding(crate::specs::Declarations::typed_init_declarator))]
fn init_declarator(
    alloc: Global,
    world: &mut World,
    is_global: bool,
    base: &Ty,
    one: &InitDeclarator,
) -> Result<TypedInitDeclarator, Failure>
    ensures { Walks (spec.typed_init_declarator is_global base.now one.now world.old)
        result world.new }
{
    let inside = declarator(alloc, world, &one.declarator)?;
    let (ty, entity, init) = declare_all(
        alloc,
        world,
        is_global,
        base,
        inside.get(),
        one.init.as_ref(),
    )?;
    let (declared, _) = inside.into_inner().into_declared(ty);
    Ok(TypedInitDeclarator {
        declared,
        entity,
        init,
    })
}

/// Declarators with their initialisers, in order.
#[tactic(auto, using(c_scope::specs::inner::Lists::lists))]
fn init_declarators(
    alloc: Global,
    world: &mut World,
    is_global: bool,
    base: &Ty,
    all: &[InitDeclarator],
) -> Result<Items<TypedInitDeclarator>, Failure>
    ensures { Walks (each (map (spec.typed_init_declarator is_global base.now) all.now) world.old)
        result world.new }
{
    let mut found = Items::new(alloc);
    for one in all {
        found.push(init_declarator(alloc, world, is_global, base, one)?)?;
    }
    Ok(found)
}

/// The typed form of a declaration, an item or one of a block.
///
/// # Errors
///
/// `Broken`, at the first rule that is broken. `Memory`, where no memory is left.
#[tactic(auto, unfolding(crate::specs::Declarations::typed_decl))]
pub fn declaration(
    alloc: Global,
    world: &mut World,
    is_global: bool,
    decl: &Decl,
) -> Result<TypedDecl, Failure>
    ensures { Walks (spec.typed_decl is_global decl.now world.old) result world.new }
{
    let base = spec(alloc, world, &decl.spec, is_global)?;
    let declarators = init_declarators(
        alloc,
        world,
        is_global,
        &base.get().1,
        decl.declarators.as_slice(),
    )?;
    let (spec, _) = base.into_inner();
    Ok(TypedDecl { spec, declarators })
}

/// The type of a type's name of this shape.
#[tactic(auto, unfolding(crate::specs::Declarations::named_type))]
fn named_type(world: &World, name: &Name, shape: &Shape, fits: bool) -> Result<Ty, Failure>
    ensures { Walks (spec.named_type name.now shape.now fits world.now) result world.now }
{
    if !world.is_free(name.bytes()) {
        return Err(Failure::Broken(Rule::Redeclared));
    }
    let Some(ty) = shape.whole() else {
        return Err(Failure::Broken(Rule::Unsized));
    };
    test(Rule::Form, fits)?;
    Ok(copy_type(ty)?)
}

/// The type that a declarator gives the name of a type.
fn shaped_name(
    alloc: Global,
    world: &World,
    base: &Ty,
    declarator: &LayeredDeclarator,
) -> Result<Ty, Failure>
    ensures { Walks (spec.shaped_name base.now declarator.now world.now) result world.now }
{
    let layers = declarator.layers.as_slice();
    let CheckedShape { shape, results_fit } = checked_shape(
        alloc,
        &world.structs,
        copy_type(base)?,
        layers,
    )?;
    named_type(world, &declarator.name, &shape, results_fit)
}

/// Declares the name of a type.
fn declare_type(
    alloc: Global,
    world: &mut World,
    base: &Ty,
    declarator: &LayeredDeclarator,
) -> Result<Ty, Failure>
    ensures { Walks (spec.declare_type base.now declarator.now world.old) result world.new }
{
    let ty = shaped_name(alloc, world, base, declarator)?;
    world.bind(alloc, &declarator.name, Meaning::TypeName(copy_type(&ty)?))?;
    Ok(ty)
}

/// A declarator of a type's name.
#[tactic(auto, unfolding(crate::specs::Declarations::typed_type))]
fn type_declarator(
    alloc: Global,
    world: &mut World,
    base: &Ty,
    one: &Declarator,
) -> Result<Declared, Failure>
    ensures { Walks (spec.typed_type base.now one.now world.old) result world.new }
{
    let inside = declarator(alloc, world, one)?;
    let ty = declare_type(alloc, world, base, inside.get())?;
    let (declared, _) = inside.into_inner().into_declared(ty);
    Ok(declared)
}

/// Declarators of types' names, in order.
///
/// # Errors
///
/// `Broken`, at the first rule that is broken. `Memory`, where no memory is left.
#[tactic(auto, using(c_scope::specs::inner::Lists::lists))]
pub fn type_declarators(
    alloc: Global,
    world: &mut World,
    base: &Ty,
    all: &[Declarator],
) -> Result<Items<Declared>, Failure>
    ensures { Walks (each (map (spec.typed_type base.now) all.now) world.old) result world.new }
{
    let mut found = Items::new(alloc);
    for one in all {
        found.push(type_declarator(alloc, world, base, one)?)?;
    }
    Ok(found)
}
