//! The rules of names that are declared: variables, types, functions, parameters, members and type words.

ghost use Rattle.std.specs.Prelude.{◌≡◌, IfOk};
ghost use Rattle.std.specs.Option.{option_copied};
ghost use Rattle.c_scope.specs.Declarations as spec;
ghost use Rattle.c_scope.specs.Walks.{Walks};

use crate::built_ins::{built_in_named, built_in_type};
use crate::failure::{Failure, found, test};
use crate::rule::Rule;
use crate::scopes::Meaning;
use crate::world::{KnownFunction, World};
use c_layers::{CheckedShape, Layer, Shape, checked_shape};
use c_typed::Entity;
use c_types::{FnTy, Member, Name, Ty, copy_type, function_of, is_scalar, same_functions};
use std::alloc::{AllocError, Global};
use tables::Table;

/// Whether it is a type name.
fn is_type_name(meaning: Option<&Meaning>) -> bool
    ensures { result ≡ spec.is_type_name (option_copied meaning.entry) }
{
    matches!(meaning, Some(Meaning::TypeName(_)))
}

/// Whether nothing has the name in a scope, or the function of that name.
fn is_free_for_function(here: Option<&Meaning>) -> bool
    ensures { result ≡ spec.is_free_for_function (option_copied here.entry) }
{
    matches!(here, None | Some(Meaning::Function))
}

/// Whether the shape is this function's type.
fn is_of_type(function: &FnTy, shape: &Shape) -> bool
    ensures { result ≡ spec.is_of_type function.now shape.now }
{
    match shape {
        Shape::Whole(ty) => match function_of(ty) {
            Some(other) => same_functions(function, other),
            None => false,
        },
        _ => false,
    }
}

/// Whether a function that is known has this type.
fn agrees(known: Option<&KnownFunction>, shape: &Shape) -> bool
    ensures { result ≡ spec.agrees (option_copied known.entry) shape.now }
{
    match known {
        None => true,
        Some(function) => is_of_type(function.ty.get(), shape),
    }
}

impl World {
    /// Whether a variable, a parameter or a type may have the name here.
    #[tactic(auto, unfolding(crate::specs::Declarations::is_free))]
    pub fn is_free(&self, name: &[u8]) -> bool
        ensures { result ≡ spec.is_free self.now name.now }
    {
        built_in_named(name).is_none()
            && self.scopes.meaning_here(name).is_none()
            && !is_type_name(self.scopes.meaning(name))
    }

    /// Whether a function of this type may have the name here.
    ///
    /// # Errors
    ///
    /// `AllocError`, where no memory is left.
    #[tactic(auto, unfolding(crate::specs::Declarations::may_be_function))]
    pub fn may_be_function(
        &self,
        alloc: Global,
        name: &[u8],
        shape: &Shape,
    ) -> Result<bool, AllocError>
        ensures { IfOk result (λ may. may ≡ spec.may_be_function self.now name.now shape.now) }
    {
        if let Some(built_in) = built_in_named(name) {
            return Ok(is_of_type(&built_in_type(alloc, built_in)?, shape));
        }
        Ok(
            is_free_for_function(self.scopes.meaning_here(name))
                && !is_type_name(self.scopes.meaning(name))
                && agrees(self.functions.find_item(name), shape),
        )
    }

    /// Whether a name of this type may be declared here.
    ///
    /// # Errors
    ///
    /// `AllocError`, where no memory is left.
    #[tactic(auto, unfolding(crate::specs::Declarations::may_be_declared))]
    pub fn may_be_declared(
        &self,
        alloc: Global,
        name: &[u8],
        shape: &Shape,
    ) -> Result<bool, AllocError>
        ensures { IfOk result (λ may. may ≡ spec.may_be_declared self.now name.now shape.now) }
    {
        if shape.is_function() {
            self.may_be_function(alloc, name, shape)
        } else {
            Ok(self.is_free(name))
        }
    }

    /// Whether a parameter may have the name, if it has one.
    fn may_be_parameter(&self, name: Option<&Name>) -> bool
        ensures { result ≡ spec.may_be_parameter self.now (option_copied name.entry) }
    {
        match name {
            None => true,
            Some(name) => self.is_free(name.bytes()),
        }
    }
}

/// A parameter gets its name, if it has one.
fn bind_parameter(
    alloc: Global,
    world: &mut World,
    name: Option<&Name>,
    ty: &Ty,
) -> Result<(), Failure>
    ensures { Walks (spec.bind_parameter (option_copied name.entry) ty.now world.old) result world.new }
{
    match name {
        None => Ok(()),
        Some(name) => {
            world.bind(
                alloc,
                name,
                Meaning::Variable(Entity::Parameter, copy_type(ty)?),
            )
        }
    }
}

/// A parameter's adjusted type.
///
/// # Errors
///
/// `Broken`, at the first rule that is broken. `Memory`, where no memory is left.
#[tactic(auto, unfolding(crate::specs::Declarations::parameter))]
pub fn parameter(
    alloc: Global,
    world: &mut World,
    name: Option<&Name>,
    base: Ty,
    layers: &[Layer],
) -> Result<Ty, Failure>
    ensures { Walks (spec.parameter (option_copied name.entry) base layers.now world.old) result world.new }
{
    test(Rule::Redeclared, world.may_be_parameter(name))?;
    let CheckedShape { shape, results_fit } = checked_shape(alloc, &world.structs, base, layers)?;
    let ty = found(Rule::Unsized, shape.adjusted(alloc)?.into_whole())?;
    test(Rule::Form, results_fit && is_scalar(&ty))?;
    bind_parameter(alloc, world, name, &ty)?;
    Ok(ty)
}

/// The type of a type word.
///
/// # Errors
///
/// `Broken`, at the first rule that is broken. `Memory`, where no memory is left.
#[tactic(auto, unfolding(crate::specs::Declarations::word_type))]
pub fn word_type(alloc: Global, world: &World, base: Ty, layers: &[Layer]) -> Result<Ty, Failure>
    ensures { Walks (spec.word_type base layers.now world.now) result world.now }
{
    let CheckedShape { shape, results_fit } = checked_shape(alloc, &world.structs, base, layers)?;
    let ty = found(Rule::Unsized, shape.into_whole())?;
    test(Rule::Form, results_fit)?;
    Ok(ty)
}

/// The type of a member that stands behind these.
///
/// # Errors
///
/// `Broken`, at the first rule that is broken. `Memory`, where no memory is left.
#[tactic(auto, unfolding(crate::specs::Declarations::member_type))]
pub fn member_type(
    alloc: Global,
    world: &World,
    before: &Table<Member>,
    name: &Name,
    base: Ty,
    layers: &[Layer],
) -> Result<Ty, Failure>
    ensures { Walks (spec.member_type before.now name.now base layers.now world.now) result world.now }
{
    let CheckedShape { shape, results_fit } = checked_shape(alloc, &world.structs, base, layers)?;
    let ty = found(Rule::Unsized, shape.into_whole())?;
    member_rules(world, before, name, &ty, results_fit)?;
    Ok(ty)
}

/// What is asked of a member that stands behind these.
#[tactic(auto, unfolding(crate::specs::Declarations::member_rules))]
fn member_rules(
    world: &World,
    before: &Table<Member>,
    name: &Name,
    ty: &Ty,
    fits: bool,
) -> Result<(), Failure>
    ensures { Walks (spec.member_rules before.now name.now ty.now fits world.now) result world.now }
{
    if !world.structs.is_member_type(ty) {
        return Err(Failure::Broken(Rule::Unsized));
    }
    if !is_new_member(before, name) {
        return Err(Failure::Broken(Rule::Tag));
    }
    test(Rule::Form, fits)
}

/// Whether no member before has the name.
#[tactic(auto, unfolding(crate::specs::Declarations::is_new_member))]
fn is_new_member(before: &Table<Member>, name: &Name) -> bool
    ensures { result ≡ spec.is_new_member before.now name.now }
{
    before.find_item(name.bytes()).is_none()
}
