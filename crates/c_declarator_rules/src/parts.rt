//! The rules of declarators and specs behind their parts, which come in boxes: where a rule is
//! broken, a box is dropped as one thing.

ghost use Rattle.std.specs.Prelude.{◌≡◌};
ghost use Rattle.std.specs.Option.{option_copied};
ghost use Rattle.c_declarator_rules.specs.Rules as rule;
ghost use Rattle.c_declarator_rules.specs.inner.Walked.{twice, with_list};
ghost use Rattle.c_scope.specs.Declarations.{member_type as type_of_member, parameter as type_of_parameter};
ghost use Rattle.c_scope.specs.Walks.{Walks};

use crate::declarators::{LayeredAbstract, LayeredDeclarator};
use c_layers::{Layer, Parameter};
use c_scope::{Failure, Meaning, Rule, World, member_type, parameter, tag, test, word_type};
use c_typed::{Constant, Declared, TypedParam, TypedSpec, TypedTypeWord};
use c_types::{Member, Name, Ty, copy_name, copy_type};
use sqlite_items::Boxed;
use std::alloc::Global;
use tables::Table;

/// A bound, which is constant and from 1 to 65,536.
///
/// # Errors
///
/// `Broken`, where it is not.
pub fn constant_bound(_world: &World, constant: Constant) -> Result<u32, Failure>
    ensures { Walks (rule.constant_bound constant _world.now) result _world.now }
{
    let Constant::Value(value) = constant else {
        return Err(Failure::Broken(Rule::NotConstant));
    };
    if value < 1 || value > 65_536 {
        return Err(Failure::Broken(Rule::Unsized));
    }
    Ok(value as u32)
}

/// A parameter's type: one for its tree and one for its function.
fn parameter_types(
    alloc: Global,
    world: &mut World,
    name: Option<&Name>,
    base: &Ty,
    layers: &[Layer],
) -> Result<(Ty, Ty), Failure>
    ensures { let found = type_of_parameter (option_copied name.entry) base.now layers.now
        in Walks (twice found world.old) result world.new }
{
    let ty = parameter(alloc, world, name, copy_type(base)?, layers)?;
    let again = copy_type(&ty)?;
    Ok((ty, again))
}

/// The spec alone.
pub fn spec_of(base: Boxed<(TypedSpec, Ty)>) -> TypedSpec
    ensures { result ≡ base.0 }
{
    let (spec, _) = base.into_inner();
    spec
}

/// A parameter with a name.
///
/// # Errors
///
/// `Broken`, at the first rule that is broken. `Memory`, where no memory is left.
pub fn named_param(
    alloc: Global,
    world: &mut World,
    base: Boxed<(TypedSpec, Ty)>,
    declarator: Boxed<LayeredDeclarator>,
) -> Result<(TypedParam, Parameter), Failure>
    ensures { Walks (rule.named_param base declarator world.old) result world.new }
{
    let whole = declarator.get();
    let layers = whole.layers.as_slice();
    let (ty, again) = parameter_types(alloc, world, Some(&whole.name), &base.get().1, layers)?;
    let (declared, name) = declarator.into_inner().into_declared(ty);
    let param = Parameter {
        name: Some(name),
        ty: again,
    };
    Ok((TypedParam::Named(spec_of(base), declared), param))
}

/// A parameter without a name.
///
/// # Errors
///
/// `Broken`, at the first rule that is broken. `Memory`, where no memory is left.
pub fn unnamed_param(
    alloc: Global,
    world: &mut World,
    base: Boxed<(TypedSpec, Ty)>,
    declarator: Boxed<LayeredAbstract>,
) -> Result<(TypedParam, Parameter), Failure>
    ensures { Walks (rule.unnamed_param base declarator world.old) result world.new }
{
    let layers = declarator.get().1.as_slice();
    let (ty, again) = parameter_types(alloc, world, None, &base.get().1, layers)?;
    let (declarator, _) = declarator.into_inner();
    let param = Parameter {
        name: None,
        ty: again,
    };
    Ok((TypedParam::Unnamed(spec_of(base), declarator, ty), param))
}

/// A type word.
///
/// # Errors
///
/// `Broken`, at the first rule that is broken. `Memory`, where no memory is left.
pub fn whole_word(
    alloc: Global,
    world: &World,
    base: Boxed<(TypedSpec, Ty)>,
    declarator: Boxed<LayeredAbstract>,
) -> Result<TypedTypeWord, Failure>
    ensures { Walks (rule.whole_word base declarator world.now) result world.now }
{
    let layers = declarator.get().1.as_slice();
    let ty = word_type(alloc, world, copy_type(&base.get().1)?, layers)?;
    let (declarator, _) = declarator.into_inner();
    Ok(TypedTypeWord {
        spec: spec_of(base),
        declarator,
        ty,
    })
}

/// A type name.
///
/// # Errors
///
/// `Broken`, at the first rule that is broken. `Memory`, where no memory is left.
pub fn type_name(alloc: Global, world: &World, name: &Name) -> Result<(TypedSpec, Ty), Failure>
    ensures { Walks (rule.type_name name.now world.now) result world.now }
{
    match world.scopes.meaning(name.bytes()) {
        Some(Meaning::TypeName(ty)) => {
            Ok((TypedSpec::TypeName(copy_name(alloc, name)?), copy_type(ty)?))
        }
        _ => Err(Failure::Broken(Rule::Undeclared)),
    }
}

/// A struct by its tag alone.
///
/// # Errors
///
/// `Broken`, at the first rule that is broken. `Memory`, where no memory is left.
pub fn struct_spec(
    alloc: Global,
    world: &mut World,
    name: &Name,
) -> Result<(TypedSpec, Ty), Failure>
    ensures { Walks (rule.struct_spec name.now world.old) result world.new }
{
    let number = tag(alloc, world, name)?;
    Ok((
        TypedSpec::Struct(copy_name(alloc, name)?, None),
        Ty::Struct(number),
    ))
}

/// The tag of a body that may stand here.
///
/// # Errors
///
/// `Broken`, at the first rule that is broken. `Memory`, where no memory is left.
pub fn body_tag(alloc: Global, world: &mut World, name: &Name, bodies: bool) -> Result<u32, Failure>
    ensures { Walks (rule.body_tag name.now bodies world.old) result world.new }
{
    let number = tag(alloc, world, name)?;
    test(Rule::Tag, bodies && world.is_undefined(number))?;
    Ok(number)
}

/// A member's type, as `parameter_types`.
fn member_types(
    alloc: Global,
    world: &World,
    before: &Table<Member>,
    base: &Ty,
    declarator: &LayeredDeclarator,
) -> Result<(Ty, Ty), Failure>
    ensures { let d = declarator.now
        in let found = type_of_member before.now d.name base.now d.layers
        in Walks (twice found world.now) result world.now }
{
    let layers = declarator.layers.as_slice();
    let ty = member_type(
        alloc,
        world,
        before,
        &declarator.name,
        copy_type(base)?,
        layers,
    )?;
    let again = copy_type(&ty)?;
    Ok((ty, again))
}

/// One declarator of members, which stands behind these.
///
/// # Errors
///
/// `Broken`, at the first rule that is broken. `Memory`, where no memory is left.
pub fn one_member(
    alloc: Global,
    world: &World,
    base: &Ty,
    declarator: Boxed<LayeredDeclarator>,
    members: &mut Table<Member>,
) -> Result<Declared, Failure>
    ensures { let found = rule.one_member base.now declarator members.old world.now
        in Walks found (with_list result members.new) world.now }
{
    let (ty, again) = member_types(alloc, world, members, base, declarator.get())?;
    let (declared, name) = declarator.into_inner().into_declared(ty);
    members.push(Member { name, ty: again })?;
    Ok(declared)
}
