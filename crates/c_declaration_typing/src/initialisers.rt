//! The walk of initialisers.

ghost use Rattle.std.specs.Prelude.{◌≡◌, map, IfOk};
ghost use Rattle.std.specs.Option.{option_and_then, option_copied};
ghost use Rattle.c_scope.specs.Walk.{each};
ghost use Rattle.c_scope.specs.Walks.{Walks};
ghost use Rattle.c_declaration_typing.specs.Initialisers as spec;
ghost use Rattle.c_declaration_typing.specs.Initialisers.{typed_init};

use crate::leaves::is_constant_leaf;
use c_expr_typing::expression;
use c_operators::{converts, takes_value};
use c_rules::Place;
use c_scope::{Failure, Rule, World, test};
use c_tree::{Expr, Init};
use c_typed::{TypedExpr, TypedInit};
use c_types::{StructTable, Ty, bound_of, copy_type, element_of, is_char};
use sqlite_items::Items;
use std::alloc::{AllocError, Global};

/// The bytes of an expression that is a string alone.
#[tactic(auto, unfolding(crate::specs::Initialisers::text_of))]
pub(crate) fn text_of(e: &Expr) -> Option<&Items<u8>>
    ensures { option_copied result ≡ spec.text_of e.now }
{
    match e {
        Expr::Text(bytes) => Some(bytes),
        _ => None,
    }
}

/// How many units of a char array a string may fill.
#[tactic(auto, unfolding(crate::specs::Initialisers::char_bound))]
fn char_bound(ty: &Ty) -> Option<u32>
    ensures { result ≡ spec.char_bound ty.now }
{
    match element_of(ty) {
        Some(element) if is_char(element) => bound_of(ty),
        _ => None,
    }
}

/// The same of a target.
fn char_target(target: Option<&Ty>) -> Option<u32>
    ensures { result ≡ option_and_then spec.char_bound (option_copied target.entry) }
{
    char_bound(target?)
}

/// A string that gives a char array its units.
fn given_text(alloc: Global, _world: &World, bytes: &[u8], units: u32) -> Result<TypedInit, Failure>
    ensures { Walks (spec.given_text bytes.now units _world.now) result _world.now }
{
    test(Rule::Form, bytes.len() < units as usize)?;
    Ok(TypedInit::Text(Items::from_slice(alloc, bytes)?))
}

/// What is asked of an expression that gives a value of the type.
#[tactic(auto, unfolding(crate::specs::Initialisers::value_rules))]
fn value_rules(
    alloc: Global,
    _world: &World,
    is_global: bool,
    ty: &Ty,
    x: &TypedExpr,
) -> Result<(), Failure>
    ensures { Walks (spec.value_rules is_global ty.now x.now _world.now) result _world.now }
{
    if !takes_value(ty) {
        return Err(Failure::Broken(Rule::Form));
    }
    if !converts(alloc, x, ty)? {
        return Err(Failure::Broken(Rule::Unconverted));
    }
    test(Rule::NotConstant, !is_global || is_constant_leaf(x))
}

/// The same, where there is a part for it.
fn leaf_rules(
    alloc: Global,
    world: &World,
    is_global: bool,
    target: Option<&Ty>,
    x: &TypedExpr,
) -> Result<(), Failure>
    ensures { Walks (spec.leaf_rules is_global (option_copied target.entry) x.now world.now)
        result world.now }
{
    match target {
        None => Ok(()),
        Some(ty) => value_rules(alloc, world, is_global, ty, x),
    }
}

/// An expression that gives a value.
fn given_value(
    alloc: Global,
    world: &mut World,
    is_global: bool,
    target: Option<&Ty>,
    e: &Expr,
) -> Result<TypedInit, Failure>
    ensures { Walks (spec.given_value is_global (option_copied target.entry) e.now world.old)
        result world.new }
{
    let x = expression(alloc, world, e, Place::Value)?;
    leaf_rules(alloc, world, is_global, target, x.get())?;
    Ok(TypedInit::Expr(x.into_inner()))
}

/// An initialiser that is an expression.
fn given(
    alloc: Global,
    world: &mut World,
    is_global: bool,
    target: Option<&Ty>,
    e: &Expr,
) -> Result<TypedInit, Failure>
    ensures { Walks (spec.given is_global (option_copied target.entry) e.now world.old)
        result world.new }
{
    if let Some(bytes) = text_of(e) {
        if let Some(units) = char_target(target) {
            return given_text(alloc, world, bytes.as_slice(), units);
        }
    }
    given_value(alloc, world, is_global, target, e)
}

/// The type of a part: an element of an array, or a member of a struct.
#[tactic(auto, unfolding(crate::specs::Initialisers::part_of))]
fn part_of<'a>(structs: &'a StructTable, i: usize, ty: &'a Ty) -> Option<&'a Ty>
    ensures { option_copied result ≡ spec.part_of structs.now i ty.now }
{
    match ty {
        Ty::Array(element, bound) if i < *bound as usize => Some(element.get()),
        Ty::Struct(number) => member_type(structs, *number, i),
        _ => None,
    }
}

/// The type of a member of a struct that has a body.
fn member_type(structs: &StructTable, number: u32, i: usize) -> Option<&Ty>
    ensures { option_copied result ≡ spec.member_type structs.now number i }
{
    let members = structs.get(number)?.members.as_ref()?;
    Some(&members.get(i)?.ty)
}

/// The type of a part of a target.
fn part_type(structs: &StructTable, i: usize, target: Option<&Ty>) -> Result<Option<Ty>, AllocError>
    ensures { IfOk result
        (λ ty. ty ≡ option_and_then (spec.part_of structs.now i) (option_copied target.entry)) }
{
    let Some(whole) = target else {
        return Ok(None);
    };
    match part_of(structs, i, whole) {
        Some(ty) => Ok(Some(copy_type(ty)?)),
        None => Ok(None),
    }
}

/// Whether each of so many parts is one of the type.
#[tactic(auto, unfolding(crate::specs::Initialisers::has_parts))]
fn has_parts(structs: &StructTable, count: usize, ty: &Ty) -> bool
    ensures { result ≡ spec.has_parts structs.now count ty.now }
{
    count == 0 || part_of(structs, count - 1, ty).is_some()
}

/// What is asked of so many parts.
fn parts_rule(world: &World, target: Option<&Ty>, count: usize) -> Result<(), Failure>
    ensures { Walks (spec.parts_rule (option_copied target.entry) count world.now)
        result world.now }
{
    match target {
        None => Ok(()),
        Some(ty) => test(Rule::Form, has_parts(&world.structs, count, ty)),
    }
}

/// The typed form of an initialiser of a part, a global's or a local's.
///
/// # Errors
///
/// `Broken`, at the first rule that is broken. `Memory`, where no memory is left.
#[cycle(initialiser)]
#[tactic(auto, using(crate::proofs::InitForms::initialisers))]
pub(crate) fn initialiser(
    alloc: Global,
    world: &mut World,
    is_global: bool,
    init: &Init,
    target: Option<&Ty>,
) -> Result<TypedInit, Failure>
    ensures { Walks (typed_init is_global init.now (option_copied target.entry) world.old)
        result world.new }
{
    match init {
        Init::Expr(e) => given(alloc, world, is_global, target, e),
        Init::Braces(all) => braces(alloc, world, is_global, target, all.as_slice()),
    }
}

/// Parts in braces.
#[cycle(initialiser)]
fn braces(
    alloc: Global,
    world: &mut World,
    is_global: bool,
    target: Option<&Ty>,
    all: &[Init],
) -> Result<TypedInit, Failure>
    ensures { let ps = map (typed_init is_global) all.now
        in Walks (spec.braces (option_copied target.entry) ps world.old) result world.new }
{
    let found = parts(alloc, world, is_global, target, all)?;
    parts_rule(world, target, found.len())?;
    Ok(TypedInit::Braces(found))
}

/// The parts, in order.
#[cycle(initialiser)]
#[tactic(auto, using(c_scope::specs::inner::Lists::lists))]
fn parts(
    alloc: Global,
    world: &mut World,
    is_global: bool,
    target: Option<&Ty>,
    all: &[Init],
) -> Result<Items<TypedInit>, Failure>
    ensures { let ps = map (typed_init is_global) all.now
        in Walks (each (spec.parts_from 0 (option_copied target.entry) ps) world.old)
        result world.new }
{
    let mut found = Items::new(alloc);
    for (i, one) in all.iter().enumerate() {
        found.push(part(alloc, world, is_global, target, i, one)?)?;
    }
    Ok(found)
}

/// One part.
#[cycle(initialiser)]
fn part(
    alloc: Global,
    world: &mut World,
    is_global: bool,
    target: Option<&Ty>,
    i: usize,
    init: &Init,
) -> Result<TypedInit, Failure>
    ensures { let p = typed_init is_global init.now
        in Walks (spec.one_part i (option_copied target.entry) p world.old) result world.new }
{
    let ty = part_type(&world.structs, i, target)?;
    initialiser(alloc, world, is_global, init, ty.as_ref())
}
