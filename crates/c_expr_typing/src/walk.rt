//! The walk of expressions and of what stands in them. The trees contain one another, so the
//! functions call one another: an expression has type words, whose bounds are expressions.

ghost use Rattle.std.specs.Prelude.{◌≡◌, ◌++◌, ◌∷◌, [], map, OnOk};
ghost use Rattle.c_expr_typing.specs.Trees as tree;
ghost use Rattle.c_expr_typing.specs.Trees.{walked};
ghost use Rattle.c_declarator_rules.specs.inner.Walked.{with_list};
ghost use Rattle.c_scope.specs.Scopes.{within};
ghost use Rattle.c_scope.specs.Walk.{each_pair, maybe};
ghost use Rattle.c_scope.specs.Walks.{Walks};
ghost use Rattle.c_tree.specs.Fold.{expr_node};
ghost use Rattle.std.specs.Option.{option_map};

use c_declarator_rules::{
    LayeredAbstract, LayeredDeclarator, abstract_layered, body_tag, constant_bound, layered,
    named_param, one_member, spec_of, struct_spec, type_name, unnamed_param, whole_word,
};
use c_layers::{Layer, Layers, Parameter, Parameters};
use c_rules::{
    Place, arrow, assignment, binary, call, cast, conditional, identifier, index, member, number,
    post_decrement, post_increment, pre_decrement, pre_increment, size_of_type, size_of_value,
    text, unary,
};
use c_scope::{Failure, Rule, World, define, test};
use c_tree::{
    AbstractDeclarator, Declarator, Direct, Expr, MemberDecl, Param, Params, Spec, Suffix, TypeWord,
};
use c_typed::{
    Declared, TypedDirect, TypedExpr, TypedMemberDecl, TypedParam, TypedParams, TypedSpec,
    TypedSuffix, TypedTypeWord,
};
use c_types::{Member, Name, Ty, copy_name};
use sqlite_items::{Boxed, Items};
use std::alloc::{AllocError, Global};
use tables::Table;

/// The most parameters of a function.
const MOST_PARAMETERS: usize = 8;

/// The typed form of an expression, on the heap.
///
/// # Errors
///
/// `Broken`, at the first rule that is broken. `Memory`, where no memory is left.
#[cycle(walk)]
#[tactic(auto, using(crate::proofs::Forms::expressions))]
pub fn expression(
    alloc: Global,
    world: &mut World,
    expr: &Expr,
    place: Place,
) -> Result<Boxed<TypedExpr>, Failure>
    ensures { Walks (walked.expr expr.now place world.old) result world.new }
{
    let x = expression_node(alloc, world, expr, place)?;
    Ok(Boxed::new(alloc, x)?)
}

/// Its parts, and then its rules.
#[cycle(walk)]
fn expression_node(
    alloc: Global,
    world: &mut World,
    expr: &Expr,
    place: Place,
) -> Result<TypedExpr, Failure>
    ensures { Walks (tree.expr_step (expr_node walked expr.now) place world.old) result world.new }
{
    match expr {
        Expr::Assign(a, operator, b) => {
            let (a, b) = operands(alloc, world, a.get(), b.get())?;
            assignment(alloc, world, a, *operator, b)
        }
        Expr::Conditional {
            condition,
            then_value,
            else_value,
        } => {
            let (c, a, b) = arms(
                alloc,
                world,
                condition.get(),
                then_value.get(),
                else_value.get(),
            )?;
            conditional(alloc, world, c, a, b)
        }
        Expr::Binary(a, operator, b) => {
            let (a, b) = operands(alloc, world, a.get(), b.get())?;
            binary(alloc, world, a, *operator, b)
        }
        Expr::Cast(word, a) => {
            let (word, a) = cast_parts(alloc, world, word.get(), a.get())?;
            cast(world, word, a)
        }
        Expr::PreIncrement(a) => {
            let a = expression(alloc, world, a.get(), Place::Value)?;
            pre_increment(alloc, world, a)
        }
        Expr::PreDecrement(a) => {
            let a = expression(alloc, world, a.get(), Place::Value)?;
            pre_decrement(alloc, world, a)
        }
        Expr::Unary(operator, a) => {
            let a = expression(alloc, world, a.get(), Place::Value)?;
            unary(alloc, world, *operator, a)
        }
        Expr::SizeofExpr(a) => {
            let a = expression(alloc, world, a.get(), Place::Value)?;
            size_of_value(world, a)
        }
        Expr::SizeofType(word) => {
            let word = boxed_word(alloc, world, word.get())?;
            size_of_type(world, word)
        }
        Expr::Index(a, i) => {
            let (a, i) = operands(alloc, world, a.get(), i.get())?;
            index(alloc, world, a, i)
        }
        Expr::Call(callee, given) => called(alloc, world, callee.get(), given),
        Expr::Member(a, name) => {
            let a = expression(alloc, world, a.get(), Place::Value)?;
            member(alloc, world, a, name)
        }
        Expr::Arrow(a, name) => {
            let a = expression(alloc, world, a.get(), Place::Value)?;
            arrow(alloc, world, a, name)
        }
        Expr::PostIncrement(a) => {
            let a = expression(alloc, world, a.get(), Place::Value)?;
            post_increment(alloc, world, a)
        }
        Expr::PostDecrement(a) => {
            let a = expression(alloc, world, a.get(), Place::Value)?;
            post_decrement(alloc, world, a)
        }
        Expr::Identifier(name) => identifier(alloc, world, name, place),
        Expr::Number(value) => number(world, *value),
        Expr::Text(bytes) => text(alloc, world, bytes.as_slice()),
    }
}

/// Two operands.
#[cycle(walk)]
fn operands(
    alloc: Global,
    world: &mut World,
    a: &Expr,
    b: &Expr,
) -> Result<(Boxed<TypedExpr>, Boxed<TypedExpr>), Failure>
    ensures { Walks (tree.operands (walked.expr a.now) (walked.expr b.now) world.old) result world.new }
{
    let x = expression(alloc, world, a, Place::Value)?;
    let y = expression(alloc, world, b, Place::Value)?;
    Ok((x, y))
}

/// A test and its arms.
#[cycle(walk)]
fn arms(
    alloc: Global,
    world: &mut World,
    c: &Expr,
    a: &Expr,
    b: &Expr,
) -> Result<(Boxed<TypedExpr>, Boxed<TypedExpr>, Boxed<TypedExpr>), Failure>
    ensures { Walks (tree.arms (walked.expr c.now) (walked.expr a.now) (walked.expr b.now) world.old)
        result world.new }
{
    let c = expression(alloc, world, c, Place::Value)?;
    let (x, y) = operands(alloc, world, a, b)?;
    Ok((c, x, y))
}

/// A type word and what is cast to it.
#[cycle(walk)]
fn cast_parts(
    alloc: Global,
    world: &mut World,
    word: &TypeWord,
    a: &Expr,
) -> Result<(Boxed<TypedTypeWord>, Boxed<TypedExpr>), Failure>
    ensures { Walks (tree.cast_parts (walked.type_word word.now) (walked.expr a.now) world.old)
        result world.new }
{
    let word = boxed_word(alloc, world, word)?;
    let a = expression(alloc, world, a, Place::Value)?;
    Ok((word, a))
}

/// What is called, then the arguments.
#[cycle(walk)]
fn called(
    alloc: Global,
    world: &mut World,
    callee: &Expr,
    given: &Items<Expr>,
) -> Result<TypedExpr, Failure>
    ensures { Walks (tree.called (walked.expr callee.now) (map walked.expr given.now) world.old)
        result world.new }
{
    let callee = expression(alloc, world, callee, Place::Callee)?;
    let given = arguments(alloc, world, given.as_slice())?;
    call(alloc, world, callee, given)
}

/// The arguments of a call.
#[cycle(walk)]
#[tactic(auto, using(c_scope::specs::inner::Lists::lists))]
fn arguments(alloc: Global, world: &mut World, all: &[Expr]) -> Result<Items<TypedExpr>, Failure>
    ensures { Walks (tree.arguments (map walked.expr all.now) world.old) result world.new }
{
    let mut found = Items::new(alloc);
    for argument in all {
        found.push(expression(alloc, world, argument, Place::Value)?.into_inner())?;
    }
    Ok(found)
}

/// A type word, on the heap.
#[cycle(walk)]
fn boxed_word(
    alloc: Global,
    world: &mut World,
    word: &TypeWord,
) -> Result<Boxed<TypedTypeWord>, Failure>
    ensures { Walks (walked.type_word word.now world.old) result world.new }
{
    let word = type_word(alloc, world, word)?;
    Ok(Boxed::new(alloc, word)?)
}

/// A type word.
#[cycle(walk)]
#[tactic(auto, using(crate::proofs::Forms::type_words))]
fn type_word(alloc: Global, world: &mut World, word: &TypeWord) -> Result<TypedTypeWord, Failure>
    ensures { Walks (walked.type_word word.now world.old) result world.new }
{
    let base = spec(alloc, world, &word.spec, false)?;
    let declarator = abstract_declarator(alloc, world, &word.declarator)?;
    whole_word(alloc, world, base, declarator)
}

/// A declarator without a name, and its layers.
#[cycle(walk)]
#[tactic(auto, using(crate::proofs::Forms::declarators))]
fn abstract_declarator(
    alloc: Global,
    world: &mut World,
    declarator: &AbstractDeclarator,
) -> Result<Boxed<LayeredAbstract>, Failure>
    ensures { Walks (walked.abstract declarator.now world.old) result world.new }
{
    let inside = bracketed(alloc, world, &declarator.bracketed)?;
    let suffixes = suffixes(alloc, world, declarator.suffixes.as_slice())?;
    Ok(abstract_layered(alloc, declarator.stars, inside, suffixes)?)
}

/// The declarator inside, where there is one.
#[cycle(walk)]
fn bracketed(
    alloc: Global,
    world: &mut World,
    inside: &Option<Boxed<AbstractDeclarator>>,
) -> Result<Option<Boxed<LayeredAbstract>>, Failure>
    ensures { Walks (maybe (option_map walked.abstract inside.now) world.old) result world.new }
{
    match inside {
        None => Ok(None),
        Some(inside) => Ok(Some(abstract_declarator(alloc, world, inside.get())?)),
    }
}

/// The typed form of a declarator, with its name and its layers, on the heap.
///
/// # Errors
///
/// `Broken`, at the first rule that is broken. `Memory`, where no memory is left.
#[cycle(walk)]
#[tactic(auto, using(crate::proofs::Forms::declarators))]
pub fn declarator(
    alloc: Global,
    world: &mut World,
    declarator: &Declarator,
) -> Result<Boxed<LayeredDeclarator>, Failure>
    ensures { Walks (walked.declarator declarator.now world.old) result world.new }
{
    let inside = direct(alloc, world, &declarator.direct)?;
    let suffixes = suffixes(alloc, world, declarator.suffixes.as_slice())?;
    Ok(layered(alloc, declarator.stars, inside, suffixes)?)
}

/// What a declarator's stars and suffixes stand round.
#[cycle(walk)]
#[tactic(auto, using(crate::proofs::Forms::directs))]
fn direct(
    alloc: Global,
    world: &mut World,
    inside: &Direct,
) -> Result<(TypedDirect, Name, Layers), Failure>
    ensures { Walks (walked.direct inside.now world.old) result world.new }
{
    match inside {
        Direct::Name(name) => {
            let declared = copy_name(alloc, name)?;
            Ok((
                TypedDirect::Name(copy_name(alloc, name)?),
                declared,
                Items::new(alloc),
            ))
        }
        Direct::Bracketed(inside) => {
            let inside = declarator(alloc, world, inside.get())?;
            let LayeredDeclarator { tree, name, layers } = inside.into_inner();
            Ok((
                TypedDirect::Bracketed(Boxed::new(alloc, tree)?),
                name,
                layers,
            ))
        }
    }
}

/// Each of two lists gets its part of a pair.
fn push_both<A: Drop, B: Drop>(
    firsts: &mut Items<A>,
    seconds: &mut Items<B>,
    both: (A, B),
) -> Result<(), AllocError>
    ensures first { OnOk result (firsts.new ≡ firsts.old ++ both.0 ∷ []) }
    ensures second { OnOk result (seconds.new ≡ seconds.old ++ both.1 ∷ []) }
{
    let (first, second) = both;
    firsts.push(first)?;
    seconds.push(second)
}

/// Suffixes, and their layers.
#[cycle(walk)]
#[tactic(auto, using(c_scope::specs::inner::Lists::lists))]
fn suffixes(
    alloc: Global,
    world: &mut World,
    all: &[Suffix],
) -> Result<(Items<TypedSuffix>, Layers), Failure>
    ensures { Walks (each_pair (map walked.suffix all.now) world.old) result world.new }
{
    let mut found = Items::new(alloc);
    let mut layers = Items::new(alloc);
    for one in all {
        let made = suffix(alloc, world, one)?;
        push_both(&mut found, &mut layers, made)?;
    }
    Ok((found, layers))
}

/// A suffix, and its layer.
#[cycle(walk)]
#[tactic(auto, using(crate::proofs::Forms::suffixes))]
fn suffix(
    alloc: Global,
    world: &mut World,
    suffix: &Suffix,
) -> Result<(TypedSuffix, Layer), Failure>
    ensures { Walks (walked.suffix suffix.now world.old) result world.new }
{
    match suffix {
        Suffix::Array(value) => match value {
            None => Ok((TypedSuffix::Array(None), Layer::Array(None))),
            Some(value) => bounded(alloc, world, value),
        },
        Suffix::Function(params) => {
            let (params, layer) = parameters(alloc, world, params)?;
            Ok((TypedSuffix::Function(params), Layer::Function(layer)))
        }
    }
}

/// An array with this bound.
#[cycle(walk)]
#[tactic(auto, unfolding(c_operators::specs::Operators::constant_of))]
fn bounded(alloc: Global, world: &mut World, value: &Expr) -> Result<(TypedSuffix, Layer), Failure>
    ensures { Walks (tree.bounded (walked.expr value.now) world.old) result world.new }
{
    let value = expression(alloc, world, value, Place::Value)?;
    let bound = constant_bound(world, value.get().constant)?;
    Ok((
        TypedSuffix::Array(Some(value.into_inner())),
        Layer::Array(Some(bound)),
    ))
}

/// The parameters of a function.
#[cycle(walk)]
#[tactic(auto, using(crate::proofs::Forms::parameters))]
fn parameters(
    alloc: Global,
    world: &mut World,
    params: &Params,
) -> Result<(TypedParams, Parameters), Failure>
    ensures { Walks (walked.params params.now world.old) result world.new }
{
    match params {
        Params::Nothing => Ok((TypedParams::Nothing, Items::new(alloc))),
        Params::VoidAlone => Ok((TypedParams::VoidAlone, Items::new(alloc))),
        Params::List(all) => {
            let (found, params) = scoped_parameters(alloc, world, all.as_slice())?;
            test(Rule::Form, params.len() <= MOST_PARAMETERS)?;
            Ok((TypedParams::List(found), params))
        }
    }
}

/// At least one parameter, in a scope of their own.
#[cycle(walk)]
fn scoped_parameters(
    alloc: Global,
    world: &mut World,
    all: &[Param],
) -> Result<(Items<TypedParam>, Parameters), Failure>
    ensures { Walks (within (each_pair (map walked.param all.now)) world.old) result world.new }
{
    world.enter()?;
    let found = parameter_list(alloc, world, all)?;
    world.leave()?;
    Ok(found)
}

/// At least one parameter.
#[cycle(walk)]
#[tactic(auto, using(c_scope::specs::inner::Lists::lists))]
fn parameter_list(
    alloc: Global,
    world: &mut World,
    all: &[Param],
) -> Result<(Items<TypedParam>, Parameters), Failure>
    ensures { Walks (each_pair (map walked.param all.now) world.old) result world.new }
{
    let mut found = Items::new(alloc);
    let mut params = Items::new(alloc);
    for one in all {
        let made = param(alloc, world, one)?;
        push_both(&mut found, &mut params, made)?;
    }
    Ok((found, params))
}

/// One parameter.
#[cycle(walk)]
#[tactic(auto, using(crate::proofs::Forms::parameters))]
fn param(
    alloc: Global,
    world: &mut World,
    param: &Param,
) -> Result<(TypedParam, Parameter), Failure>
    ensures { Walks (walked.param param.now world.old) result world.new }
{
    match param {
        Param::Named(base, inside) => {
            let base = spec(alloc, world, base, false)?;
            let inside = declarator(alloc, world, inside)?;
            named_param(alloc, world, base, inside)
        }
        Param::Unnamed(base, inside) => {
            let base = spec(alloc, world, base, false)?;
            let inside = abstract_declarator(alloc, world, inside)?;
            unnamed_param(alloc, world, base, inside)
        }
    }
}

/// The typed form of a spec, and its type, on the heap. A struct's body stands only where `bodies`
/// says so.
///
/// # Errors
///
/// `Broken`, at the first rule that is broken. `Memory`, where no memory is left.
#[cycle(walk)]
pub fn spec(
    alloc: Global,
    world: &mut World,
    spec: &Spec,
    bodies: bool,
) -> Result<Boxed<(TypedSpec, Ty)>, Failure>
    ensures { Walks (walked.spec spec.now bodies world.old) result world.new }
{
    let found = spec_node(alloc, world, spec, bodies)?;
    Ok(Boxed::new(alloc, found)?)
}

/// A spec, by its form.
#[cycle(walk)]
#[tactic(auto, using(crate::proofs::Forms::specs))]
fn spec_node(
    alloc: Global,
    world: &mut World,
    spec: &Spec,
    bodies: bool,
) -> Result<(TypedSpec, Ty), Failure>
    ensures { Walks (walked.spec spec.now bodies world.old) result world.new }
{
    match spec {
        Spec::Int => Ok((TypedSpec::Int, Ty::Int)),
        Spec::Char => Ok((TypedSpec::Char, Ty::Char)),
        Spec::Void => Ok((TypedSpec::Void, Ty::Void)),
        Spec::TypeName(name) => type_name(alloc, world, name),
        Spec::Struct(name, body) => match body {
            None => struct_spec(alloc, world, name),
            Some(body) => struct_body(alloc, world, name, body.as_slice(), bodies),
        },
    }
}

/// A struct with its body.
#[cycle(walk)]
fn struct_body(
    alloc: Global,
    world: &mut World,
    name: &Name,
    all: &[MemberDecl],
    bodies: bool,
) -> Result<(TypedSpec, Ty), Failure>
    ensures { Walks (tree.struct_body name.now (map walked.member all.now) bodies world.old)
        result world.new }
{
    let number = body_tag(alloc, world, name, bodies)?;
    let mut found = Table::new(alloc);
    let body = members(alloc, world, all, &mut found)?;
    define(world, number, found.into_items())?;
    Ok((
        TypedSpec::Struct(copy_name(alloc, name)?, Some(body)),
        Ty::Struct(number),
    ))
}

/// The lines of a struct's body, whose members stand behind these.
#[cycle(walk)]
#[tactic(auto, using(crate::proofs::MemberLists::member_lists))]
fn members(
    alloc: Global,
    world: &mut World,
    all: &[MemberDecl],
    members: &mut Table<Member>,
) -> Result<Items<TypedMemberDecl>, Failure>
    ensures { let found = tree.members (map walked.member all.now) members.old world.old
        in Walks found (with_list result members.new) world.new }
{
    let mut found = Items::new(alloc);
    for line in all {
        found.push(member_decl(alloc, world, line, members)?)?;
    }
    Ok(found)
}

/// One line of a struct's body, whose members stand behind these.
#[cycle(walk)]
#[tactic(auto, using(crate::proofs::Forms::members))]
fn member_decl(
    alloc: Global,
    world: &mut World,
    line: &MemberDecl,
    members: &mut Table<Member>,
) -> Result<TypedMemberDecl, Failure>
    ensures { let found = walked.member line.now members.old world.old
        in Walks found (with_list result members.new) world.new }
{
    let base = spec(alloc, world, &line.spec, false)?;
    let all = line.declarators.as_slice();
    let declarators = member_declarators(alloc, world, &base.get().1, all, members)?;
    Ok(TypedMemberDecl {
        spec: spec_of(base),
        declarators,
    })
}

/// The declarators of a line of a struct's body, which stand behind these members.
#[cycle(walk)]
#[tactic(auto, using(crate::proofs::MemberLists::member_lists))]
fn member_declarators(
    alloc: Global,
    world: &mut World,
    base: &Ty,
    all: &[Declarator],
    members: &mut Table<Member>,
) -> Result<Items<Declared>, Failure>
    ensures { let ds = map walked.declarator all.now
        in let found = tree.member_declarators base.now ds members.old world.old
        in Walks found (with_list result members.new) world.new }
{
    let mut found = Items::new(alloc);
    for one in all {
        let inside = declarator(alloc, world, one)?;
        found.push(one_member(alloc, world, base, inside, members)?)?;
    }
    Ok(found)
}
