//! The value of an integer constant expression. The trees contain one another, so the functions
//! call one another: an expression has type words, whose bounds are expressions.

ghost use Rattle.std.specs.Prelude.{◌≡◌, [], ◌∷◌, map};
ghost use Rattle.c_const.specs.Constant as spec;
ghost use Rattle.c_const.specs.Constant.{Gives, constant_value};
ghost use Rattle.c_const.specs.inner.Evaluated.{evaluated};
ghost use Rattle.c_tree.specs.Fold.{expr_node};

use crate::error::ConstRefusal;
use crate::type_words::{TypeTable, bound, converted, parameter_of, size_of, spec_type, word_type};
use crate::values::{complemented, computed, negated, truth};
use c_layers::{Layer, Layers, Parameter, Parameters, joined};
use c_tree::{
    AbstractDeclarator, BinaryOperator, Declarator, Direct, Expr, Param, Params, Suffix, TypeWord,
    UnaryOperator,
};
use c_types::{StructTable, Ty};
use sqlite_items::Items;
use std::alloc::Global;

/// The value of an integer constant expression, whose type words name structs of the table and
/// names of the list.
///
/// # Errors
///
/// The first cause in source order, operands before their operator: `NotConstant`, exactly where
/// a form stands that no integer constant expression has, evaluated or not; `Divide`, exactly
/// where a zero divisor is evaluated. A type word that names no known type, or a type without
/// units under `sizeof`, counts as `NotConstant`. `Memory`, where no memory is left.
#[tactic(auto, unfolding(crate::specs::Constant::constant_value, crate::specs::inner::Evaluated::evaluated))]
pub fn constant(
    alloc: Global,
    expr: &Expr,
    structs: &StructTable,
    names: &TypeTable,
) -> Result<i64, ConstRefusal>
    ensures { Gives (constant_value structs.now names.now expr.now) result }
{
    expression(alloc, structs, names, expr, true)
}

/// An expression, which may be evaluated or not.
#[cycle(evaluation)]
#[tactic(auto, using(crate::proofs::Forms::expressions))]
fn expression(
    alloc: Global,
    structs: &StructTable,
    names: &TypeTable,
    expr: &Expr,
    live: bool,
) -> Result<i64, ConstRefusal>
    ensures { Gives ((evaluated structs.now names.now).expr expr.now live) result }
{
    expression_node(alloc, structs, names, expr, live)
}

/// Its parts, and then itself.
#[cycle(evaluation)]
fn expression_node(
    alloc: Global,
    structs: &StructTable,
    names: &TypeTable,
    expr: &Expr,
    live: bool,
) -> Result<i64, ConstRefusal>
    ensures { let node = expr_node (evaluated structs.now names.now) expr.now
        in Gives (spec.expr_step structs.now names.now node live) result }
{
    match expr {
        Expr::Number(number) => Ok(*number),
        Expr::SizeofType(word) => {
            size_of(structs, &type_word(alloc, structs, names, word.get())?)
        }
        Expr::Cast(word, a) => cast(alloc, structs, names, word.get(), a.get(), live),
        Expr::Unary(operator, a) => unary(alloc, structs, names, *operator, a.get(), live),
        Expr::Binary(a, operator, b) => {
            binary(alloc, structs, names, a.get(), *operator, b.get(), live)
        }
        Expr::Conditional {
            condition,
            then_value,
            else_value,
        } => conditional(
            alloc,
            structs,
            names,
            condition.get(),
            then_value.get(),
            else_value.get(),
            live,
        ),
        Expr::Assign(a, _, b) => two_operands(alloc, structs, names, a.get(), b.get(), live),
        Expr::Index(a, i) => two_operands(alloc, structs, names, a.get(), i.get(), live),
        Expr::Call(callee, arguments) => {
            let _ = expression(alloc, structs, names, callee.get(), live)?;
            operands(alloc, structs, names, arguments.as_slice(), live)
        }
        Expr::PreIncrement(a) => operand(alloc, structs, names, a.get(), live),
        Expr::PreDecrement(a) => operand(alloc, structs, names, a.get(), live),
        Expr::PostIncrement(a) => operand(alloc, structs, names, a.get(), live),
        Expr::PostDecrement(a) => operand(alloc, structs, names, a.get(), live),
        Expr::SizeofExpr(a) => operand(alloc, structs, names, a.get(), false),
        Expr::Member(a, _) => operand(alloc, structs, names, a.get(), live),
        Expr::Arrow(a, _) => operand(alloc, structs, names, a.get(), live),
        Expr::Identifier(_) => Err(ConstRefusal::NotConstant),
        Expr::Text(_) => Err(ConstRefusal::NotConstant),
    }
}

/// A type word and what is cast to it.
#[cycle(evaluation)]
fn cast(
    alloc: Global,
    structs: &StructTable,
    names: &TypeTable,
    word: &TypeWord,
    a: &Expr,
    live: bool,
) -> Result<i64, ConstRefusal>
    ensures { let of = evaluated structs.now names.now
        in Gives (spec.cast (of.type_word word.now) (of.expr a.now) live) result }
{
    let to = type_word(alloc, structs, names, word)?;
    let x = expression(alloc, structs, names, a, live)?;
    converted(&to, x)
}

/// An operator in front of an operand.
#[cycle(evaluation)]
fn unary(
    alloc: Global,
    structs: &StructTable,
    names: &TypeTable,
    operator: UnaryOperator,
    a: &Expr,
    live: bool,
) -> Result<i64, ConstRefusal>
    ensures { let of = evaluated structs.now names.now
        in Gives (spec.unary operator (of.expr a.now) live) result }
{
    unary_value(operator, expression(alloc, structs, names, a, live)?)
}

/// What an operator in front of an operand gives.
fn unary_value(operator: UnaryOperator, x: i64) -> Result<i64, ConstRefusal>
    ensures { Gives (spec.unary_value operator x) result }
{
    match operator {
        UnaryOperator::Negate => Ok(negated(x)),
        UnaryOperator::Complement => Ok(complemented(x)),
        UnaryOperator::Not => Ok(truth(x == 0)),
        UnaryOperator::Address | UnaryOperator::Dereference => Err(ConstRefusal::NotConstant),
    }
}

/// An operator between two operands.
#[cycle(evaluation)]
fn binary(
    alloc: Global,
    structs: &StructTable,
    names: &TypeTable,
    a: &Expr,
    operator: BinaryOperator,
    b: &Expr,
    live: bool,
) -> Result<i64, ConstRefusal>
    ensures { let of = evaluated structs.now names.now
        in Gives (spec.binary operator (of.expr a.now) (of.expr b.now) live) result }
{
    let x = expression(alloc, structs, names, a, live)?;
    let y = expression(
        alloc,
        structs,
        names,
        b,
        live && evaluates_second(operator, x),
    )?;
    divided(live, computed(operator, x, y))
}

/// Whether the second operand is evaluated, where the first has this value.
fn evaluates_second(operator: BinaryOperator, x: i64) -> bool
    ensures { result ≡ spec.evaluates_second operator x }
{
    match operator {
        BinaryOperator::LogicalAnd => x != 0,
        BinaryOperator::LogicalOr => x == 0,
        _ => true,
    }
}

/// What an operator gives, where it divides by 0 only if it isn't evaluated.
fn divided(live: bool, value: Option<i64>) -> Result<i64, ConstRefusal>
    ensures { Gives (spec.divided live value) result }
{
    match value {
        Some(value) => Ok(value),
        None if live => Err(ConstRefusal::Divide),
        None => Ok(0),
    }
}

/// A condition and two values, of which one is evaluated.
#[cycle(evaluation)]
fn conditional(
    alloc: Global,
    structs: &StructTable,
    names: &TypeTable,
    c: &Expr,
    a: &Expr,
    b: &Expr,
    live: bool,
) -> Result<i64, ConstRefusal>
    ensures { let of = evaluated structs.now names.now
        in Gives (spec.conditional (of.expr c.now) (of.expr a.now) (of.expr b.now) live) result }
{
    let x = expression(alloc, structs, names, c, live)?;
    let y = expression(alloc, structs, names, a, live && x != 0)?;
    let z = expression(alloc, structs, names, b, live && x == 0)?;
    Ok(if x == 0 { z } else { y })
}

/// The operand of a form that no constant has.
#[cycle(evaluation)]
fn operand(
    alloc: Global,
    structs: &StructTable,
    names: &TypeTable,
    a: &Expr,
    live: bool,
) -> Result<i64, ConstRefusal>
    ensures { let of = evaluated structs.now names.now
        in Gives (spec.other_form (of.expr a.now ∷ []) live) result }
{
    let _ = expression(alloc, structs, names, a, live)?;
    Err(ConstRefusal::NotConstant)
}

/// The two operands of a form that no constant has.
#[cycle(evaluation)]
fn two_operands(
    alloc: Global,
    structs: &StructTable,
    names: &TypeTable,
    a: &Expr,
    b: &Expr,
    live: bool,
) -> Result<i64, ConstRefusal>
    ensures { let of = evaluated structs.now names.now
        in Gives (spec.other_form (of.expr a.now ∷ of.expr b.now ∷ []) live) result }
{
    let _ = expression(alloc, structs, names, a, live)?;
    operand(alloc, structs, names, b, live)
}

/// The operands of a form that no constant has.
#[cycle(evaluation)]
fn operands(
    alloc: Global,
    structs: &StructTable,
    names: &TypeTable,
    all: &[Expr],
    live: bool,
) -> Result<i64, ConstRefusal>
    ensures { let of = evaluated structs.now names.now
        in Gives (spec.other_form (map of.expr all.now) live) result }
{
    for a in all {
        let _ = expression(alloc, structs, names, a, live)?;
    }
    Err(ConstRefusal::NotConstant)
}

/// A type word.
#[cycle(evaluation)]
#[tactic(auto, using(crate::proofs::Forms::type_words))]
fn type_word(
    alloc: Global,
    structs: &StructTable,
    names: &TypeTable,
    word: &TypeWord,
) -> Result<Ty, ConstRefusal>
    ensures { Gives ((evaluated structs.now names.now).type_word word.now) result }
{
    let base = spec_type(structs, names, &word.spec)?;
    let layers = abstract_layers(alloc, structs, names, &word.declarator)?;
    word_type(alloc, structs, base, layers.as_slice())
}

/// The layers of a declarator without a name.
#[cycle(evaluation)]
#[tactic(auto, using(crate::proofs::Forms::declarators))]
fn abstract_layers(
    alloc: Global,
    structs: &StructTable,
    names: &TypeTable,
    declarator: &AbstractDeclarator,
) -> Result<Layers, ConstRefusal>
    ensures { Gives ((evaluated structs.now names.now).abstract declarator.now) result }
{
    let inside = match &declarator.bracketed {
        None => Items::new(alloc),
        Some(inside) => abstract_layers(alloc, structs, names, inside.get())?,
    };
    let suffixes = suffix_layers(alloc, structs, names, declarator.suffixes.as_slice())?;
    Ok(joined(inside, suffixes, declarator.stars)?)
}

/// The layers of a declarator.
#[cycle(evaluation)]
#[tactic(auto, using(crate::proofs::Forms::declarators))]
fn declarator_layers(
    alloc: Global,
    structs: &StructTable,
    names: &TypeTable,
    declarator: &Declarator,
) -> Result<Layers, ConstRefusal>
    ensures { Gives ((evaluated structs.now names.now).declarator declarator.now) result }
{
    let inside = match &declarator.direct {
        Direct::Name(_) => Items::new(alloc),
        Direct::Bracketed(inside) => declarator_layers(alloc, structs, names, inside.get())?,
    };
    let suffixes = suffix_layers(alloc, structs, names, declarator.suffixes.as_slice())?;
    Ok(joined(inside, suffixes, declarator.stars)?)
}

/// The layers of suffixes.
#[cycle(evaluation)]
#[tactic(auto, using(crate::proofs::Lists::lists))]
fn suffix_layers(
    alloc: Global,
    structs: &StructTable,
    names: &TypeTable,
    suffixes: &[Suffix],
) -> Result<Layers, ConstRefusal>
    ensures { let of = evaluated structs.now names.now
        in Gives (spec.each (map of.suffix suffixes.now)) result }
{
    let mut layers = Items::new(alloc);
    for suffix in suffixes {
        layers.push(suffix_layer(alloc, structs, names, suffix)?)?;
    }
    Ok(layers)
}

/// The layer of a suffix.
#[cycle(evaluation)]
#[tactic(auto, using(crate::proofs::Forms::suffixes))]
fn suffix_layer(
    alloc: Global,
    structs: &StructTable,
    names: &TypeTable,
    suffix: &Suffix,
) -> Result<Layer, ConstRefusal>
    ensures { Gives ((evaluated structs.now names.now).suffix suffix.now) result }
{
    match suffix {
        Suffix::Array(value) => match value {
            None => Ok(Layer::Array(None)),
            Some(value) => bounded(alloc, structs, names, value),
        },
        Suffix::Function(params) => {
            Ok(Layer::Function(parameters(alloc, structs, names, params)?))
        }
    }
}

/// An array with this bound.
#[cycle(evaluation)]
fn bounded(
    alloc: Global,
    structs: &StructTable,
    names: &TypeTable,
    value: &Expr,
) -> Result<Layer, ConstRefusal>
    ensures { Gives (spec.bounded ((evaluated structs.now names.now).expr value.now)) result }
{
    let value = expression(alloc, structs, names, value, true)?;
    Ok(Layer::Array(Some(bound(value)?)))
}

/// The parameters of a function.
#[cycle(evaluation)]
#[tactic(auto, using(crate::proofs::Forms::parameters))]
fn parameters(
    alloc: Global,
    structs: &StructTable,
    names: &TypeTable,
    params: &Params,
) -> Result<Parameters, ConstRefusal>
    ensures { Gives ((evaluated structs.now names.now).params params.now) result }
{
    match params {
        Params::Nothing => Ok(Items::new(alloc)),
        Params::VoidAlone => Ok(Items::new(alloc)),
        Params::List(all) => parameter_list(alloc, structs, names, all.as_slice()),
    }
}

/// At least one parameter.
#[cycle(evaluation)]
#[tactic(auto, using(crate::proofs::Lists::lists))]
fn parameter_list(
    alloc: Global,
    structs: &StructTable,
    names: &TypeTable,
    params: &[Param],
) -> Result<Parameters, ConstRefusal>
    ensures { let of = evaluated structs.now names.now
        in Gives (spec.each (map of.param params.now)) result }
{
    let mut found = Items::new(alloc);
    for param in params {
        found.push(parameter(alloc, structs, names, param)?)?;
    }
    Ok(found)
}

/// One parameter.
#[cycle(evaluation)]
#[tactic(auto, using(crate::proofs::Forms::parameters))]
fn parameter(
    alloc: Global,
    structs: &StructTable,
    names: &TypeTable,
    param: &Param,
) -> Result<Parameter, ConstRefusal>
    ensures { Gives ((evaluated structs.now names.now).param param.now) result }
{
    match param {
        Param::Named(spec, declarator) => {
            let base = spec_type(structs, names, spec)?;
            let layers = declarator_layers(alloc, structs, names, declarator)?;
            parameter_of(alloc, structs, base, layers.as_slice())
        }
        Param::Unnamed(spec, declarator) => {
            let base = spec_type(structs, names, spec)?;
            let layers = abstract_layers(alloc, structs, names, declarator)?;
            parameter_of(alloc, structs, base, layers.as_slice())
        }
    }
}
