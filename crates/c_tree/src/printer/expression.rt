//! The texts of expressions, type words and declarators.

ghost use Rattle.std.specs.Prelude.{◌≡◌, ◌∷◌, [], Some, map, OnOk};
ghost use Rattle.c_tree.specs.Grammar.{star_kinds};
ghost use Rattle.c_tree.specs.Printed.{joined, with_commas, body_kinds, left_of_sign, sign, right_of_sign};
ghost use Rattle.c_tree.specs.Printed.{printed_direct, printed_expr, printed_param, printed_params, printed_spec};
ghost use Rattle.c_tree.specs.Printed.{printed_suffix, printed_abstract, printed_declarator, printed_member};
ghost use Rattle.c_tree.specs.Printed.{printed_type_word};
ghost use Rattle.c_tree.specs.inner.Appended.{Appends};
ghost use Rattle.c_tree.specs.inner.PrintedParts.{expr_parts};

use super::token::{push_mark, push_name, push_number, push_separator, push_text, push_word};
use crate::expression::{
    AbstractDeclarator, Declarator, Direct, Expr, MemberDecl, Param, Params, Spec, Suffix, TypeWord,
};
use c_tokens::{Keyword, Mark};
use std::alloc::AllocError;

/// Appends an expression, in parentheses where it is built of several tokens.
#[cycle(expression)]
pub(super) fn push_expr(out: &mut Vec<u8>, expr: &Expr) -> Result<(), AllocError>
    ensures { OnOk result (Appends out.old.items (printed_expr expr.now) out.new.items) }
{
    match expr {
        Expr::Identifier(_) | Expr::Number(_) | Expr::Text(_) => push_sign(out, expr),
        _ => {
            push_mark(out, Mark::LeftParenthesis)?;
            push_left(out, expr)?;
            push_sign(out, expr)?;
            push_right(out, expr)?;
            push_mark(out, Mark::RightParenthesis)
        }
    }
}

/// Appends the token that tells what an expression is.
#[tactic(auto, unfolding(crate::specs::inner::PrintedParts::expr_parts))]
fn push_sign(out: &mut Vec<u8>, expr: &Expr) -> Result<(), AllocError>
    ensures { OnOk result (Appends out.old.items (sign (expr_parts expr.now) ∷ []) out.new.items) }
{
    match expr {
        Expr::Assign(_, operator, _) => push_mark(out, operator.mark()),
        Expr::Conditional { .. } => push_mark(out, Mark::Question),
        Expr::Binary(_, operator, _) => push_mark(out, operator.mark()),
        Expr::Cast(..) | Expr::Call(..) => push_mark(out, Mark::LeftParenthesis),
        Expr::PreIncrement(_) | Expr::PostIncrement(_) => push_mark(out, Mark::Increment),
        Expr::PreDecrement(_) | Expr::PostDecrement(_) => push_mark(out, Mark::Decrement),
        Expr::Unary(operator, _) => push_mark(out, operator.mark()),
        Expr::SizeofExpr(_) | Expr::SizeofType(_) => push_word(out, Keyword::Sizeof),
        Expr::Index(..) => push_mark(out, Mark::LeftBracket),
        Expr::Member(..) => push_mark(out, Mark::Dot),
        Expr::Arrow(..) => push_mark(out, Mark::Arrow),
        Expr::Identifier(name) => push_name(out, name),
        Expr::Number(number) => push_number(out, *number),
        Expr::Text(bytes) => push_text(out, bytes.as_slice()),
    }
}

/// Appends the operand to the left of an expression's sign.
#[cycle(expression)]
#[tactic(auto, using(crate::proofs::AppendedLemmas::nothing), unfolding(crate::specs::inner::PrintedParts::expr_parts))]
fn push_left(out: &mut Vec<u8>, expr: &Expr) -> Result<(), AllocError>
    ensures { OnOk result (Appends out.old.items
        (left_of_sign (expr_parts expr.now)) out.new.items) }
{
    match expr {
        Expr::Assign(operand, ..)
        | Expr::Conditional {
            condition: operand,
            ..
        }
        | Expr::Binary(operand, ..)
        | Expr::Index(operand, _)
        | Expr::Call(operand, _)
        | Expr::Member(operand, _)
        | Expr::Arrow(operand, _)
        | Expr::PostIncrement(operand)
        | Expr::PostDecrement(operand) => push_expr(out, operand.get()),
        Expr::Cast(..)
        | Expr::PreIncrement(_)
        | Expr::PreDecrement(_)
        | Expr::Unary(..)
        | Expr::SizeofExpr(_)
        | Expr::SizeofType(_)
        | Expr::Identifier(_)
        | Expr::Number(_)
        | Expr::Text(_) => Ok(()),
    }
}

/// Appends what stands to the right of an expression's sign.
#[cycle(expression)]
#[tactic(auto, using(crate::proofs::AppendedLemmas::nothing), unfolding(crate::specs::inner::PrintedParts::expr_parts))]
fn push_right(out: &mut Vec<u8>, expr: &Expr) -> Result<(), AllocError>
    ensures { OnOk result (Appends out.old.items
        (right_of_sign (expr_parts expr.now)) out.new.items) }
{
    match expr {
        Expr::Assign(_, _, operand)
        | Expr::Binary(_, _, operand)
        | Expr::PreIncrement(operand)
        | Expr::PreDecrement(operand)
        | Expr::Unary(_, operand)
        | Expr::SizeofExpr(operand) => push_expr(out, operand.get()),
        Expr::Conditional {
            then_value,
            else_value,
            ..
        } => {
            push_expr(out, then_value.get())?;
            push_mark(out, Mark::Colon)?;
            push_expr(out, else_value.get())
        }
        Expr::Cast(word, operand) => {
            push_type_word(out, word.get())?;
            push_mark(out, Mark::RightParenthesis)?;
            push_expr(out, operand.get())
        }
        Expr::SizeofType(word) => {
            push_mark(out, Mark::LeftParenthesis)?;
            push_type_word(out, word.get())?;
            push_mark(out, Mark::RightParenthesis)
        }
        Expr::Index(_, index) => {
            push_expr(out, index.get())?;
            push_mark(out, Mark::RightBracket)
        }
        Expr::Call(_, arguments) => {
            push_arguments(out, arguments.as_slice())?;
            push_mark(out, Mark::RightParenthesis)
        }
        Expr::Member(_, name) | Expr::Arrow(_, name) => push_name(out, name),
        Expr::PostIncrement(_)
        | Expr::PostDecrement(_)
        | Expr::Identifier(_)
        | Expr::Number(_)
        | Expr::Text(_) => Ok(()),
    }
}

/// Appends expressions with commas between.
#[cycle(expression)]
fn push_arguments(out: &mut Vec<u8>, arguments: &[Expr]) -> Result<(), AllocError>
    ensures { OnOk result (Appends out.old.items
        (with_commas (map printed_expr arguments.now)) out.new.items) }
{
    for (i, argument) in arguments.iter().enumerate() {
        push_separator(out, i)?;
        push_expr(out, argument)?;
    }
    Ok(())
}

/// Appends a type word.
#[cycle(expression)]
fn push_type_word(out: &mut Vec<u8>, word: &TypeWord) -> Result<(), AllocError>
    ensures { OnOk result (Appends out.old.items (printed_type_word word.now) out.new.items) }
{
    push_spec(out, &word.spec)?;
    push_abstract(out, &word.declarator)
}

/// Appends a spec.
#[cycle(expression)]
pub(super) fn push_spec(out: &mut Vec<u8>, spec: &Spec) -> Result<(), AllocError>
    ensures { OnOk result (Appends out.old.items (printed_spec spec.now) out.new.items) }
{
    match spec {
        Spec::Int => push_word(out, Keyword::Int),
        Spec::Char => push_word(out, Keyword::Char),
        Spec::Void => push_word(out, Keyword::Void),
        Spec::TypeName(name) => push_name(out, name),
        Spec::Struct(tag, members) => {
            push_word(out, Keyword::Struct)?;
            push_name(out, tag)?;
            match members {
                Some(members) => push_body(out, members.as_slice()),
                None => Ok(()),
            }
        }
    }
}

/// Appends the members of a struct's body in braces.
#[cycle(expression)]
fn push_body(out: &mut Vec<u8>, members: &[MemberDecl]) -> Result<(), AllocError>
    ensures { OnOk result (Appends out.old.items
        (body_kinds (Some (map printed_member members.now))) out.new.items) }
{
    push_mark(out, Mark::LeftBrace)?;
    for member in members {
        push_spec(out, &member.spec)?;
        push_declarators(out, member.declarators.as_slice())?;
        push_mark(out, Mark::Semicolon)?;
    }
    push_mark(out, Mark::RightBrace)
}

/// Appends declarators with commas between.
#[cycle(expression)]
pub(super) fn push_declarators(
    out: &mut Vec<u8>,
    declarators: &[Declarator],
) -> Result<(), AllocError>
    ensures { OnOk result (Appends out.old.items
        (with_commas (map printed_declarator declarators.now)) out.new.items) }
{
    for (i, declarator) in declarators.iter().enumerate() {
        push_separator(out, i)?;
        push_declarator(out, declarator)?;
    }
    Ok(())
}

/// Appends stars.
fn push_stars(out: &mut Vec<u8>, stars: u32) -> Result<(), AllocError>
    ensures { OnOk result (Appends out.old.items (star_kinds stars) out.new.items) }
{
    for _ in 0..stars {
        push_mark(out, Mark::Star)?;
    }
    Ok(())
}

/// Appends a declarator, in parentheses where it has stars or suffixes.
#[cycle(expression)]
pub(super) fn push_declarator(out: &mut Vec<u8>, declarator: &Declarator) -> Result<(), AllocError>
    ensures { OnOk result (Appends out.old.items
        (printed_declarator declarator.now) out.new.items) }
{
    if declarator.stars == 0 && declarator.suffixes.is_empty() {
        return push_direct(out, &declarator.direct);
    }
    push_mark(out, Mark::LeftParenthesis)?;
    push_stars(out, declarator.stars)?;
    push_direct(out, &declarator.direct)?;
    push_suffixes(out, declarator.suffixes.as_slice())?;
    push_mark(out, Mark::RightParenthesis)
}

/// Appends what a declarator's stars and suffixes stand round.
#[cycle(expression)]
fn push_direct(out: &mut Vec<u8>, direct: &Direct) -> Result<(), AllocError>
    ensures { OnOk result (Appends out.old.items (printed_direct direct.now) out.new.items) }
{
    match direct {
        Direct::Name(name) => push_name(out, name),
        Direct::Bracketed(inside) => push_declarator(out, inside.get()),
    }
}

/// Appends suffixes one after another.
#[cycle(expression)]
fn push_suffixes(out: &mut Vec<u8>, suffixes: &[Suffix]) -> Result<(), AllocError>
    ensures { OnOk result (Appends out.old.items
        (joined (map printed_suffix suffixes.now)) out.new.items) }
{
    for suffix in suffixes {
        push_suffix(out, suffix)?;
    }
    Ok(())
}

/// Appends a bound or parameters in their brackets.
#[cycle(expression)]
fn push_suffix(out: &mut Vec<u8>, suffix: &Suffix) -> Result<(), AllocError>
    ensures { OnOk result (Appends out.old.items (printed_suffix suffix.now) out.new.items) }
{
    match suffix {
        Suffix::Array(bound) => {
            push_mark(out, Mark::LeftBracket)?;
            if let Some(bound) = bound {
                push_expr(out, bound)?;
            }
            push_mark(out, Mark::RightBracket)
        }
        Suffix::Function(params) => {
            push_mark(out, Mark::LeftParenthesis)?;
            push_params(out, params)?;
            push_mark(out, Mark::RightParenthesis)
        }
    }
}

/// Appends parameters without their brackets.
#[cycle(expression)]
fn push_params(out: &mut Vec<u8>, params: &Params) -> Result<(), AllocError>
    ensures { OnOk result (Appends out.old.items (printed_params params.now) out.new.items) }
{
    match params {
        Params::Nothing => Ok(()),
        Params::VoidAlone => push_word(out, Keyword::Void),
        Params::List(params) => push_param_list(out, params.as_slice()),
    }
}

/// Appends parameters with commas between.
#[cycle(expression)]
fn push_param_list(out: &mut Vec<u8>, params: &[Param]) -> Result<(), AllocError>
    ensures { OnOk result (Appends out.old.items
        (with_commas (map printed_param params.now)) out.new.items) }
{
    for (i, param) in params.iter().enumerate() {
        push_separator(out, i)?;
        push_param(out, param)?;
    }
    Ok(())
}

/// Appends a parameter.
#[cycle(expression)]
fn push_param(out: &mut Vec<u8>, param: &Param) -> Result<(), AllocError>
    ensures { OnOk result (Appends out.old.items (printed_param param.now) out.new.items) }
{
    match param {
        Param::Named(spec, declarator) => {
            push_spec(out, spec)?;
            push_declarator(out, declarator)
        }
        Param::Unnamed(spec, declarator) => {
            push_spec(out, spec)?;
            push_abstract(out, declarator)
        }
    }
}

/// Appends a declarator without a name.
#[cycle(expression)]
fn push_abstract(out: &mut Vec<u8>, declarator: &AbstractDeclarator) -> Result<(), AllocError>
    ensures { OnOk result (Appends out.old.items (printed_abstract declarator.now) out.new.items) }
{
    push_stars(out, declarator.stars)?;
    if let Some(inside) = &declarator.bracketed {
        push_mark(out, Mark::LeftParenthesis)?;
        push_abstract(out, inside.get())?;
        push_mark(out, Mark::RightParenthesis)?;
    }
    push_suffixes(out, declarator.suffixes.as_slice())
}
