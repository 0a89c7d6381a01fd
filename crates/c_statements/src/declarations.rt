//! Initialisers and declarations.

ghost use Rattle.std.specs.Prelude.{◌≡◌, ◌≤◌, ◌<◌, ◌^◌, IfOk};
ghost use Rattle.c_readers.specs.inner.Readers.{readers};
ghost use Rattle.c_readers.specs.inner.Reads.{Reads};
ghost use Rattle.c_statements.specs.inner.Readers as reader;

use c_expr::{declarator, expr, spec};
use c_readers::{ASSIGN_LEVEL, Cursor, Failure, Names, begins_spec};
use c_tokens::Mark;
use c_tree::{Decl, Declarator, ForInit, FullExpr, Init, InitDeclarator, Spec};
use sqlite_items::{Boxed, Items};
use std::alloc::Global;

/// An expression of a statement.
#[tactic(auto, unfolding(crate::specs::inner::Readers::full_expr))]
fn full_expr(
    alloc: Global,
    names: &Names,
    tokens: &mut Cursor<'_>,
    depth: usize,
) -> Result<(FullExpr, usize), Failure>
    requires { depth < 2 ^ 31 }
    ensures reads { Reads (reader.full_expr names.now (readers names.now depth) tokens.old) result tokens.new }
    ensures height { IfOk result (λ e. e.1 ≤ depth) }
{
    let (expr, height) = expr(alloc, names, tokens, depth, ASSIGN_LEVEL)?;
    let expr = Boxed::new(alloc, expr)?;
    Ok((FullExpr { expr }, height))
}

/// An expression, if one stands before the mark, and the mark.
#[tactic(auto, unfolding(crate::specs::inner::Readers::option_to))]
pub(crate) fn option_to(
    alloc: Global,
    names: &Names,
    tokens: &mut Cursor<'_>,
    depth: usize,
    mark: Mark,
) -> Result<(Option<FullExpr>, usize), Failure>
    requires { depth < 2 ^ 31 }
    ensures reads { Reads (reader.option_to names.now (readers names.now depth) mark tokens.old) result tokens.new }
    ensures height { IfOk result (λ o. o.1 ≤ depth) }
{
    if tokens.eat(mark) {
        return Ok((None, 0));
    }
    let (full, height) = full_expr(alloc, names, tokens, depth)?;
    tokens.expect(mark)?;
    Ok((Some(full), height))
}

/// The condition and the step of a `for`, and the closing parenthesis.
#[tactic(auto, unfolding(crate::specs::inner::Readers::for_tests))]
pub(crate) fn for_tests(
    alloc: Global,
    names: &Names,
    tokens: &mut Cursor<'_>,
    depth: usize,
) -> Result<((Option<FullExpr>, Option<FullExpr>), usize), Failure>
    requires { depth < 2 ^ 31 }
    ensures reads { Reads (reader.for_tests names.now (readers names.now depth) tokens.old) result tokens.new }
    ensures height { IfOk result (λ c. c.1 ≤ depth) }
{
    let (test, height) = option_to(alloc, names, tokens, depth, Mark::Semicolon)?;
    let (step, step_height) = option_to(alloc, names, tokens, depth, Mark::RightParenthesis)?;
    Ok(((test, step), height.max(step_height)))
}

/// An expression in parentheses.
#[tactic(auto, unfolding(crate::specs::inner::Readers::condition))]
pub(crate) fn condition(
    alloc: Global,
    names: &Names,
    tokens: &mut Cursor<'_>,
    depth: usize,
) -> Result<(FullExpr, usize), Failure>
    requires { depth < 2 ^ 31 }
    ensures reads { Reads (reader.condition names.now (readers names.now depth) tokens.old) result tokens.new }
    ensures height { IfOk result (λ c. c.1 ≤ depth) }
{
    tokens.expect(Mark::LeftParenthesis)?;
    let read = full_expr(alloc, names, tokens, depth)?;
    tokens.expect(Mark::RightParenthesis)?;
    Ok(read)
}

/// An initialiser.
pub(crate) fn init(
    alloc: Global,
    names: &Names,
    tokens: &mut Cursor<'_>,
    depth: usize,
) -> Result<(Init, usize), Failure>
    requires { depth < 2 ^ 31 }
    ensures reads { Reads (reader.init names.now depth tokens.old) result tokens.new }
    ensures height { IfOk result (λ i. i.1 ≤ depth) }
{
    if depth == 0 {
        return Err(Failure::Mismatch);
    }
    if !tokens.eat(Mark::LeftBrace) {
        let (expr, height) = expr(alloc, names, tokens, depth - 1, ASSIGN_LEVEL)?;
        return Ok((Init::Expr(expr), 1 + height));
    }
    let mut parts = Items::new(alloc);
    let mut height = 0;
    for _turn in 0..tokens.left() {
        let (part, its_height) = init(alloc, names, tokens, depth - 1)?;
        parts.push(part)?;
        height = height.max(its_height);
        if !tokens.eat(Mark::Comma) {
            tokens.expect(Mark::RightBrace)?;
            return Ok((Init::Braces(parts), 1 + height));
        }
        if tokens.eat(Mark::RightBrace) {
            return Ok((Init::Braces(parts), 1 + height));
        }
    }
    Err(Failure::Mismatch)
}

/// A declarator that was read, with its initialiser, if it has one.
#[tactic(auto, unfolding(crate::specs::inner::Readers::with_init))]
fn with_init(
    alloc: Global,
    names: &Names,
    tokens: &mut Cursor<'_>,
    depth: usize,
    declarator: (Declarator, usize),
) -> Result<(InitDeclarator, usize), Failure>
    requires few { depth < 2 ^ 31 }
    requires low { declarator.1 ≤ depth }
    ensures reads { Reads (reader.with_init names.now (readers names.now depth) (reader.init names.now depth) declarator tokens.old) result tokens.new }
    ensures height { IfOk result (λ d. d.1 ≤ depth) }
{
    let (declarator, height) = declarator;
    if !tokens.eat(Mark::Assign) {
        let without = InitDeclarator {
            declarator,
            init: None,
        };
        return Ok((without, height));
    }
    let (init, init_height) = init(alloc, names, tokens, depth)?;
    let with = InitDeclarator {
        declarator,
        init: Some(init),
    };
    Ok((with, height.max(init_height)))
}

/// What a declaration declares, from its first declarator on, which was read.
fn declared(
    alloc: Global,
    names: &Names,
    tokens: &mut Cursor<'_>,
    depth: usize,
    first: (Declarator, usize),
) -> Result<(Items<InitDeclarator>, usize), Failure>
    requires few { depth < 2 ^ 31 }
    requires low { first.1 ≤ depth }
    ensures reads { Reads (reader.declared names.now (readers names.now depth) (reader.init names.now depth) first tokens.old) result tokens.new }
    ensures height { IfOk result (λ ds. ds.1 ≤ depth) }
{
    let mut found = Items::new(alloc);
    let mut height = 0;
    let mut next = first;
    for _turn in 0..tokens.left() {
        let (with, its_height) = with_init(alloc, names, tokens, depth, next)?;
        found.push(with)?;
        height = height.max(its_height);
        if !tokens.eat(Mark::Comma) {
            return Ok((found, height));
        }
        next = declarator(alloc, names, tokens, depth)?;
    }
    Err(Failure::Mismatch)
}

/// A declaration from its first declarator on, which was read, as its spec was.
#[tactic(auto, unfolding(crate::specs::inner::Readers::decl_of))]
pub fn decl_of(
    alloc: Global,
    names: &Names,
    tokens: &mut Cursor<'_>,
    depth: usize,
    spec: (Spec, usize),
    first: (Declarator, usize),
) -> Result<(Decl, usize), Failure>
    requires few { depth < 2 ^ 31 }
    requires low { spec.1 ≤ depth }
    requires first_low { first.1 ≤ depth }
    ensures reads { Reads (reader.decl_of names.now (readers names.now depth) (reader.init names.now depth) spec first tokens.old) result tokens.new }
    ensures height { IfOk result (λ d. d.1 ≤ depth) }
{
    let (declarators, height) = declared(alloc, names, tokens, depth, first)?;
    tokens.expect(Mark::Semicolon)?;
    let (spec, spec_height) = spec;
    Ok((Decl { spec, declarators }, spec_height.max(height)))
}

/// A declaration.
#[tactic(auto, unfolding(crate::specs::inner::Readers::decl))]
pub(crate) fn decl(
    alloc: Global,
    names: &Names,
    tokens: &mut Cursor<'_>,
    depth: usize,
) -> Result<(Decl, usize), Failure>
    requires { depth < 2 ^ 31 }
    ensures reads { Reads (reader.decl names.now (readers names.now depth) (reader.init names.now depth) tokens.old) result tokens.new }
    ensures height { IfOk result (λ d. d.1 ≤ depth) }
{
    let (spec, height) = spec(alloc, names, tokens, depth)?;
    if tokens.eat(Mark::Semicolon) {
        let declarators = Items::new(alloc);
        return Ok((Decl { spec, declarators }, height));
    }
    let first = declarator(alloc, names, tokens, depth)?;
    decl_of(alloc, names, tokens, depth, (spec, height), first)
}

/// What a `for` begins with, with its `;`.
#[tactic(auto, unfolding(crate::specs::inner::Readers::for_init))]
pub(crate) fn for_init(
    alloc: Global,
    names: &Names,
    tokens: &mut Cursor<'_>,
    depth: usize,
) -> Result<(ForInit, usize), Failure>
    requires { depth < 2 ^ 31 }
    ensures reads { Reads (reader.for_init names.now (readers names.now depth) (reader.init names.now depth) tokens.old) result tokens.new }
    ensures height { IfOk result (λ f. f.1 ≤ depth) }
{
    if begins_spec(names, tokens) {
        let (decl, height) = decl(alloc, names, tokens, depth)?;
        return Ok((ForInit::Decl(Boxed::new(alloc, decl)?), height));
    }
    let (expr, height) = option_to(alloc, names, tokens, depth, Mark::Semicolon)?;
    Ok((ForInit::Expr(expr), height))
}
