//! The texts of declarations, statements and items.

#![tactic(auto, using(crate::proofs::AppendedLemmas::writing_statements), unfolding(crate::specs::PrintedStatements::printed_init_declarator, crate::specs::PrintedStatements::printed_decl, crate::specs::PrintedStatements::printed_source))]

ghost use Rattle.std.specs.Prelude.{◌≡◌, ◌++◌, ◌∷◌, [], map, OnOk, IfOk};
ghost use Rattle.c_tokens.specs.declared.token.Kind.{Kind};
ghost use Rattle.c_tokens.specs.declared.token.Keyword.{Keyword};
ghost use Rattle.c_tokens.specs.declared.token.Mark.{Mark};
ghost use Rattle.c_tree.specs.Printed.{with_commas};
ghost use Rattle.c_tree.specs.PrintedStatements.{printed_init, printed_init_declarator, printed_decl, printed_option};
ghost use Rattle.c_tree.specs.PrintedStatements.{condition_kinds, printed_for_init, for_kinds, printed_for_loop};
ghost use Rattle.c_tree.specs.PrintedStatements.{printed_stmt, printed_block, printed_block_item, printed_item};
ghost use Rattle.c_tree.specs.PrintedStatements.{printed_source};
ghost use Rattle.c_tree.specs.RoundTrip.{PrintsBack};
ghost use Rattle.c_tree.specs.Written.{written};
ghost use Rattle.c_tree.specs.inner.Appended.{Appends};

use super::expression::{push_declarator, push_declarators, push_expr, push_spec};
use super::token::{push_mark, push_separator, push_word};
use crate::statement::{
    Block, BlockItem, Decl, ForInit, ForLoop, FullExpr, Init, InitDeclarator, Item, Stmt, Unit,
};
use c_tokens::{Keyword, Mark, spaced_text_lexes};
use std::alloc::{AllocError, Global};

/// A source's text: where the source is some text's tree, it is the tree of this one too.
pub fn print_unit(alloc: Global, unit: &Unit) -> Result<Vec<u8>, AllocError>
    ensures is { IfOk result (λ text. text.items ≡ written (printed_source unit.now)) }
    ensures reads_back { IfOk result (λ text. PrintsBack unit.now text.items) }
{
    spaced_text_lexes();
    let mut out = Vec::new(alloc);
    for item in unit.items.as_slice() {
        push_item(&mut out, item)?;
    }
    Ok(out)
}

/// Appends an item.
fn push_item(out: &mut Vec<u8>, item: &Item) -> Result<(), AllocError>
    ensures { OnOk result (Appends out.old.items (printed_item item.now) out.new.items) }
{
    match item {
        Item::Decl(decl) => push_decl(out, decl),
        Item::Typedef(spec, declarators) => {
            push_word(out, Keyword::Typedef)?;
            push_spec(out, spec)?;
            push_declarators(out, declarators.as_slice())?;
            push_mark(out, Mark::Semicolon)
        }
        Item::Function(spec, declarator, block) => {
            push_spec(out, spec)?;
            push_declarator(out, declarator)?;
            push_block(out, block)
        }
    }
}

/// Appends a declaration.
fn push_decl(out: &mut Vec<u8>, decl: &Decl) -> Result<(), AllocError>
    ensures { OnOk result (Appends out.old.items (printed_decl decl.now) out.new.items) }
{
    push_spec(out, &decl.spec)?;
    push_init_declarators(out, decl.declarators.as_slice())?;
    push_mark(out, Mark::Semicolon)
}

/// Appends declarators and their initialisers with commas between.
fn push_init_declarators(
    out: &mut Vec<u8>,
    declarators: &[InitDeclarator],
) -> Result<(), AllocError>
    ensures { OnOk result (Appends out.old.items
        (with_commas (map printed_init_declarator declarators.now)) out.new.items) }
{
    for (i, declarator) in declarators.iter().enumerate() {
        push_separator(out, i)?;
        push_init_declarator(out, declarator)?;
    }
    Ok(())
}

/// Appends a declarator and its initialiser, if it has one.
fn push_init_declarator(out: &mut Vec<u8>, declarator: &InitDeclarator) -> Result<(), AllocError>
    ensures { OnOk result (Appends out.old.items
        (printed_init_declarator declarator.now) out.new.items) }
{
    push_declarator(out, &declarator.declarator)?;
    if let Some(init) = &declarator.init {
        push_mark(out, Mark::Assign)?;
        push_init(out, init)?;
    }
    Ok(())
}

/// Appends an initialiser.
#[cycle(initialiser)]
fn push_init(out: &mut Vec<u8>, init: &Init) -> Result<(), AllocError>
    ensures { OnOk result (Appends out.old.items (printed_init init.now) out.new.items) }
{
    match init {
        Init::Expr(expr) => push_expr(out, expr),
        Init::Braces(parts) => {
            push_mark(out, Mark::LeftBrace)?;
            push_inits(out, parts.as_slice())?;
            push_mark(out, Mark::RightBrace)
        }
    }
}

/// Appends initialisers with commas between.
#[cycle(initialiser)]
fn push_inits(out: &mut Vec<u8>, inits: &[Init]) -> Result<(), AllocError>
    ensures { OnOk result (Appends out.old.items
        (with_commas (map printed_init inits.now)) out.new.items) }
{
    for (i, init) in inits.iter().enumerate() {
        push_separator(out, i)?;
        push_init(out, init)?;
    }
    Ok(())
}

/// Appends an expression, if there is one, and a `;`.
fn push_ended(out: &mut Vec<u8>, expr: &Option<FullExpr>) -> Result<(), AllocError>
    ensures { OnOk result (Appends out.old.items
        (printed_option expr.now ++ Kind.Mark Mark.Semicolon ∷ []) out.new.items) }
{
    push_option(out, expr)?;
    push_mark(out, Mark::Semicolon)
}

/// Appends an expression, if there is one.
fn push_option(out: &mut Vec<u8>, expr: &Option<FullExpr>) -> Result<(), AllocError>
    ensures { OnOk result (Appends out.old.items (printed_option expr.now) out.new.items) }
{
    match expr {
        Some(full) => push_expr(out, full.expr.get()),
        None => Ok(()),
    }
}

/// Appends a keyword and a condition in parentheses.
fn push_condition(out: &mut Vec<u8>, word: Keyword, condition: &FullExpr) -> Result<(), AllocError>
    ensures { OnOk result (Appends out.old.items
        (Kind.Word word ∷ condition_kinds condition.now) out.new.items) }
{
    push_word(out, word)?;
    push_mark(out, Mark::LeftParenthesis)?;
    push_expr(out, condition.expr.get())?;
    push_mark(out, Mark::RightParenthesis)
}

/// Appends what a `for` begins with, with its `;`.
fn push_for_init(out: &mut Vec<u8>, init: &ForInit) -> Result<(), AllocError>
    ensures { OnOk result (Appends out.old.items (printed_for_init init.now) out.new.items) }
{
    match init {
        ForInit::Decl(decl) => push_decl(out, decl.get()),
        ForInit::Expr(expr) => push_ended(out, expr),
    }
}

/// Appends what stands in front of the statement of a `for`.
fn push_for_head(
    out: &mut Vec<u8>,
    init: &ForInit,
    condition: &Option<FullExpr>,
    step: &Option<FullExpr>,
) -> Result<(), AllocError>
    ensures { OnOk result (Appends out.old.items
        (for_kinds init.now condition.now step.now) out.new.items) }
{
    push_word(out, Keyword::For)?;
    push_mark(out, Mark::LeftParenthesis)?;
    push_for_init(out, init)?;
    push_option(out, condition)?;
    push_mark(out, Mark::Semicolon)?;
    push_option(out, step)?;
    push_mark(out, Mark::RightParenthesis)
}

/// Appends a `for` with its statement.
#[cycle(statement)]
fn push_for_loop(out: &mut Vec<u8>, for_loop: &ForLoop) -> Result<(), AllocError>
    ensures { OnOk result (Appends out.old.items (printed_for_loop for_loop.now) out.new.items) }
{
    push_for_head(out, &for_loop.init, &for_loop.condition, &for_loop.step)?;
    push_stmt(out, &for_loop.body)
}

/// Appends a statement.
#[cycle(statement)]
fn push_stmt(out: &mut Vec<u8>, stmt: &Stmt) -> Result<(), AllocError>
    ensures { OnOk result (Appends out.old.items (printed_stmt stmt.now) out.new.items) }
{
    match stmt {
        Stmt::Block(block) => push_block(out, block),
        Stmt::If {
            condition,
            then_branch,
            else_branch,
        } => {
            push_condition(out, Keyword::If, condition)?;
            push_stmt(out, then_branch.get())?;
            if let Some(else_branch) = else_branch {
                push_word(out, Keyword::Else)?;
                push_stmt(out, else_branch.get())?;
            }
            Ok(())
        }
        Stmt::While(condition, body) => {
            push_condition(out, Keyword::While, condition)?;
            push_stmt(out, body.get())
        }
        Stmt::Do(body, condition) => {
            push_word(out, Keyword::Do)?;
            push_stmt(out, body.get())?;
            push_condition(out, Keyword::While, condition)?;
            push_mark(out, Mark::Semicolon)
        }
        Stmt::For(for_loop) => push_for_loop(out, for_loop.get()),
        Stmt::Break => {
            push_word(out, Keyword::Break)?;
            push_mark(out, Mark::Semicolon)
        }
        Stmt::Continue => {
            push_word(out, Keyword::Continue)?;
            push_mark(out, Mark::Semicolon)
        }
        Stmt::Return(value) => {
            push_word(out, Keyword::Return)?;
            push_ended(out, value)
        }
        Stmt::Expr(expr) => push_ended(out, expr),
    }
}

/// Appends the items of a block in braces.
#[cycle(statement)]
fn push_block(out: &mut Vec<u8>, block: &Block) -> Result<(), AllocError>
    ensures { OnOk result (Appends out.old.items (printed_block block.now) out.new.items) }
{
    push_mark(out, Mark::LeftBrace)?;
    for item in block.items.as_slice() {
        push_block_item(out, item)?;
    }
    push_mark(out, Mark::RightBrace)
}

/// Appends a declaration or a statement of a block.
#[cycle(statement)]
fn push_block_item(out: &mut Vec<u8>, item: &BlockItem) -> Result<(), AllocError>
    ensures { OnOk result (Appends out.old.items (printed_block_item item.now) out.new.items) }
{
    match item {
        BlockItem::Decl(decl) => push_decl(out, decl.get()),
        BlockItem::Stmt(stmt) => push_stmt(out, stmt),
    }
}
