//! The lines of global variables.

ghost use Rattle.std.specs.Prelude.{◌+◌, ◌≤◌, ℕ, List, [], ◌∷◌, IfOk, OnOk, drop, length};
ghost use Rattle.c_typed.specs.declared.unit.TypedItem.{TypedItem as Item};
ghost use Rattle.code_report.specs.Names.{declared_names, global_names};
ghost use Rattle.code_report.specs.Report.{GlobalLines};
ghost use Rattle.code_report.specs.inner.Appending.{Adds, GlobalLinesFrom, Passes};

use crate::lines::push_global;
use crate::names::name_of;
use c_typed::{Entity, TypedInitDeclarator, TypedItem};
use core_ir::GlobalVar;
use std::alloc::AllocError;

/// Appends the line of what a declarator declares, where that is a global variable, which is then
/// number `n`, and tells the number of the next one.
fn push_declarator(
    text: &mut Vec<u8>,
    n: usize,
    globals: &[GlobalVar],
    declarator: &TypedInitDeclarator,
) -> Result<usize, AllocError>
    requires { n + length (declared_names (declarator.now ∷ []) []) ≤ length globals.now }
    ensures { IfOk result (λ next. (ds : List (List ℕ)) →
        Passes (GlobalLinesFrom globals.now) n (declared_names (declarator.now ∷ []) ds) next ds
        text.old.items text.new.items) }
{
    let Entity::Global(_) = declarator.entity else {
        return Ok(n);
    };
    let name = name_of(&declarator.declared.declarator);
    push_global(text, name.bytes(), &globals[n])?;
    Ok(n + 1)
}

/// The same of declarators, in order.
fn push_declared(
    text: &mut Vec<u8>,
    n: usize,
    globals: &[GlobalVar],
    declarators: &[TypedInitDeclarator],
) -> Result<usize, AllocError>
    requires { n + length (declared_names declarators.now []) ≤ length globals.now }
    ensures { IfOk result (λ next. (ds : List (List ℕ)) →
        Passes (GlobalLinesFrom globals.now) n (declared_names declarators.now ds) next ds
        text.old.items text.new.items) }
{
    let mut next = n;
    for declarator in declarators {
        next = push_declarator(text, next, globals, declarator)?;
    }
    Ok(next)
}

/// The same of what an item declares.
fn push_item(
    text: &mut Vec<u8>,
    n: usize,
    globals: &[GlobalVar],
    item: &TypedItem,
) -> Result<usize, AllocError>
    requires { n + length (global_names (item.now ∷ [])) ≤ length globals.now }
    ensures { IfOk result (λ next. (is : List Item) →
        Passes (GlobalLinesFrom globals.now) n (global_names (item.now ∷ is)) next (global_names is)
        text.old.items text.new.items) }
{
    match item {
        TypedItem::Decl(decl) => push_declared(text, n, globals, decl.declarators.as_slice()),
        TypedItem::Typedef(_, _) => Ok(n),
        TypedItem::Function(_) => Ok(n),
    }
}

/// Appends the line of each global variable that the items declare.
pub(crate) fn push_globals(
    text: &mut Vec<u8>,
    globals: &[GlobalVar],
    items: &[TypedItem],
) -> Result<(), AllocError>
    requires { length (global_names items.now) ≤ length globals.now }
    ensures { OnOk result (Adds (GlobalLines (global_names items.now) globals.now)
        text.old.items text.new.items) }
{
    let mut next = 0;
    for item in items {
        next = push_item(text, next, globals, item)?;
    }
    Ok(())
}
