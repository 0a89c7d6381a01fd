//! Global variables and strings, and where they lie.

ghost use Rattle.std.specs.Prelude.{◌≡◌, ◌≤◌, [], ◌∷◌, IfOk, length, map};
ghost use Rattle.core_ir.specs.Layout.{first_address};
ghost use Rattle.elab_pieces.specs.Globals as spec;
ghost use Rattle.elab.specs.inner.Programs.{LayoutOutcome, LaysOut, last_address};

use crate::error::ElabRefusal;
use crate::limits::limit;
use c_typed::{Entity, Typed, TypedInitDeclarator, TypedItem};
use c_types::{Ty, copy_type};
use core_ir::{GlobalList, GlobalVar};
use elab_emit::units;
use elab_pieces::LimitName;
use elab_rows::Scope;
use shared::Shared;
use sqlite_items::Items;
use std::alloc::{AllocError, Global};

/// Where the first global lies.
const FIRST_ADDRESS: u32 = 128;
/// The end of the last one, at most: globals and strings have at most 65,536 units.
const LAST_ADDRESS: u32 = 65_664;

/// Global variables so far, and the address behind them.
#[derive(Drop)]
struct Layout {
    globals: GlobalList,
    end: u32,
}

/// No global, before the first address.
fn no_layout(alloc: Global) -> Layout
    ensures globals { result.globals ≡ [] }
    ensures end { result.end ≡ first_address }
{
    Layout {
        globals: Items::new(alloc),
        end: FIRST_ADDRESS,
    }
}

/// How many of these declarators are global variables.
fn count_declared(declarators: &[TypedInitDeclarator]) -> usize
    ensures { result ≡ length (spec.declared_globals declarators.now []) }
{
    let mut count = 0;
    for declarator in declarators {
        if let Entity::Global(_) = declarator.entity {
            count += 1;
        }
    }
    count
}

/// How many global variables an item declares.
///
/// # Errors
///
/// `AllocError`, where that is above 32 bits.
fn count_item(item: &TypedItem) -> Result<u32, AllocError>
    ensures { IfOk result (λ n. n ≡ length (spec.globals (item.now ∷ []))) }
{
    match item {
        TypedItem::Decl(decl) => number(count_declared(decl.declarators.as_slice())),
        TypedItem::Typedef(_, _) => Ok(0),
        TypedItem::Function(_) => Ok(0),
    }
}

/// A count as a number of 32 bits.
///
/// # Errors
///
/// `AllocError`, where it is above these.
fn number(count: usize) -> Result<u32, AllocError>
    ensures { IfOk result (λ n. n ≡ count) }
{
    if count > u32::MAX as usize {
        return Err(AllocError);
    }
    Ok(count as u32)
}

/// How many global variables a source has.
///
/// # Errors
///
/// `AllocError`, where that is above 32 bits.
pub(crate) fn count_globals(items: &[TypedItem]) -> Result<u32, AllocError>
    ensures { IfOk result (λ n. n ≡ length (spec.globals items.now)) }
{
    let mut count: u32 = 0;
    for item in items {
        let more = count_item(item)?;
        let Some(sum) = count.checked_add(more) else {
            return Err(AllocError);
        };
        count = sum;
    }
    Ok(count)
}

/// The type of a string's object.
///
/// # Errors
///
/// `AllocError`, where no memory is left, or its length is above 32 bits.
pub(crate) fn string_type(alloc: Global, bytes: &[u8]) -> Result<Ty, AllocError>
    ensures { IfOk result (λ t. t ≡ spec.string_type bytes.now) }
{
    if bytes.len() >= u32::MAX as usize {
        return Err(AllocError);
    }
    let element = Shared::new(alloc, Ty::Char)?;
    Ok(Ty::Array(element, bytes.len() as u32 + 1))
}

/// A variable behind the others.
///
/// # Errors
///
/// The limit, exactly where memory lasts and it ends behind the last address.
fn lay_out(scope: &Scope, layout: &mut Layout, ty: Ty) -> Result<(), ElabRefusal>
    ensures { LaysOut scope.now.structs (ty ∷ []) layout.old result layout.new }
{
    let units = units(scope, &ty)?;
    let address = layout.end;
    let Some(end) = address.checked_add(units) else {
        return Err(ElabRefusal::Memory);
    };
    if end > LAST_ADDRESS {
        return Err(limit(LimitName::Globals));
    }
    layout.globals.push(GlobalVar { ty, address, units })?;
    layout.end = end;
    Ok(())
}

/// A declared name, if it is a global variable.
fn lay_out_one(
    scope: &Scope,
    layout: &mut Layout,
    declarator: &TypedInitDeclarator,
) -> Result<(), ElabRefusal>
    requires { layout.old.end ≤ last_address }
    ensures { LaysOut scope.now.structs (map (λ g. g.ty) (spec.declared_globals (declarator.now ∷ []) [])) layout.old result layout.new }
{
    let Entity::Global(_) = declarator.entity else {
        return Ok(());
    };
    let ty = copy_type(&declarator.declared.ty)?;
    lay_out(scope, layout, ty)
}

/// The global variables among these declarators.
fn lay_out_declared(
    scope: &Scope,
    layout: &mut Layout,
    declarators: &[TypedInitDeclarator],
) -> Result<(), ElabRefusal>
    requires { layout.old.end ≤ last_address }
    ensures { LaysOut scope.now.structs (map (λ g. g.ty) (spec.declared_globals declarators.now [])) layout.old result layout.new }
{
    for declarator in declarators {
        lay_out_one(scope, layout, declarator)?;
    }
    Ok(())
}

/// The global variables that an item declares.
fn lay_out_item(scope: &Scope, layout: &mut Layout, item: &TypedItem) -> Result<(), ElabRefusal>
    requires { layout.old.end ≤ last_address }
    ensures { LaysOut scope.now.structs (map (λ g. g.ty) (spec.globals (item.now ∷ []))) layout.old result layout.new }
{
    match item {
        TypedItem::Decl(decl) => lay_out_declared(scope, layout, decl.declarators.as_slice()),
        TypedItem::Typedef(_, _) => Ok(()),
        TypedItem::Function(_) => Ok(()),
    }
}

/// The global variables of a source.
fn lay_out_items(scope: &Scope, layout: &mut Layout, items: &[TypedItem]) -> Result<(), ElabRefusal>
    requires { layout.old.end ≤ last_address }
    ensures { LaysOut scope.now.structs (map (λ g. g.ty) (spec.globals items.now)) layout.old result layout.new }
{
    for item in items {
        lay_out_item(scope, layout, item)?;
    }
    Ok(())
}

/// The strings of a source.
#[tactic(auto, using(crate::proofs::Layouts::layouts))]
fn lay_out_strings(
    alloc: Global,
    scope: &Scope,
    layout: &mut Layout,
    strings: &[Items<u8>],
) -> Result<(), ElabRefusal>
    requires { layout.old.end ≤ last_address }
    ensures { LaysOut scope.now.structs (map spec.string_type strings.now) layout.old result layout.new }
{
    for bytes in strings {
        let ty = string_type(alloc, bytes.as_slice())?;
        lay_out(scope, layout, ty)?;
    }
    Ok(())
}

/// Global variables, and strings behind them.
///
/// # Errors
///
/// The limit, exactly where memory lasts and they have more than 65,536 units.
pub(crate) fn global_list(
    alloc: Global,
    scope: &Scope,
    typed: &Typed,
) -> Result<GlobalList, ElabRefusal>
    requires { scope.now.structs ≡ typed.now.structs }
    ensures { LayoutOutcome (spec.global_list typed.now) result }
{
    let mut layout = no_layout(alloc);
    lay_out_items(scope, &mut layout, typed.items.as_slice())?;
    lay_out_strings(alloc, scope, &mut layout, typed.strings.as_slice())?;
    Ok(layout.globals)
}
