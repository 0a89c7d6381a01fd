//! The walk of items.

ghost use Rattle.std.specs.Prelude.{◌≡◌, ◌≤◌, ◌+◌, ◌^◌, length};
ghost use Rattle.c_scope.specs.Walks.{Walks};
ghost use Rattle.c_typing.specs.Checks.{ChecksPart};
ghost use Rattle.c_typing.specs.inner.Refusals.{refused};
ghost use Rattle.c_typing.specs.Sources as spec;

use crate::error::CheckRefusal;
use crate::functions::function;
use c_declaration_typing::{declaration, type_declarators};
use c_expr_typing::spec;
use c_scope::{Failure, World};
use c_tree::{Block, Declarator, Item, Spec};
use c_typed::TypedItem;
use sqlite_items::Items;
use std::alloc::Global;

/// Names of types.
fn typedef_item(
    alloc: Global,
    world: &mut World,
    base: &Spec,
    all: &[Declarator],
) -> Result<TypedItem, Failure>
    ensures { Walks (spec.typedef_item base.now all.now world.old) result world.new }
{
    let base = spec(alloc, world, base, true)?;
    let declared = type_declarators(alloc, world, &base.get().1, all)?;
    let (spec, _) = base.into_inner();
    Ok(TypedItem::Typedef(spec, declared))
}

/// The definition of a function.
fn function_item(
    alloc: Global,
    world: &mut World,
    base: &Spec,
    declarator: &Declarator,
    inside: &Block,
) -> Result<TypedItem, Failure>
    ensures { Walks (spec.function_item base.now declarator.now inside.now world.old)
        result world.new }
{
    let base = spec(alloc, world, base, true)?;
    let function = function(alloc, world, base, declarator, inside)?;
    Ok(TypedItem::Function(function))
}

/// The typed form of an item.
#[tactic(auto, unfolding(crate::specs::Sources::typed_item))]
fn item(alloc: Global, world: &mut World, item: &Item) -> Result<TypedItem, Failure>
    ensures { Walks (spec.typed_item item.now world.old) result world.new }
{
    match item {
        Item::Decl(decl) => Ok(TypedItem::Decl(declaration(alloc, world, true, decl)?)),
        Item::Typedef(base, all) => typedef_item(alloc, world, base, all.as_slice()),
        Item::Function(base, declarator, inside) => {
            function_item(alloc, world, base, declarator, inside)
        }
    }
}

/// What is answered where a walk of this item ends.
fn refused(number: u32, failure: Failure) -> CheckRefusal
    ensures { result ≡ refused number failure }
{
    match failure {
        Failure::Broken(rule) => CheckRefusal::Rule {
            item: number,
            rule: rule.number(),
        },
        Failure::Memory => CheckRefusal::Memory,
    }
}

/// The item of this number.
fn numbered_item(
    alloc: Global,
    world: &mut World,
    number: u32,
    inside: &Item,
) -> Result<TypedItem, CheckRefusal>
    ensures { ChecksPart (spec.numbered_item number inside.now world.old) result world.new }
{
    world.item = number;
    match item(alloc, world, inside) {
        Ok(typed) => Ok(typed),
        Err(failure) => Err(refused(number, failure)),
    }
}

/// The typed forms of items, of which the first is item 0.
///
/// # Errors
///
/// `Rule`, at the first rule that is broken. `Memory`, where no memory is left.
#[tactic(auto, using(crate::proofs::ItemLists::item_lists))]
pub(crate) fn items(
    alloc: Global,
    world: &mut World,
    all: &[Item],
) -> Result<Items<TypedItem>, CheckRefusal>
    requires { length all.now ≤ 2 ^ 31 }
    ensures { ChecksPart (spec.typed_items 0 all.now world.old) result world.new }
{
    let mut found = Items::new(alloc);
    for (i, one) in all.iter().enumerate() {
        found.push(numbered_item(alloc, world, i as u32, one)?)?;
    }
    Ok(found)
}
