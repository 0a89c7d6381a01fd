//! Whole sources.

ghost use Rattle.std.specs.Prelude.{◌≡◌, ◌<◌, ◌^◌, List, length};
ghost use Rattle.c_scope.specs.Numbers.{number_of};
ghost use Rattle.c_typing.specs.Checks.{Checks};
ghost use Rattle.c_typing.specs.declared.error.CheckRefusal.TheVariants as refusal;
ghost use Rattle.c_typing.specs.Sources as spec;
ghost use Rattle.c_typing.specs.Sources.{typed_source};
ghost use Rattle.c_typing.specs.inner.Ends.{ended, with_items};
ghost use Rattle.c_typed.specs.declared.unit.TypedItem.{TypedItem as Item};

use crate::error::CheckRefusal;
use crate::items::items;
use c_scope::{Rule, World, is_main, undefined_use};
use c_tree::Unit;
use c_typed::{Typed, TypedItem};
use sqlite_items::Items;
use std::alloc::Global;

/// The typed form of a source, exactly where it breaks no rule.
///
/// # Errors
///
/// `Rule`, exactly where it breaks one: the first that is broken, and its item. `Memory` can come
/// in place of every other answer.
#[tactic(auto, unfolding(crate::specs::Sources::typed_source))]
pub fn check(alloc: Global, unit: &Unit) -> Result<Typed, CheckRefusal>
    requires { length unit.now.items < 2 ^ 31 }
    ensures { Checks (typed_source unit.now) result }
{
    let mut world = World::new(alloc)?;
    let count = unit.items.len() as u32;
    let items = items(alloc, &mut world, unit.items.as_slice())?;
    finished(count, items, world)
}

/// What is refused behind the last item, whatever the items are.
fn refused_at_end(count: u32, world: &World) -> Option<CheckRefusal>
    ensures { (is : List Item) → let typed = with_items is world.now
        in Checks (spec.finished count is world.now) (ended typed result) }
{
    if let Some(first) = undefined_use(world.functions.as_slice()) {
        return Some(broken(first, Rule::Undefined));
    }
    if !is_main(world.functions.find_item(b"main".as_slice())) {
        return Some(broken(count, Rule::NoMain));
    }
    None
}

/// The typed form, unless something is refused behind the last item.
fn finished(count: u32, items: Items<TypedItem>, world: World) -> Result<Typed, CheckRefusal>
    ensures { Checks (spec.finished count items world) result }
{
    if let Some(refusal) = refused_at_end(count, &world) {
        return Err(refusal);
    }
    let World {
        item: _,
        structs,
        functions: _,
        scopes: _,
        globals: _,
        strings,
        locals: _,
    } = world;
    Ok(Typed {
        items,
        structs,
        strings,
    })
}

/// A rule that is broken, and its item.
fn broken(item: u32, rule: Rule) -> CheckRefusal
    ensures { result ≡ refusal.Rule item (number_of rule) }
{
    CheckRefusal::Rule {
        item,
        rule: rule.number(),
    }
}
