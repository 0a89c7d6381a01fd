//! What is stored of a struct's body: its units, the offsets of its members, and their names.

ghost use Rattle.std.specs.Prelude.{◌≡◌, ◌+◌, ◌*◌, [], IfOk};
ghost use Rattle.std.specs.Option.{option_copied};
ghost use Rattle.c_types.specs.inner.Layouts as spec;

use crate::name::{Name, copy_name};
use crate::structs::Member;
use crate::ty::Ty;
use sqlite_items::Items;
use std::alloc::{AllocError, Global};
use tables::Table;

/// Stands for all numbers of units that are larger than a type may have.
const TOO_MANY: u64 = 65_537;

/// What is stored of a struct's body.
#[derive(Debug, Drop)]
pub(crate) struct Layout {
    /// The sum of its members' units, or 65,537 where it is more.
    pub(crate) units: u64,
    /// The sum of the units before each member, likewise.
    pub(crate) offsets: Items<u64>,
    /// The names of its members.
    pub(crate) names: Table<Name>,
}

/// A sum of units.
fn capped_sum(a: u64, b: u64) -> u64
    ensures { result ≡ spec.capped (a + b) }
{
    a.saturating_add(b).min(TOO_MANY)
}

/// A product of units.
fn capped_product(units: u64, bound: u32) -> u64
    ensures { result ≡ spec.capped (units * bound) }
{
    units.saturating_mul(u64::from(bound)).min(TOO_MANY)
}

/// What is stored of this struct, if it has a body.
pub(crate) fn layout_at(layouts: &[Option<Layout>], s: u32) -> Option<&Layout>
    ensures { option_copied result ≡ spec.layout_at layouts.now s }
{
    layouts.get(s as usize)?.as_ref()
}

/// The units of a type up to 65,537, and none where it is incomplete. A struct's are looked up.
#[tactic(auto, unfolding(crate::specs::inner::Layouts::kept))]
pub(crate) fn capped_units(layouts: &[Option<Layout>], ty: &Ty) -> Option<u64>
    ensures { result ≡ spec.kept (spec.stored_units layouts.now) ty.now }
{
    match ty {
        Ty::Int | Ty::Char | Ty::Pointer(_) => Some(1),
        Ty::Void | Ty::Function(_) => None,
        Ty::Struct(s) => Some(layout_at(layouts, *s)?.units),
        Ty::Array(element, bound) => {
            Some(capped_product(capped_units(layouts, element.get())?, *bound))
        }
    }
}

/// The layout of a body with these members, over what is stored of the structs.
#[tactic(auto, unfolding(crate::specs::inner::Layouts::kept_or_none))]
pub(crate) fn layout_of(
    alloc: Global,
    layouts: &[Option<Layout>],
    members: &[Member],
) -> Result<Layout, AllocError>
    ensures { IfOk result
        (λ layout. layout ≡ spec.layout_from (spec.kept_or_none layouts.now) 0 [] [] members.now) }
{
    let mut units = 0;
    let mut offsets = Items::new(alloc);
    let mut names = Table::new(alloc);
    for member in members {
        offsets.push(units)?;
        names.push(copy_name(alloc, &member.name)?)?;
        units = capped_sum(units, capped_units(layouts, &member.ty).unwrap_or(0));
    }
    Ok(Layout {
        units,
        offsets,
        names,
    })
}
