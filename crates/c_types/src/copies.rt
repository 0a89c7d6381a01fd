//! Copies of the parts of a table of structs.

ghost use Rattle.std.specs.Prelude.{◌≡◌, IfOk};

use crate::layout::Layout;
use crate::name::{Name, copy_name};
use crate::structs::{Member, MemberList, StructDef, StructList};
use crate::ty::copy_type;
use sqlite_items::Items;
use std::alloc::{AllocError, Global};
use tables::Table;

/// A copy of names.
pub(crate) fn copy_names(alloc: Global, names: &[Name]) -> Result<Table<Name>, AllocError>
    ensures { IfOk result (λ copy. copy ≡ names.now) }
{
    let mut copy = Table::new(alloc);
    for name in names {
        copy.push(copy_name(alloc, name)?)?;
    }
    Ok(copy)
}

/// A copy of members.
fn copy_members(alloc: Global, members: &[Member]) -> Result<MemberList, AllocError>
    ensures { IfOk result (λ copy. copy ≡ members.now) }
{
    let mut copy = Items::new(alloc);
    for member in members {
        let name = copy_name(alloc, &member.name)?;
        let ty = copy_type(&member.ty)?;
        copy.push(Member { name, ty })?;
    }
    Ok(copy)
}

/// A copy of a struct.
fn copy_def(alloc: Global, def: &StructDef) -> Result<StructDef, AllocError>
    ensures { IfOk result (λ copy. copy ≡ def.now) }
{
    let name = copy_name(alloc, &def.name)?;
    let members = match &def.members {
        Some(members) => Some(copy_members(alloc, members.as_slice())?),
        None => None,
    };
    Ok(StructDef { name, members })
}

/// A copy of structs.
pub(crate) fn copy_defs(alloc: Global, defs: &[StructDef]) -> Result<StructList, AllocError>
    ensures { IfOk result (λ copy. copy ≡ defs.now) }
{
    let mut copy = Items::new(alloc);
    for def in defs {
        copy.push(copy_def(alloc, def)?)?;
    }
    Ok(copy)
}

/// A copy of what is stored of a struct, if it has a body.
fn copy_layout(alloc: Global, layout: &Option<Layout>) -> Result<Option<Layout>, AllocError>
    ensures { IfOk result (λ copy. copy ≡ layout.now) }
{
    match layout {
        Some(layout) => Ok(Some(Layout {
            units: layout.units,
            offsets: Items::from_slice(alloc, layout.offsets.as_slice())?,
            names: copy_names(alloc, layout.names.as_slice())?,
        })),
        None => Ok(None),
    }
}

/// A copy of what is stored of structs.
pub(crate) fn copy_layouts(
    alloc: Global,
    layouts: &[Option<Layout>],
) -> Result<Items<Option<Layout>>, AllocError>
    ensures { IfOk result (λ copy. copy ≡ layouts.now) }
{
    let mut copy = Items::new(alloc);
    for layout in layouts {
        copy.push(copy_layout(alloc, layout)?)?;
    }
    Ok(copy)
}
