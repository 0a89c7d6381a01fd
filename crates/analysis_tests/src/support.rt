//! Types and tables of structs, made of short texts.

use c_types::{FnTy, Member, MemberList, Name, StructTable, Ty};
use shared::Shared;
use sqlite_items::Items;
use std::alloc::{AllocError, Global};
use std::test::Fail;

/// A function without parameters.
fn function(alloc: Global, gives: Ty) -> Result<Ty, AllocError> {
    let params = Items::new(alloc);
    Ok(Ty::Function(Shared::new(
        alloc,
        FnTy {
            result: gives,
            params,
        },
    )?))
}

/// The type that a letter makes round another: `*` a pointer to it, a digit an array of so many, `f` a
/// function that gives it. `c` is `char`, `v` is `void`, `A` to `D` are the structs 0 to 3, each other
/// `int`.
fn layer(alloc: Global, letter: u8, inner: Ty) -> Result<Ty, AllocError> {
    match letter {
        b'c' => Ok(Ty::Char),
        b'v' => Ok(Ty::Void),
        b'A'..=b'D' => Ok(Ty::Struct(u32::from(letter - b'A'))),
        b'*' => Ok(Ty::Pointer(Shared::new(alloc, inner)?)),
        b'0'..=b'9' => Ok(Ty::Array(Shared::new(alloc, inner)?, u32::from(letter - b'0'))),
        b'f' => function(alloc, inner),
        _ => Ok(Ty::Int),
    }
}

/// The type of a text, which is read from the outside inwards: `*2i` is a pointer to `int[2]`.
pub(crate) fn ty(alloc: Global, text: &str) -> Result<Ty, AllocError> {
    let mut ty = Ty::Int;
    for letter in text.as_bytes().iter().rev() {
        ty = layer(alloc, *letter, ty)?;
    }
    Ok(ty)
}

/// A name of this text.
fn name(alloc: Global, text: &str) -> Result<Name, AllocError> {
    Ok(Name::new(Vec::from_slice(alloc, text.as_bytes())?))
}

/// Gives a struct two members of these types.
fn define(
    table: &mut StructTable,
    alloc: Global,
    s: u32,
    first: Ty,
    second: Ty,
) -> Result<(), Fail> {
    let mut members: MemberList = Items::new(alloc);
    members.push(Member {
        name: name(alloc, "a")?,
        ty: first,
    })?;
    members.push(Member {
        name: name(alloc, "b")?,
        ty: second,
    })?;
    if !table.can_define(s, &members) {
        return Err(Fail::from("no struct may have these members"));
    }
    table.define(s, members)?;
    Ok(())
}

/// `struct a { struct a *a; int b; };`, `struct b { struct b *a; char *b; };`, `struct c;` and
/// `struct d { struct a *a; struct c *b[2]; };`.
pub(crate) fn four_structs(alloc: Global) -> Result<StructTable, Fail> {
    let mut table = StructTable::new(alloc);
    for tag in ["a", "b", "c", "d"] {
        let _s = table.declare(name(alloc, tag)?)?;
    }
    define(&mut table, alloc, 0, ty(alloc, "*A")?, Ty::Int)?;
    define(&mut table, alloc, 1, ty(alloc, "*B")?, ty(alloc, "*c")?)?;
    define(&mut table, alloc, 3, ty(alloc, "*A")?, ty(alloc, "2*C")?)?;
    Ok(table)
}

/// So many structs, each of which points to the one that is so many behind it, if there is one. Struct
/// `last` has a member of this type beside.
pub(crate) fn chain(
    alloc: Global,
    count: u32,
    forward: bool,
    last: &str,
) -> Result<StructTable, Fail> {
    let mut table = StructTable::new(alloc);
    for _ in 0..count {
        let _s = table.declare(name(alloc, "s")?)?;
    }
    for s in 0..count {
        let next = if forward {
            s.saturating_add(1)
        } else {
            s.saturating_sub(1)
        };
        let is_last = if forward { next >= count } else { s == 0 };
        if is_last {
            define(&mut table, alloc, s, ty(alloc, last)?, Ty::Int)?;
        } else {
            let pointer = Ty::Pointer(Shared::new(alloc, Ty::Struct(next))?);
            define(&mut table, alloc, s, pointer, Ty::Int)?;
        }
    }
    Ok(table)
}
