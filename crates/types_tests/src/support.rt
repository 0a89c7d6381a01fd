//! Types, bodies and tables for the tests, made of short texts.

use c_types::{
    FnTy, LayoutRefusal, Member, MemberList, Name, StructDef, StructTable, Ty, copy_type,
};
use shared::Shared;
use sqlite_items::Items;
use std::alloc::{AllocError, Global};
use std::test::Fail;

/// A function of one parameter.
fn function(alloc: Global, gives: &Ty, takes: &Ty) -> Result<Ty, AllocError> {
    let mut params = Items::new(alloc);
    params.push(copy_type(takes)?)?;
    let result = copy_type(gives)?;
    Ok(Ty::Function(Shared::new(alloc, FnTy { result, params })?))
}

/// How many elements the array of a letter has.
fn bound(letter: u8) -> u32 {
    match letter {
        b'h' => 256,
        b'k' => 257,
        b'm' => 65_536,
        b'n' => 65_537,
        _ => u32::from(letter.saturating_sub(b'0')),
    }
}

/// The type that a letter names by itself.
fn innermost(letter: u8) -> Ty {
    match letter {
        b'c' => Ty::Char,
        b'v' => Ty::Void,
        b'A'..=b'D' => Ty::Struct(u32::from(letter - b'A')),
        _ => Ty::Int,
    }
}

/// The type that a letter makes round another: `*` a pointer to it, a digit an array of so many,
/// `h`, `k`, `m` and `n` one of 256, 257, 65,536 and 65,537, `f` a function that gives it, `g` one
/// that takes it. `c` is `char`, `v` is `void`, `A` to `D` are the structs 0 to 3, each other `int`.
fn layer(alloc: Global, letter: u8, inner: Shared<Ty>) -> Result<Ty, AllocError> {
    match letter {
        b'*' => Ok(Ty::Pointer(inner)),
        b'0'..=b'9' | b'h' | b'k' | b'm' | b'n' => Ok(Ty::Array(inner, bound(letter))),
        b'f' => function(alloc, inner.get(), &Ty::Int),
        b'g' => function(alloc, &Ty::Int, inner.get()),
        _ => Ok(innermost(letter)),
    }
}

/// The type of a text, which is read from the outside inwards: `*2i` is a pointer to `int[2]`.
pub(crate) fn ty(alloc: Global, text: &str) -> Result<Shared<Ty>, AllocError> {
    let mut ty = Shared::new(alloc, Ty::Int)?;
    for letter in text.as_bytes().iter().rev() {
        ty = Shared::new(alloc, layer(alloc, *letter, ty)?)?;
    }
    Ok(ty)
}

/// A name of this text.
pub(crate) fn name(alloc: Global, text: &str) -> Result<Name, AllocError> {
    Ok(Name::new(Vec::from_slice(alloc, text.as_bytes())?))
}

/// A member of this name and type.
fn member(alloc: Global, called: &str, text: &str) -> Result<Member, AllocError> {
    let name = name(alloc, called)?;
    let ty = copy_type(ty(alloc, text)?.get())?;
    Ok(Member { name, ty })
}

/// Members of these names and types.
pub(crate) fn members(alloc: Global, texts: &[(&str, &str)]) -> Result<MemberList, AllocError> {
    let mut members = Items::new(alloc);
    for (called, text) in texts {
        members.push(member(alloc, called, text)?)?;
    }
    Ok(members)
}

/// Gives a struct a body that it may have.
pub(crate) fn define(table: &mut StructTable, s: u32, members: MemberList) -> Result<(), Fail> {
    if !table.can_define(s, &members) {
        return Err(Fail::from("no struct may have these members"));
    }
    table.define(s, members)?;
    Ok(())
}

/// `struct a { char c; int a[2]; };`
fn define_first(alloc: Global, table: &mut StructTable) -> Result<(), Fail> {
    define(table, 0, members(alloc, &[("c", "c"), ("a", "2i")])?)
}

/// `struct c { int x[65536]; int y[65536]; char z; struct b *p; };`
fn define_last(alloc: Global, table: &mut StructTable) -> Result<(), Fail> {
    let many = [("x", "mi"), ("y", "mi"), ("z", "c"), ("p", "*B")];
    define(table, 2, members(alloc, &many)?)
}

/// Declares `struct a`, `struct b` and `struct c`, and gives the first and the last their bodies.
fn add_three_structs(alloc: Global, table: &mut StructTable) -> Result<(), Fail> {
    for tag in ["a", "b", "c"] {
        let _s = table.declare(name(alloc, tag)?)?;
    }
    define_first(alloc, table)?;
    define_last(alloc, table)
}

/// A table of the structs `a`, `b` and `c`, of which `b` has no body. They have the numbers 0 to 2.
pub(crate) fn three_structs(alloc: Global) -> Result<StructTable, Fail> {
    let mut table = StructTable::new(alloc);
    add_three_structs(alloc, &mut table)?;
    Ok(table)
}

/// Whether a member exists and this is its offset.
pub(crate) fn offset_is(
    table: &StructTable,
    s: u32,
    member: u32,
    offset: Result<u32, LayoutRefusal>,
) -> bool {
    match table.get(s) {
        Some(
            StructDef {
                members: Some(members),
                ..
            },
        ) => (member as usize) < members.len() && table.offset(s, member) == offset,
        _ => false,
    }
}
