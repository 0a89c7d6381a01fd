//! Kinds of types, what they decay to, their parts, their sameness and copies.

use crate::support::ty;
use c_types::{
    Ty, copy_type, decay, function_of, is_function, is_integer, is_scalar, is_void, parts, same,
    same_functions,
};
use shared::Shared;
use std::alloc::{AllocError, Global};
use std::test::Fail;

/// Texts of types that are all different, with the letters of their kinds: integer, void, pointer,
/// function, or neither.
const TYPES: [(&str, u8); 16] = [
    ("i", b'i'),
    ("c", b'i'),
    ("v", b'v'),
    ("A", b'-'),
    ("B", b'-'),
    ("*i", b'p'),
    ("*v", b'p'),
    ("**i", b'p'),
    ("2i", b'-'),
    ("3i", b'-'),
    ("2c", b'-'),
    ("*2i", b'p'),
    ("fi", b'f'),
    ("fv", b'f'),
    ("gc", b'f'),
    ("3*g*f*v", b'-'),
];

/// Whether two types are the same.
fn are_same(alloc: Global, text: &str, other: &str) -> Result<bool, AllocError> {
    let a = ty(alloc, text)?;
    let b = ty(alloc, other)?;
    Ok(same(a.get(), b.get()))
}

/// Whether the type of this text is the same as those of equal texts alone.
fn is_itself_alone(alloc: Global, text: &str) -> Result<bool, AllocError> {
    for (other, _) in &TYPES {
        if are_same(alloc, text, other)? != (*other == text) {
            return Ok(false);
        }
    }
    Ok(true)
}

#[test]
fn types_are_the_same_as_themselves_alone(rt: HostRuntime) -> Result<(), Fail> {
    for (text, _) in &TYPES {
        assert!(rt; is_itself_alone(rt.alloc(), text)?);
    }
    Ok(())
}

/// Whether a type is the same as its copy.
fn is_its_copy(alloc: Global, text: &str) -> Result<bool, AllocError> {
    let ty = ty(alloc, text)?;
    let copy = Shared::new(alloc, copy_type(ty.get())?)?;
    Ok(same(ty.get(), copy.get()))
}

#[test]
fn types_are_the_same_as_their_copies(rt: HostRuntime) -> Result<(), Fail> {
    for (text, _) in &TYPES {
        assert!(rt; is_its_copy(rt.alloc(), text)?);
    }
    Ok(())
}

/// Whether both are functions, and the same, or not.
fn are_functions(a: &Ty, b: &Ty, alike: bool) -> bool {
    match (function_of(a), function_of(b)) {
        (Some(f), Some(g)) => same_functions(f, g) == alike,
        _ => false,
    }
}

/// Whether functions of equal types are the same, and those of others aren't.
fn functions_are_told_apart(alloc: Global) -> Result<bool, AllocError> {
    let gives = ty(alloc, "fc")?;
    let takes = ty(alloc, "gc")?;
    Ok(
        are_functions(gives.get(), gives.get(), true)
            && are_functions(gives.get(), takes.get(), false),
    )
}

#[test]
fn types_of_functions_are_compared_too(rt: HostRuntime) -> Result<(), Fail> {
    assert!(rt; functions_are_told_apart(rt.alloc())?);
    Ok(())
}

/// Whether a type is just of the kind of this letter.
fn is_of_kind(ty: &Ty, letter: u8) -> bool {
    is_integer(ty) == (letter == b'i')
        && is_scalar(ty) == (letter == b'i' || letter == b'p')
        && is_void(ty) == (letter == b'v')
        && is_function(ty) == (letter == b'f')
}

/// The same, of a text.
fn has_kind(alloc: Global, text: &str, letter: u8) -> Result<bool, AllocError> {
    Ok(is_of_kind(ty(alloc, text)?.get(), letter))
}

#[test]
fn kinds_of_types(rt: HostRuntime) -> Result<(), Fail> {
    for (text, letter) in &TYPES {
        assert!(rt; has_kind(rt.alloc(), text, *letter)?);
    }
    Ok(())
}

/// Whether a type of functions, pointers and an array has nine parts.
fn functions_have_parts(alloc: Global) -> Result<bool, AllocError> {
    Ok(parts(ty(alloc, "3*g*f*v")?.get()) == 9)
}

/// Whether pointers to pointers have so many parts, and 1,001 where they have more.
fn pointers_have_parts(alloc: Global) -> Result<bool, AllocError> {
    let mut ty = Shared::new(alloc, Ty::Int)?;
    for count in 1..1_100 {
        if parts(ty.get()) != if count < 1_001 { count } else { 1_001 } {
            return Ok(false);
        }
        ty = Shared::new(alloc, Ty::Pointer(ty))?;
    }
    Ok(true)
}

#[test]
fn parts_are_counted_up_to_1001(rt: HostRuntime) -> Result<(), Fail> {
    assert!(rt; functions_have_parts(rt.alloc())?);
    assert!(rt; pointers_have_parts(rt.alloc())?);
    Ok(())
}

/// Whether a type decays to another.
fn becomes(alloc: Global, from: &str, to: &str) -> Result<bool, AllocError> {
    let from = ty(alloc, from)?;
    let to = ty(alloc, to)?;
    let decayed = Shared::new(alloc, decay(alloc, from.get())?)?;
    Ok(same(decayed.get(), to.get()))
}

/// Types, and what they decay to.
const DECAYED: [(&str, &str); 4] = [("A", "A"), ("*2i", "*2i"), ("23i", "*3i"), ("gc", "*gc")];

#[test]
fn arrays_and_functions_decay(rt: HostRuntime) -> Result<(), Fail> {
    for (from, to) in &DECAYED {
        assert!(rt; becomes(rt.alloc(), from, to)?);
    }
    Ok(())
}

/// Types may go from thread to thread.
fn is_shareable<T: Send + Sync>(_value: &T) -> bool {
    true
}

#[test]
fn types_may_be_shared_by_threads(rt: HostRuntime) {
    assert!(rt; is_shareable(&Ty::Int));
}
