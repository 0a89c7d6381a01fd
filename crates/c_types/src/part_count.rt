//! How many parts a type has.

ghost use Rattle.std.specs.Prelude.{◌≡◌, ◌+◌, ◌-◌, ◌<◌, min};
ghost use Rattle.c_types.specs.Parts.{parts as parts_of, function_parts, most_parts};

use crate::ty::{FnTy, Ty};

/// The most parts that a declared type may have.
const MOST_PARTS: u32 = 1_000;

/// How many parts it has: each `int`, `char`, `void`, struct, pointer, array and function in it is
/// one. It is 1,001 for all types of more, which takes no longer to find than for one of 1,001.
pub fn parts(ty: &Ty) -> u32
    ensures { result ≡ min (parts_of ty.now) (most_parts + 1) }
{
    MOST_PARTS + 1 - left_behind(MOST_PARTS + 1, ty)
}

/// What is left of a number behind the parts of the type, down to 0.
#[cycle(parts)]
#[tactic(auto, unfolding(crate::specs::Parts::parts, crate::specs::Parts::function_parts))]
fn left_behind(left: u32, ty: &Ty) -> u32
    ensures { result ≡ left - parts_of ty.now }
{
    if left == 0 {
        return 0;
    }
    match ty {
        Ty::Int | Ty::Char | Ty::Void | Ty::Struct(_) => left - 1,
        Ty::Pointer(target) => left_behind(left - 1, target.get()),
        Ty::Array(element, _) => left_behind(left - 1, element.get()),
        Ty::Function(function) => left_behind_function(left, function.get()),
    }
}

/// The same for the type of a function.
#[cycle(parts)]
#[tactic(auto, unfolding(crate::specs::Parts::parts, crate::specs::Parts::function_parts))]
fn left_behind_function(left: u32, function: &FnTy) -> u32
    requires { 0 < left }
    ensures { result ≡ left - function_parts function.now }
{
    let mut left = left_behind(left - 1, &function.result);
    for param in function.params.as_slice() {
        left = left_behind(left, param);
    }
    left
}
