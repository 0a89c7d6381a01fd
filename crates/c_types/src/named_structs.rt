//! Which structs a type names, also behind pointers.

ghost use Rattle.std.specs.Prelude.{◌≡◌};
ghost use Rattle.c_types.specs.Sound as spec;

use crate::ty::{FnTy, Ty};

/// Whether each struct that the type names is of the first so many.
#[cycle(names)]
#[tactic(auto, unfolding(crate::specs::Sound::names_below, crate::specs::Sound::function_names_below))]
pub fn names_below(count: u32, ty: &Ty) -> bool
    ensures { result ≡ spec.names_below count ty.now }
{
    match ty {
        Ty::Int | Ty::Char | Ty::Void => true,
        Ty::Struct(s) => *s < count,
        Ty::Pointer(target) => names_below(count, target.get()),
        Ty::Array(element, _) => names_below(count, element.get()),
        Ty::Function(function) => function_names_below(count, function.get()),
    }
}

/// The same for the type of a function.
#[cycle(names)]
#[tactic(auto, unfolding(crate::specs::Sound::names_below, crate::specs::Sound::function_names_below))]
pub fn function_names_below(count: u32, function: &FnTy) -> bool
    ensures { result ≡ spec.function_names_below count function.now }
{
    if !names_below(count, &function.result) {
        return false;
    }
    for param in function.params.as_slice() {
        if !names_below(count, param) {
            return false;
        }
    }
    true
}
