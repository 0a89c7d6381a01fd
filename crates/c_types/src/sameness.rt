//! When two types are the same.

ghost use Rattle.std.specs.Prelude.{◌≡◌, ◌↔◌, IsTrue};
ghost use Rattle.c_types.specs.Same.{same as same_types, same_function, all_same};

use crate::ty::{FnTy, Ty};

/// Whether two types are equal: structs by their numbers, all else part by part.
#[tactic(auto, using(crate::proofs::SameTypes::same_is_equality))]
pub fn same(a: &Ty, b: &Ty) -> bool
    ensures value { result ≡ same_types a.now b.now }
    ensures equal { IsTrue result ↔ (a.now ≡ b.now) }
{
    types_agree(a, b)
}

/// Whether the types of two functions are equal.
#[tactic(auto, using(crate::proofs::SameTypes::same_function_is_equality))]
pub fn same_functions(f: &FnTy, g: &FnTy) -> bool
    ensures value { result ≡ same_function f.now g.now }
    ensures equal { IsTrue result ↔ (f.now ≡ g.now) }
{
    functions_agree(f, g)
}

/// Whether two types agree part by part.
#[cycle(same)]
#[tactic(auto, unfolding(crate::specs::Same::same, crate::specs::Same::same_function))]
fn types_agree(a: &Ty, b: &Ty) -> bool
    ensures { result ≡ same_types a.now b.now }
{
    match (a, b) {
        (Ty::Int, Ty::Int) | (Ty::Char, Ty::Char) | (Ty::Void, Ty::Void) => true,
        (Ty::Struct(m), Ty::Struct(n)) => m == n,
        (Ty::Pointer(s), Ty::Pointer(t)) => types_agree(s.get(), t.get()),
        (Ty::Array(s, m), Ty::Array(t, n)) => m == n && types_agree(s.get(), t.get()),
        (Ty::Function(f), Ty::Function(g)) => functions_agree(f.get(), g.get()),
        _ => false,
    }
}

/// Whether the types of two functions agree.
#[cycle(same)]
#[tactic(auto, unfolding(crate::specs::Same::same, crate::specs::Same::same_function))]
fn functions_agree(f: &FnTy, g: &FnTy) -> bool
    ensures { result ≡ same_function f.now g.now }
{
    types_agree(&f.result, &g.result) && lists_agree(f.params.as_slice(), g.params.as_slice())
}

/// Whether two lists have types that agree at each place.
#[cycle(same)]
fn lists_agree(ts: &[Ty], us: &[Ty]) -> bool
    ensures { result ≡ all_same ts.now us.now }
{
    if ts.len() != us.len() {
        return false;
    }
    for (place, t) in ts.iter().enumerate() {
        if !types_agree(t, &us[place]) {
            return false;
        }
    }
    true
}
