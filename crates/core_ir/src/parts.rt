//! Whether a type has another as a part.

ghost use Rattle.std.specs.Prelude.{◌≡◌, ◌+◌, ◌<◌, ◌≤◌, ◌↔◌, ◌⊎◌, ℕ, false, All, Contains, None, Some, IfSome, IsTrue, length};
ghost use Rattle.core_ir.specs.Parts.{HasPart};
ghost use Rattle.core_ir.specs.inner.Search.{AreFound, AreSearched, Extends, HasLayer, Includes, IsClean, IsScanned};

use crate::found::{Found, MOST_STRUCTS};
use c_types::{Member, StructTable, Ty, same};

/// Whether a type is the other, or an element of it, or of its element ..
fn has_layer(ty: &Ty, part: &Ty) -> bool
    ensures { IsTrue result ↔ HasLayer ty.now part.now }
{
    if same(ty, part) {
        return true;
    }
    match ty {
        Ty::Array(element, _) => has_layer(element.get(), part),
        _ => false,
    }
}

/// The struct that a type is, or of which it is an array.
fn innermost(ty: &Ty) -> Option<u32>
    ensures some { IfSome result (λ s. HasLayer ty.now (Ty.Struct s)) }
    ensures only { (s : ℕ) → HasLayer ty.now (Ty.Struct s) → result ≡ Some s }
{
    match ty {
        Ty::Struct(s) => Some(*s),
        Ty::Array(element, _) => innermost(element.get()),
        _ => None,
    }
}

/// Adds the struct in the arrays of a type.
fn add_innermost(found: &mut Found, ty: &Ty)
    requires { AreFound found.old }
    ensures found { AreFound found.new }
    ensures added { (s : ℕ) → HasLayer ty.now (Ty.Struct s) → s < 1024 → Includes found.new s }
    ensures grows { Extends found.old found.new }
    ensures others { (s : ℕ) → Includes found.new s
        → Includes found.old s ⊎ HasLayer ty.now (Ty.Struct s) }
{
    if let Some(number) = innermost(ty) {
        found.add(number);
    }
}

/// Whether a member has the part as a layer. The structs in the members' arrays are found.
fn scan_members(found: &mut Found, members: &[Member], part: &Ty) -> bool
    requires { AreFound found.old }
    ensures found { AreFound found.new }
    ensures grows { Extends found.old found.new }
    ensures has { IsTrue result → (m : Member) × Contains members.now m × HasLayer m.ty part.now }
    ensures clean { result ≡ false → All (λ m. IsClean found.new part.now m.ty) members.now }
    ensures others { (s : ℕ) → Includes found.new s
        → Includes found.old s ⊎ ((m : Member) × Contains members.now m × HasLayer m.ty (Ty.Struct s)) }
{
    for member in members {
        if has_layer(&member.ty, part) {
            return true;
        }
        add_innermost(found, &member.ty);
    }
    false
}

/// Whether a member of the struct has the part as a layer. The structs in the members' arrays are found.
fn scan_struct(structs: &StructTable, found: &mut Found, number: u32, part: &Ty) -> bool
    requires { AreFound found.old }
    ensures found { AreFound found.new }
    ensures grows { Extends found.old found.new }
    ensures has { IsTrue result → HasPart structs.now (Ty.Struct number) part.now }
    ensures scanned { result ≡ false → IsScanned structs.now found.new part.now number }
    ensures others { (s : ℕ) → Includes found.new s
        → Includes found.old s
        ⊎ ((x : Ty) → HasPart structs.now (Ty.Struct s) x → HasPart structs.now (Ty.Struct number) x) }
{
    let Some(def) = structs.get(number) else {
        return false;
    };
    match &def.members {
        Some(members) => scan_members(found, members.as_slice(), part),
        None => false,
    }
}

/// Whether the part is found from the structs that were found first.
fn is_reached(structs: &StructTable, found: &mut Found, whole: &Ty, part: &Ty) -> bool
    requires few { length structs.now ≤ 1024 }
    requires start { AreSearched structs.now whole.now part.now found.old 0 }
    ensures { IsTrue result ↔ HasPart structs.now whole.now part.now }
{
    for next in 0..MOST_STRUCTS {
        let Some(number) = found.get(next) else {
            return false;
        };
        if scan_struct(structs, found, number, part) {
            return true;
        }
    }
    false
}

/// Whether a type is the other, or has it as a part. Each struct is looked into once.
pub(crate) fn has_part(structs: &StructTable, whole: &Ty, part: &Ty) -> bool
    requires { length structs.now ≤ 1024 }
    ensures { IsTrue result ↔ HasPart structs.now whole.now part.now }
{
    if has_layer(whole, part) {
        return true;
    }
    let mut found = Found::new();
    add_innermost(&mut found, whole);
    is_reached(structs, &mut found, whole, part)
}
