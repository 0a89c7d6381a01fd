//! What the question whether a type holds code pointers comes to.

ghost use Rattle.std.specs.Prelude.{◌≡◌, List};
ghost use Rattle.c_types.specs.declared.structs.StructDef.{StructDef};
ghost use Rattle.sensitivity.specs.Classes as spec;
ghost use Rattle.sensitivity.specs.Holds as holds;
ghost use Rattle.sensitivity.specs.inner.Marks.{IsHolding, TellsBodies, is_universal_class};

use crate::class::Class;
use c_types::Ty;

/// What the question whether a type holds code pointers comes to.
#[derive(Clone, Copy, Debug, PartialEq, Eq)]
pub(crate) enum Holding {
    /// It does.
    Always,
    /// It doesn't.
    Never,
    /// It does where this struct does.
    AsStruct(u32),
}

/// The class of a pointer to a struct.
pub(crate) fn class_at(of_structs: &[Class], s: u32) -> Class
    ensures { result ≡ spec.class_at of_structs.now s }
{
    match of_structs.get(s as usize) {
        Some(class) => *class,
        None => Class::Universal,
    }
}

/// Whether it is a function, or an array of such.
#[tactic(auto, unfolding(crate::specs::Holds::is_code))]
pub(crate) fn is_code(ty: &Ty) -> bool
    ensures { result ≡ holds.is_code ty.now }
{
    match ty {
        Ty::Function(_) => true,
        Ty::Array(element, _) => is_code(element.get()),
        _ => false,
    }
}

/// Whether it is the class of pointers that may point to anything.
fn is_universal(class: Class) -> bool
    ensures { result ≡ is_universal_class class }
{
    matches!(class, Class::Universal)
}

/// Whether it is `void`, `char`, a struct without a body, or an array of such.
#[tactic(auto, unfolding(crate::specs::Holds::is_open))]
pub(crate) fn is_open(of_structs: &[Class], ty: &Ty) -> bool
    ensures { result
        ≡ holds.is_open (λ s. is_universal_class (spec.class_at of_structs.now s)) ty.now }
{
    match ty {
        Ty::Void | Ty::Char => true,
        Ty::Struct(s) => is_universal(class_at(of_structs, *s)),
        Ty::Array(element, _) => is_open(of_structs, element.get()),
        _ => false,
    }
}

/// What the question comes to, if the table tells which structs have a body.
pub(crate) fn holding_of(of_structs: &[Class], ty: &Ty) -> Holding
    ensures { (defs : List StructDef) → TellsBodies defs of_structs.now
        → IsHolding defs ty.now result }
{
    match ty {
        Ty::Struct(s) => Holding::AsStruct(*s),
        Ty::Array(element, _) => holding_of(of_structs, element.get()),
        Ty::Pointer(target) => {
            let target = target.get();
            if is_code(target) {
                return Holding::Always;
            }
            if is_open(of_structs, target) {
                return Holding::Always;
            }
            holding_of(of_structs, target)
        }
        Ty::Int | Ty::Char | Ty::Void | Ty::Function(_) => Holding::Never,
    }
}
