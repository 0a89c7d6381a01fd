//! Numbers of units that instructions carry.

ghost use Rattle.std.specs.Prelude.{◌≡◌, IfOk};
ghost use Rattle.elab_rows.specs.Rows as rows;
ghost use Rattle.elab_rows.specs.Units as spec;
ghost use Rattle.elab_rows.specs.Values as values;
ghost use Rattle.c_types.specs.Kinds.{decay, is_pointer};

use c_types::{LayoutRefusal, Ty};
use elab_rows::Scope;
use std::alloc::AllocError;

/// The units of a type that has some, else 0.
///
/// # Errors
///
/// `AllocError`, where they are above 65,536.
#[tactic(auto, unfolding(elab_rows::specs::Units::units, c_types::specs::Units::units_of))]
pub fn units(scope: &Scope, ty: &Ty) -> Result<u32, AllocError>
    ensures { IfOk result (λ n. n ≡ spec.units scope.now.structs ty.now) }
{
    match scope.structs.units(ty) {
        Ok(units) => Ok(units),
        Err(LayoutRefusal::Incomplete) => Ok(0),
        Err(LayoutRefusal::TooLarge) => Err(AllocError),
    }
}

/// The offset of a member.
///
/// # Errors
///
/// `AllocError`, where there is no such member, or its offset is above 65,536.
#[tactic(auto, unfolding(elab_rows::specs::Units::offset))]
fn offset(scope: &Scope, s: u32, member: u32) -> Result<u32, AllocError>
    ensures { IfOk result (λ k. k ≡ spec.offset scope.now.structs s member) }
{
    let Some(def) = scope.structs.get(s) else {
        return Err(AllocError);
    };
    let Some(members) = &def.members else {
        return Err(AllocError);
    };
    if member as usize >= members.len() {
        return Err(AllocError);
    }
    match scope.structs.offset(s, member) {
        Ok(offset) => Ok(offset),
        Err(_) => Err(AllocError),
    }
}

/// The offset of a member of a struct.
///
/// # Errors
///
/// `AllocError`, where it is no struct or there is no such member.
#[tactic(auto, unfolding(c_types::specs::Kinds::struct_of))]
pub fn member_offset(scope: &Scope, ty: &Ty, member: u32) -> Result<u32, AllocError>
    ensures { IfOk result (λ k. k ≡ values.member_offset scope.now ty.now member) }
{
    match ty {
        Ty::Struct(s) => offset(scope, *s, member),
        _ => Err(AllocError),
    }
}

/// What the pointer that a value is points to.
///
/// # Errors
///
/// `AllocError`, where it is no pointer.
#[tactic(auto, unfolding(elab_rows::specs::Values::target, c_types::specs::Kinds::decay, c_types::specs::Kinds::target_of))]
pub fn target(ty: &Ty) -> Result<&Ty, AllocError>
    ensures { IfOk result (λ t. t.now ≡ values.target (decay ty.now)) }
{
    match ty {
        Ty::Pointer(target) => Ok(target.get()),
        Ty::Array(element, _) => Ok(element.get()),
        Ty::Function(_) => Ok(ty),
        _ => Err(AllocError),
    }
}

/// The units of what the pointer that a value is points to.
///
/// # Errors
///
/// `AllocError`, where it is no pointer, or they are above 65,536.
#[tactic(auto, unfolding(elab_rows::specs::Rows::target_units, c_types::specs::Kinds::decay, c_types::specs::Kinds::target_of))]
pub fn target_units(scope: &Scope, ty: &Ty) -> Result<u32, AllocError>
    ensures { IfOk result (λ n. n ≡ rows.target_units scope.now.structs (decay ty.now)) }
{
    match ty {
        Ty::Pointer(target) => units(scope, target.get()),
        Ty::Array(element, _) => units(scope, element.get()),
        Ty::Function(_) => units(scope, ty),
        _ => Err(AllocError),
    }
}

/// Whether a value of this type is a pointer.
#[tactic(auto, unfolding(c_types::specs::Kinds::is_pointer, c_types::specs::Kinds::decay, c_types::specs::Kinds::target_of))]
pub fn becomes_pointer(ty: &Ty) -> bool
    ensures { result ≡ is_pointer (decay ty.now) }
{
    matches!(ty, Ty::Pointer(_) | Ty::Array(_, _) | Ty::Function(_))
}
