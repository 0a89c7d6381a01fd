//! Members of structs.

ghost use Rattle.std.specs.Prelude.{◌≡◌, IfOk};
ghost use Rattle.std.specs.Option.{option_copied};
ghost use Rattle.c_rules.specs.Rules as spec;
ghost use Rattle.c_scope.specs.Walks.{Walks};

use c_operators::{has_units, is_lvalue, value_type};
use c_scope::{Failure, Rule, World, found};
use c_typed::{Constant, TypedExpr, TypedForm};
use c_types::{Name, StructTable, Ty, copy_name, copy_type, struct_of, target_of};
use sqlite_items::Boxed;
use std::alloc::{AllocError, Global};

/// A member of a struct that has units: its number and its type.
#[tactic(auto, unfolding(crate::specs::Rules::member_of))]
fn member_of(structs: &StructTable, name: &Name, ty: &Ty) -> Result<Option<(u32, Ty)>, AllocError>
    ensures { IfOk result (λ found. found ≡ spec.member_of structs.now name.now ty.now) }
{
    if !has_units(structs, ty) {
        return Ok(None);
    }
    let Some(number) = struct_of(ty) else {
        return Ok(None);
    };
    let Some(place) = structs.find_member(number, name.bytes()) else {
        return Ok(None);
    };
    match member_at(structs, number, place) {
        Some(ty) => Ok(Some((place, copy_type(ty)?))),
        None => Ok(None),
    }
}

/// The type of a member by its number.
fn member_at(structs: &StructTable, s: u32, place: u32) -> Option<&Ty>
    ensures { option_copied result ≡ spec.member_at structs.now s place }
{
    let members = structs.get(s)?.members.as_ref()?;
    Some(&members.get(place as usize)?.ty)
}

/// `.` and a name.
///
/// # Errors
///
/// `Broken`, at the first rule that is broken. `Memory`, where no memory is left.
#[tactic(auto, unfolding(crate::specs::Rules::member, c_operators::specs::Operators::typed))]
pub fn member(
    alloc: Global,
    world: &World,
    x: Boxed<TypedExpr>,
    name: &Name,
) -> Result<TypedExpr, Failure>
    ensures { Walks (spec.member x name.now world.now) result world.now }
{
    let (number, ty) = member_found(world, x.get(), name)?;
    let name = copy_name(alloc, name)?;
    Ok(TypedExpr {
        form: TypedForm::Member(x, name, number),
        ty,
        constant: Constant::Other,
    })
}

/// What `.` asks, and the member's number and type.
#[tactic(auto, unfolding(crate::specs::Rules::member_found, c_operators::specs::Operators::type_of))]
fn member_found(world: &World, x: &TypedExpr, name: &Name) -> Result<(u32, Ty), Failure>
    ensures { Walks (spec.member_found x.now name.now world.now) result world.now }
{
    if !is_lvalue(x) {
        return Err(Failure::Broken(Rule::Member));
    }
    Ok(found(Rule::Member, member_of(&world.structs, name, &x.ty)?)?)
}

/// `->` and a name.
///
/// # Errors
///
/// `Broken`, at the first rule that is broken. `Memory`, where no memory is left.
#[tactic(auto, unfolding(crate::specs::Rules::arrow, c_operators::specs::Operators::typed))]
pub fn arrow(
    alloc: Global,
    world: &World,
    x: Boxed<TypedExpr>,
    name: &Name,
) -> Result<TypedExpr, Failure>
    ensures { Walks (spec.arrow x name.now world.now) result world.now }
{
    let (number, ty) = found(
        Rule::Member,
        member_behind(alloc, &world.structs, x.get(), name)?,
    )?;
    let name = copy_name(alloc, name)?;
    Ok(TypedExpr {
        form: TypedForm::Arrow(x, name, number),
        ty,
        constant: Constant::Other,
    })
}

/// A member of the struct that a pointer points to.
#[tactic(auto, unfolding(crate::specs::Rules::member_behind))]
fn member_behind(
    alloc: Global,
    structs: &StructTable,
    x: &TypedExpr,
    name: &Name,
) -> Result<Option<(u32, Ty)>, AllocError>
    ensures { IfOk result (λ found. found ≡ spec.member_behind structs.now x.now name.now) }
{
    match target_of(&value_type(alloc, x)?) {
        Some(target) => member_of(structs, name, target),
        None => Ok(None),
    }
}
