//! Assignments of structs, scalar by scalar.

ghost use Rattle.std.specs.Prelude.{◌≡◌, ◌≤◌, ◌+◌, ◌++◌, ◌*◌, length, IfOk, OnOk};
ghost use Rattle.c_types.specs.Structs.{members_of as members_spec};
ghost use Rattle.c_types.specs.declared.ty.Ty.{out-Ty};
ghost use Rattle.elab_rows.specs.Addresses.{copied_made, copied_parts};
ghost use Rattle.elab_emit.specs.Emits.{IsSound, Outcome, code_of};
ghost use Rattle.elab_rows.specs.Made.{held};
ghost use Rattle.elab_rows.specs.Units.{each_scalars, repeated, scalars, scalars_in, struct_scalars};
ghost use Rattle.elab_emit.specs.inner.Copies.{CopyOutcome, greatest, greatest_of, loads, stores};
ghost use Rattle.elab_emit.specs.inner.Elements.{scalars_by};

use crate::emitter::{Emitter, Trouble, give, put};
use c_types::{Member, StructTable, Ty, TyList, copy_type};
use core_ir::Instr;
use sqlite_items::Items;
use std::alloc::AllocError;

/// The scalars of a type in order of offset, in which structs stand at most so deep.
#[cycle(scalars)]
#[tactic(auto, using(crate::proofs::Elements::scalars_is))]
fn push_scalars(
    structs: &StructTable,
    depth: u32,
    ty: &Ty,
    found: &mut TyList,
) -> Result<(), AllocError>
    ensures { OnOk result (found.new ≡ found.old ++ scalars_in (struct_scalars depth structs.now) ty.now) }
{
    push_form(structs, depth, ty, found)
}

/// The same by the outer form.
#[cycle(scalars)]
fn push_form(
    structs: &StructTable,
    depth: u32,
    ty: &Ty,
    found: &mut TyList,
) -> Result<(), AllocError>
    ensures { OnOk result (found.new ≡ found.old ++ scalars_by (struct_scalars depth structs.now) ty.now (out-Ty ty.now)) }
{
    match ty {
        Ty::Int | Ty::Char | Ty::Pointer(_) => found.push(copy_type(ty)?),
        Ty::Void | Ty::Function(_) => Ok(()),
        Ty::Array(element, bound) => push_elements(structs, depth, element.get(), *bound, found),
        Ty::Struct(s) => push_nested(structs, depth, *s, found),
    }
}

/// The scalars of so many elements.
#[cycle(scalars)]
fn push_elements(
    structs: &StructTable,
    depth: u32,
    element: &Ty,
    bound: u32,
    found: &mut TyList,
) -> Result<(), AllocError>
    ensures { OnOk result (found.new ≡ found.old ++ repeated bound (scalars_in (struct_scalars depth structs.now) element.now)) }
{
    for turn in 0..bound {
        push_scalars(structs, depth, element, found)?;
    }
    Ok(())
}

/// The scalars of a struct, in which structs stand at most so deep.
#[cycle(scalars)]
#[tactic(auto, using(crate::proofs::Scalars::no_struct, crate::proofs::Scalars::one_less, crate::proofs::Scalars::deeper))]
fn push_nested(
    structs: &StructTable,
    depth: u32,
    s: u32,
    found: &mut TyList,
) -> Result<(), AllocError>
    ensures { OnOk result (found.new ≡ found.old ++ struct_scalars depth structs.now s) }
{
    if depth == 0 {
        return Ok(());
    }
    push_struct(structs, depth - 1, s, found)
}

/// The members of a struct, and none of one without a body.
fn members_of(structs: &StructTable, s: u32) -> &[Member]
    ensures members { result.now ≡ members_spec structs.now s }
    ensures depth { greatest_of result.now ≤ greatest structs.now }
{
    let Some(def) = structs.get(s) else {
        return &[];
    };
    match &def.members {
        Some(members) => members.as_slice(),
        None => &[],
    }
}

/// The scalars of a struct, in whose members structs stand at most so deep.
#[cycle(scalars)]
#[tactic(auto, using(crate::proofs::Scalars::struct_more))]
fn push_struct(
    structs: &StructTable,
    depth: u32,
    s: u32,
    found: &mut TyList,
) -> Result<(), AllocError>
    ensures { OnOk result (found.new ≡ found.old ++ struct_scalars (depth + 1) structs.now s) }
{
    let members = members_of(structs, s);
    push_members(structs, depth, members, found)
}

/// The scalars of members.
#[cycle(scalars)]
#[tactic(auto, using(crate::proofs::Scalars::member_is))]
fn push_members(
    structs: &StructTable,
    depth: u32,
    members: &[Member],
    found: &mut TyList,
) -> Result<(), AllocError>
    ensures { OnOk result (found.new ≡ found.old ++ each_scalars (struct_scalars depth structs.now) members.now) }
{
    for member in members {
        push_scalars(structs, depth, &member.ty, found)?;
    }
    Ok(())
}

/// The scalars of a type in order of offset, behind those of a list.
///
/// # Errors
///
/// `AllocError`, where no memory is left.
#[tactic(auto, unfolding(elab_rows::specs::Units::scalars))]
pub fn list_scalars(structs: &StructTable, ty: &Ty, found: &mut TyList) -> Result<(), AllocError>
    ensures { OnOk result (found.new ≡ found.old ++ scalars structs.now ty.now) }
{
    push_scalars(structs, structs.len(), ty, found)
}

/// `PtrConst, Touch, Load` of a part.
fn load_part(out: &mut Emitter, from: &Ty, p: u32, k: u32, ty: &Ty) -> Result<u32, Trouble>
    requires { IsSound out.old }
    ensures made { Outcome out.old (code_of out.old (loads from.now p k ty.now)) result out.new }
    ensures sound { IsSound out.new }
{
    let root = copy_type(from)?;
    let ty = copy_type(ty)?;
    let d = out.register;
    let p = give(out, Instr::PtrConst { d, p, k })?;
    put(out, Instr::Touch { p, ty: root })?;
    let d = out.register;
    give(out, Instr::Load { d, p, ty })
}

/// `PtrConst, Touch, Store` of a part.
fn store_part(out: &mut Emitter, to: &Ty, p: u32, k: u32, ty: &Ty, a: u32) -> Result<(), Trouble>
    requires { IsSound out.old }
    ensures made { CopyOutcome out.old (stores to.now p k ty.now a out.old) 1 result out.new }
    ensures sound { IsSound out.new }
{
    let root = copy_type(to)?;
    let ty = copy_type(ty)?;
    let d = out.register;
    let p = give(out, Instr::PtrConst { d, p, k })?;
    put(out, Instr::Touch { p, ty: root })?;
    put(out, Instr::Store { p, a, ty })
}

/// The next offset.
///
/// # Errors
///
/// `AllocError`, where it is above 32 bits.
fn next_offset(k: u32) -> Result<u32, AllocError>
    ensures { IfOk result (λ n. n ≡ k + 1) }
{
    match k.checked_add(1) {
        Some(next) => Ok(next),
        None => Err(AllocError),
    }
}

/// Each scalar part at `p` becomes that at `q`.
#[tactic(auto, using(crate::proofs::CopyRows::copies_start))]
fn copy_parts(
    out: &mut Emitter,
    from: &Ty,
    to: &Ty,
    p: u32,
    q: u32,
    parts: &[Ty],
) -> Result<(), Trouble>
    requires { IsSound out.old }
    ensures made { CopyOutcome out.old (copied_parts from.now to.now p q out.old.register 0 parts.now)
        (3 * length parts.now) result out.new }
    ensures sound { IsSound out.new }
{
    let mut k = 0;
    for part in parts {
        let a = load_part(out, from, p, k, part)?;
        store_part(out, to, q, k, part, a)?;
        k = next_offset(k)?;
    }
    Ok(())
}

/// A struct of this type at `p`, in this root, is assigned to one at `q`.
///
/// # Errors
///
/// `TooLong`, exactly where memory lasts and the code is longer than a function may be. `Memory`, where no memory
/// is left.
pub fn copy_struct(
    out: &mut Emitter,
    structs: &StructTable,
    ty: &Ty,
    from: &Ty,
    p: u32,
    to: &Ty,
    q: u32,
) -> Result<u32, Trouble>
    requires { IsSound out.old }
    ensures made { Outcome out.old (copied_made from.now to.now (scalars structs.now ty.now)
        (code_of out.old (held p)) (code_of out.old (held q))) result out.new }
    ensures sound { IsSound out.new }
{
    let mut parts = Items::new(out.alloc);
    list_scalars(structs, ty, &mut parts)?;
    copy_parts(out, from, to, p, q, parts.as_slice())?;
    Ok(p)
}
