//! Scalars of a variable that nothing gives.

ghost use Rattle.std.specs.Prelude.{◌≡◌, [], ◌∷◌, IfOk, map};
ghost use Rattle.elab_pieces.specs.Initialisers.{all_scalars};
ghost use Rattle.elab_statements.specs.Bodies.{PieceOutcome, piece_at};
ghost use Rattle.elab_pieces.specs.Lines.{all_full};
ghost use Rattle.elab_statements.specs.inner.Leaves.{missing_codes, missing_lines};
ghost use Rattle.elab_emit.specs.Emits.{IsSound};
ghost use Rattle.elab_rows.specs.Units.{repeated};

use crate::body::Body;
use crate::leaves::missing_leaf;
use crate::offsets::next_offset;
use crate::targets::Target;
use c_types::{Member, StructTable, Ty, TyList};
use elab_emit::{Trouble, list_scalars};
use sqlite_items::Items;
use std::alloc::{AllocError, Global};

/// Scalars from this offset on that nothing gives, where those are stored.
pub(crate) fn missing_scalars(
    body: &mut Body,
    target: &Target,
    scalars: &[Ty],
    k: u32,
) -> Result<(), Trouble>
    requires { IsSound body.old.out }
    ensures made { PieceOutcome body.old (piece_at body.old (missing_lines target.now scalars.now k)) result body.new }
    ensures sound { IsSound body.new.out }
{
    if !target.all {
        return Ok(());
    }
    zero_leaves(body, target, scalars, k)
}

/// Scalars from this offset on that nothing gives.
fn zero_leaves(body: &mut Body, target: &Target, scalars: &[Ty], k: u32) -> Result<(), Trouble>
    requires { IsSound body.old.out }
    ensures made { PieceOutcome body.old (piece_at body.old (all_full (missing_codes target.now scalars.now k))) result body.new }
    ensures sound { IsSound body.new.out }
{
    let mut at = k;
    for ty in scalars {
        missing_leaf(body, target, ty, at)?;
        at = next_offset(at, 1)?;
    }
    Ok(())
}

/// The scalars of so many elements.
#[tactic(auto, using(crate::proofs::ScalarLists::elements_more))]
fn element_scalars(
    alloc: Global,
    structs: &StructTable,
    element: &Ty,
    count: u32,
) -> Result<TyList, AllocError>
    ensures { IfOk result (λ ts. ts ≡ all_scalars structs.now (repeated count (element.now ∷ []))) }
{
    let mut scalars = Items::new(alloc);
    for turn in 0..count {
        list_scalars(structs, element, &mut scalars)?;
    }
    Ok(scalars)
}

/// The scalars of members.
#[tactic(auto, using(crate::proofs::ScalarLists::members_more))]
fn member_scalars(
    alloc: Global,
    structs: &StructTable,
    members: &[Member],
) -> Result<TyList, AllocError>
    ensures { IfOk result (λ ts. ts ≡ all_scalars structs.now (map (λ m. m.ty) members.now)) }
{
    let mut scalars = Items::new(alloc);
    for member in members {
        list_scalars(structs, &member.ty, &mut scalars)?;
    }
    Ok(scalars)
}

/// The elements of an array that nothing gives, where those are stored.
pub(crate) fn missing_elements(
    body: &mut Body,
    structs: &StructTable,
    target: &Target,
    element: &Ty,
    left: u32,
    k: u32,
) -> Result<(), Trouble>
    requires { IsSound body.old.out }
    ensures made { PieceOutcome body.old (piece_at body.old (missing_lines target.now (all_scalars structs.now (repeated left (element.now ∷ []))) k)) result body.new }
    ensures sound { IsSound body.new.out }
{
    let scalars = element_scalars(body.out.alloc, structs, element, left)?;
    missing_scalars(body, target, scalars.as_slice(), k)
}

/// The members of a struct that nothing gives, where those are stored.
pub(crate) fn missing_members(
    body: &mut Body,
    structs: &StructTable,
    target: &Target,
    left: &[Member],
    k: u32,
) -> Result<(), Trouble>
    requires { IsSound body.old.out }
    ensures made { PieceOutcome body.old (piece_at body.old (missing_lines target.now (all_scalars structs.now (map (λ m. m.ty) left.now)) k)) result body.new }
    ensures sound { IsSound body.new.out }
{
    let scalars = member_scalars(body.out.alloc, structs, left)?;
    missing_scalars(body, target, scalars.as_slice(), k)
}
