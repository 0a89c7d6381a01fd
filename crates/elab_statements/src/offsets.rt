//! Offsets of parts, and the members that a struct has.

ghost use Rattle.std.specs.Prelude.{◌≡◌, ◌+◌, IfOk};
ghost use Rattle.c_types.specs.Structs.{members_of as members_spec};

use c_types::{Member, StructTable};
use std::alloc::AllocError;

/// The members of a struct that has a body.
///
/// # Errors
///
/// `AllocError`, where it has none.
pub(crate) fn members_of(structs: &StructTable, s: u32) -> Result<&[Member], AllocError>
    ensures { IfOk result (λ members. members.now ≡ members_spec structs.now s) }
{
    let Some(def) = structs.get(s) else {
        return Err(AllocError);
    };
    let Some(members) = &def.members else {
        return Err(AllocError);
    };
    Ok(members.as_slice())
}

/// An offset so many units further.
///
/// # Errors
///
/// `AllocError`, where it is above 32 bits.
pub fn next_offset(k: u32, units: u32) -> Result<u32, AllocError>
    ensures { IfOk result (λ n. n ≡ k + units) }
{
    match k.checked_add(units) {
        Some(next) => Ok(next),
        None => Err(AllocError),
    }
}
