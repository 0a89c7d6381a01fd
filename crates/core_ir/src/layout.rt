//! Whether variables follow one another as they should.

ghost use Rattle.std.specs.Prelude.{◌≡◌, ◌+◌, ◌<◌, ◌≤◌, ◌^◌, ◌↔◌, ℕ, IfSome, IsTrue, None, Ok, Some};
ghost use Rattle.c_types.specs.Units.{units_of};
ghost use Rattle.core_ir.specs.Layout.{GlobalsLie, Lies, LocalsLie, global_units, local_units};

use crate::program::{GlobalVar, Local};
use c_types::{StructTable, Ty, names_below};

/// The place of the first global.
const FIRST_ADDRESS: u64 = 128;

/// Whether a type has so many units.
fn has_units(structs: &StructTable, ty: &Ty, units: u32) -> bool
    ensures { IsTrue result ↔ (units_of structs.now ty.now ≡ Ok units) }
{
    match structs.units(ty) {
        Ok(found) => found == units,
        Err(_) => false,
    }
}

/// Whether a variable of this type and so many units stands where it should.
fn lies(structs: &StructTable, should: u64, place: u32, ty: &Ty, units: u32) -> bool
    ensures { IsTrue result ↔ Lies structs.now should place ty.now units }
{
    if u64::from(place) != should {
        return false;
    }
    if !has_units(structs, ty, units) {
        return false;
    }
    names_below(structs.len(), ty)
}

/// The sum of the units of globals that follow one another from the first address on, and none where
/// they don't.
pub(crate) fn units_of_globals(structs: &StructTable, globals: &[GlobalVar]) -> Option<u64>
    ensures some { IfSome result
        (λ n. GlobalsLie structs.now 128 globals.now × (n ≡ global_units globals.now)) }
    ensures none { result ≡ None → GlobalsLie structs.now 128 globals.now → ⊥ }
{
    let mut address = FIRST_ADDRESS;
    for global in globals {
        if !lies(structs, address, global.address, &global.ty, global.units) {
            return None;
        }
        address = u64::from(global.address) + u64::from(global.units);
    }
    Some(address - FIRST_ADDRESS)
}

/// The sum of the units of locals that follow one another from offset 0 on and have at least one unit
/// each, and none where they don't.
pub(crate) fn units_of_locals(structs: &StructTable, locals: &[Local]) -> Option<u64>
    ensures some { IfSome result
        (λ n. LocalsLie structs.now 0 locals.now × (n ≡ local_units locals.now)) }
    ensures none { result ≡ None → LocalsLie structs.now 0 locals.now → ⊥ }
{
    let mut offset = 0;
    for local in locals {
        if local.units == 0 || !lies(structs, offset, local.offset, &local.ty, local.units) {
            return None;
        }
        offset = u64::from(local.offset) + u64::from(local.units);
    }
    Some(offset)
}
