//! Units of types and offsets of members.

use crate::support::{define, members, name, offset_is, three_structs, ty};
use c_types::{LayoutRefusal, StructTable, Ty};
use std::alloc::{AllocError, Global};
use std::test::Fail;

/// Types, and the units that each of them has in a table of the three structs.
const ROWS: [(&[&str], Result<u32, LayoutRefusal>); 6] = [
    (&["i", "c", "*v", "*B", "*mmB", "*f"], Ok(1)),
    (&["A", "3c", "1A"], Ok(3)),
    (&["5A", "35i"], Ok(15)),
    (&["mi", "hhi"], Ok(65_536)),
    (
        &["v", "f", "gi", "B", "D", "2v", "3f", "2B", "mmB", "mmv"],
        Err(LayoutRefusal::Incomplete),
    ),
    (
        &["ni", "hki", "mmi", "mmmmmmi", "C", "2C", "mmC"],
        Err(LayoutRefusal::TooLarge),
    ),
];

/// Whether `units` answers this of each of the types.
fn all_have(
    alloc: Global,
    table: &StructTable,
    texts: &[&str],
    units: Result<u32, LayoutRefusal>,
) -> Result<bool, AllocError> {
    for text in texts {
        if table.units(ty(alloc, text)?.get()) != units {
            return Ok(false);
        }
    }
    Ok(true)
}

/// Whether each of the types has its units, or is refused.
fn all_rows_hold(alloc: Global, table: &StructTable) -> Result<bool, AllocError> {
    for (texts, units) in &ROWS {
        if !all_have(alloc, table, texts, *units)? {
            return Ok(false);
        }
    }
    Ok(true)
}

#[test]
fn units_are_sums_and_products_or_refused(rt: HostRuntime) -> Result<(), Fail> {
    assert!(rt; all_rows_hold(rt.alloc(), &three_structs(rt.alloc())?)?);
    Ok(())
}

/// Structs, places of their members, and their offsets.
const OFFSETS: [(u32, u32, Result<u32, LayoutRefusal>); 5] = [
    (0, 0, Ok(0)),
    (0, 1, Ok(1)),
    (2, 1, Ok(65_536)),
    (2, 2, Err(LayoutRefusal::TooLarge)),
    (2, 3, Err(LayoutRefusal::TooLarge)),
];

/// Whether each member has its offset.
fn has_the_offsets(table: &StructTable) -> bool {
    for (s, member, units) in &OFFSETS {
        if !offset_is(table, *s, *member, *units) {
            return false;
        }
    }
    true
}

#[test]
fn offsets_are_sums_of_the_members_before(rt: HostRuntime) -> Result<(), Fail> {
    assert!(rt; has_the_offsets(&three_structs(rt.alloc())?));
    Ok(())
}

/// Structs of the table, types, and whether each struct may have a body of one member of each of
/// the types. The first has a body, and the last doesn't exist.
const BODIES: [(u32, &[&str], bool); 4] = [
    (
        1,
        &["v", "f", "B", "2B", "C", "ni", "D", "*D", "*g*D"],
        false,
    ),
    (1, &["A", "mi", "*B", "*g*C"], true),
    (0, &["i"], false),
    (3, &["i"], false),
];

/// Whether a struct may have a body of one member of this type.
fn may_have(alloc: Global, table: &StructTable, s: u32, text: &str) -> Result<bool, AllocError> {
    let body = members(alloc, &[("m", text)])?;
    Ok(table.can_define(s, &body))
}

/// The same, or not, for each of the types.
fn may_all_have(
    alloc: Global,
    table: &StructTable,
    s: u32,
    texts: &[&str],
    may: bool,
) -> Result<bool, AllocError> {
    for text in texts {
        if may_have(alloc, table, s, text)? != may {
            return Ok(false);
        }
    }
    Ok(true)
}

/// Whether structs may have bodies just of the types that they should.
fn all_bodies_hold(alloc: Global, table: &StructTable) -> Result<bool, AllocError> {
    for (s, texts, may) in &BODIES {
        if !may_all_have(alloc, table, *s, texts, *may)? {
            return Ok(false);
        }
    }
    Ok(true)
}

/// So no table has an earlier member whose refusal would be an offset's.
#[test]
fn members_have_units_and_name_structs_of_the_table(rt: HostRuntime) -> Result<(), Fail> {
    assert!(rt; all_bodies_hold(rt.alloc(), &three_structs(rt.alloc())?)?);
    Ok(())
}

/// Gives the second of the three structs its body: `struct b { struct a x[2]; struct b *y; };`
fn define_second(alloc: Global, table: &mut StructTable) -> Result<(), Fail> {
    define(table, 1, members(alloc, &[("x", "2A"), ("y", "*B")])?)
}

/// Whether the second struct has the units of two structs of another number and a pointer to itself.
fn has_both(table: &StructTable) -> bool {
    table.units(&Ty::Struct(1)) == Ok(7) && offset_is(table, 1, 1, Ok(6))
}

/// Whether a struct may have members of another struct and pointers to itself, and has as many units
/// once there is a further struct.
fn stands_in_another(alloc: Global, table: &mut StructTable) -> Result<bool, Fail> {
    define_second(alloc, table)?;
    let before = has_both(table);
    let further = table.declare(name(alloc, "d")?)?;
    Ok(before && further == 3 && has_both(table))
}

#[test]
fn a_struct_may_stand_in_one_of_another_number(rt: HostRuntime) -> Result<(), Fail> {
    assert!(rt; stands_in_another(rt.alloc(), &mut three_structs(rt.alloc())?)?);
    Ok(())
}
