//! Tables of structs: numbers, names and copies.

use crate::support::{offset_is, three_structs};
use c_types::{LayoutRefusal, Member, MemberList, StructDef, StructTable, Ty, copy_table, same};
use std::alloc::Global;
use std::test::Fail;

/// Tags of structs, and one that no struct has, with their numbers.
const TAGS: [(&[u8], Option<u32>); 3] = [(b"a", Some(0)), (b"c", Some(2)), (b"d", None)];

/// Structs and names of members, with their places.
const MEMBERS: [(u32, &[u8], Option<u32>); 6] = [
    (0, b"c", Some(0)),
    (0, b"a", Some(1)),
    (0, b"x", None),
    (1, b"x", None),
    (2, b"p", Some(3)),
    (3, b"p", None),
];

/// Whether the structs are found by their tags.
fn has_the_tags(table: &StructTable) -> bool {
    for (tag, number) in &TAGS {
        if table.find(tag) != *number {
            return false;
        }
    }
    true
}

/// Whether their members are found by their names.
fn has_the_members(table: &StructTable) -> bool {
    for (s, name, place) in &MEMBERS {
        if table.find_member(*s, name) != *place {
            return false;
        }
    }
    true
}

/// Whether the table has three structs, with the numbers 0 to 2.
fn has_three(table: &StructTable) -> bool {
    table.len() == 3 && !table.is_empty() && table.get(2).is_some() && table.get(3).is_none()
}

/// Whether the table has the three structs and their members.
fn has_the_structs(table: &StructTable) -> bool {
    has_three(table) && has_the_tags(table) && has_the_members(table)
}

#[test]
fn structs_and_members_are_found_by_name(rt: HostRuntime) -> Result<(), Fail> {
    assert!(rt; has_the_structs(&three_structs(rt.alloc())?));
    Ok(())
}

/// Whether two members are equal.
fn is_equal(member: &Member, other: &Member) -> bool {
    member.name.bytes() == other.name.bytes() && same(&member.ty, &other.ty)
}

/// Whether two lists have equal members.
fn are_equal(members: &MemberList, others: &MemberList) -> bool {
    for (member, other) in members.as_slice().iter().zip(others.as_slice()) {
        if !is_equal(member, other) {
            return false;
        }
    }
    members.len() == others.len()
}

/// Whether two structs have the same name and equal members.
fn is_alike(def: &StructDef, other: &StructDef) -> bool {
    def.name.bytes() == other.name.bytes()
        && match (&def.members, &other.members) {
            (Some(members), Some(others)) => are_equal(members, others),
            (None, None) => true,
            _ => false,
        }
}

/// Whether two tables have alike structs.
fn are_alike(table: &StructTable, other: &StructTable) -> bool {
    for (def, copied) in table.defs().as_slice().iter().zip(other.defs().as_slice()) {
        if !is_alike(def, copied) {
            return false;
        }
    }
    true
}

/// Whether the units and an offset of the three structs are as they should be.
fn has_the_units(table: &StructTable) -> bool {
    table.units(&Ty::Struct(0)) == Ok(3)
        && table.units(&Ty::Struct(1)) == Err(LayoutRefusal::Incomplete)
        && offset_is(table, 0, 1, Ok(1))
}

/// Whether a table has all that the three structs have.
fn has_all(copy: &StructTable, source: &StructTable) -> bool {
    has_the_structs(copy) && has_the_units(copy) && are_alike(source, copy)
}

/// Whether a copy of the three structs has all that they have.
fn is_copied(alloc: Global, source: &StructTable) -> Result<bool, Fail> {
    let copy = copy_table(alloc, source)?;
    Ok(has_all(&copy, source))
}

#[test]
fn a_copy_has_all_that_its_source_has(rt: HostRuntime) -> Result<(), Fail> {
    assert!(rt; is_copied(rt.alloc(), &three_structs(rt.alloc())?)?);
    Ok(())
}
