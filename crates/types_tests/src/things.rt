//! Tables of named things.

use crate::support::name;
use c_types::Name;
use std::alloc::Global;
use std::test::Fail;
use tables::{Named, Table};

/// Whether this name is found first at this place.
fn is_found(table: &Table<Name>, text: &[u8], place: usize) -> bool {
    table.find(text) == Some(place)
        && table
            .find_item(text)
            .is_some_and(|thing| thing.name() == text)
}

/// Whether nothing has this name.
fn is_missing(table: &Table<Name>, text: &[u8]) -> bool {
    table.find(text).is_none() && table.find_item(text).is_none()
}

/// Adds `b`, `a`, `b` and `c` to a table, if it is empty.
fn add_four(alloc: Global, table: &mut Table<Name>) -> Result<(), Fail> {
    if !table.is_empty() {
        return Err(Fail::from("a new table has things"));
    }
    for text in ["b", "a", "b", "c"] {
        table.push(name(alloc, text)?)?;
    }
    Ok(())
}

/// Whether the table has four things.
fn has_four(table: &Table<Name>) -> bool {
    table.len() == 4
        && table.as_slice().len() == 4
        && table.get(3).is_some()
        && table.get(4).is_none()
}

/// Whether each of them is found first where it was pushed first.
fn finds_the_first(table: &Table<Name>) -> bool {
    is_found(table, b"b", 0)
        && is_found(table, b"a", 1)
        && is_found(table, b"c", 3)
        && is_missing(table, b"d")
}

/// Whether four things are found by their names once they are added to a new table.
fn are_found(alloc: Global) -> Result<bool, Fail> {
    let mut table: Table<Name> = Table::new(alloc);
    add_four(alloc, &mut table)?;
    Ok(has_four(&table) && finds_the_first(&table))
}

#[test]
fn the_first_thing_of_a_name_is_found(rt: HostRuntime) -> Result<(), Fail> {
    assert!(rt; are_found(rt.alloc())?);
    Ok(())
}
