//! The laws of types and of tables of structs.

ghost use Rattle.c_types.specs.Sound.{IsSound};
ghost use Rattle.c_types.specs.Theorems.{UnitsAreSums, UnitsStay, TablesGrow, SameIsEquality};

use crate::struct_table::StructTable;

/// Two types are the same exactly where they are equal.
pub fn same_is_equality()
    ensures { SameIsEquality }
{}

/// A declaration and a first body leave each body of a table as it is.
pub fn tables_grow()
    ensures { TablesGrow }
{}

/// The units of a type are the same in each table that has more structs or more bodies, and a
/// type that a member may have stays one.
pub fn units_stay()
    ensures { UnitsStay }
{}

/// A struct has the sum of its members' units, an array the product of its element's and the
/// bound, and so on for each form of type.
pub fn units_are_sums(table: &StructTable)
    ensures { UnitsAreSums table.now }
{
    table.keep_laws();
}

/// Each member has units that aren't refused and names structs of the table, each struct with a
/// body has units, and no struct contains itself.
pub fn tables_are_sound(table: &StructTable)
    ensures { IsSound table.now }
{
    table.keep_laws();
}
