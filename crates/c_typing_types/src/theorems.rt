//! What holds of the types in the typed form of every source.

ghost use Rattle.c_typing_types.specs.Theorems.{BoundsAreGiven, DerivedSourcesAreFilled};
ghost use Rattle.c_typing_types.specs.Theorems.{FunctionsAreDeclarable, TypesAreWellMade, TypesNameStructs};

/// Each type in the typed form of a source names structs of its table alone, of which there are at most 1,024.
pub fn types_name_structs()
    ensures { TypesNameStructs }
{}

/// Each function in a type of a typed form takes at most eight scalars and gives a scalar or nothing.
pub fn functions_are_declarable()
    ensures { FunctionsAreDeclarable }
{}

/// Where no braces of a source are empty, each bound in a type of its typed form, and in its table of structs, is at least 1,
/// and each type whose bounds are so has a unit at least, if it has units.
pub fn bounds_are_given()
    ensures { BoundsAreGiven }
{}

/// A source that the grammar derives has no empty braces, as `bounds_are_given` asks.
pub fn derived_sources_are_filled()
    ensures { DerivedSourcesAreFilled }
{}

/// Where no braces of a source are empty, each type in its typed form passes the tests of all three laws at once.
pub fn types_are_well_made()
    ensures { TypesAreWellMade }
{}
