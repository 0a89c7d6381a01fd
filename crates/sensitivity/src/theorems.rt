//! The laws of classes.

ghost use Rattle.sensitivity.specs.Theorems.{ArraysAreAsTheirElements, ClassesAreUnique, HoldersAreSensitive, PointersHold, TypesHaveClasses};

/// No type has two classes.
pub fn classes_are_unique()
    ensures { ClassesAreUnique }
{}

/// A pointer holds code pointers exactly where its class isn't regular.
pub fn pointers_hold()
    ensures { PointersHold }
{}

/// A pointer to an array has the class of a pointer to its element.
pub fn arrays_are_as_their_elements()
    ensures { ArraysAreAsTheirElements }
{}

/// Each type has a class.
pub fn types_have_classes()
    ensures { TypesHaveClasses }
{}

/// Pointers to pointers that hold code pointers are sensitive, and so are those to structs with such
/// a member.
pub fn holders_are_sensitive()
    ensures { HoldersAreSensitive }
{}
