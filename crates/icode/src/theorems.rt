//! The laws of code.

ghost use Rattle.icode.specs.Theorems.{StandingCodeIsValid, StandingLocalsAreLocals};

use sensitivity::{
    arrays_are_as_their_elements, classes_are_unique, holders_are_sensitive, pointers_hold,
};

/// Code that stands for a valid program is valid.
pub fn standing_code_is_valid()
    ensures { StandingCodeIsValid }
{
    classes_are_unique();
    pointers_hold();
    arrays_are_as_their_elements();
    holders_are_sensitive();
}

/// What stands for the locals of a valid function lies in its frame, and what is marked is safe.
pub fn standing_locals_are_locals()
    ensures { StandingLocalsAreLocals }
{}
