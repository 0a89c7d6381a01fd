//! The law of the code that stands for a program.

ghost use Rattle.code_laws.specs.Theorems.{ProgramsHaveOneCode};

use sensitivity::classes_are_unique;

/// No program has two codes that stand for it.
pub fn programs_have_one_code()
    ensures { ProgramsHaveOneCode }
{
    classes_are_unique();
}
