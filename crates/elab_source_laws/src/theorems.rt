//! What holds of the program of every source that typing accepts.

ghost use Rattle.elab_source_laws.specs.Theorems.{ProgramIsTyped, ProgramIsValid};

use c_typed::Typed;
use c_types::tables_are_sound;
use c_typing_laws::typed_sources_are_typed;
use c_typing_types::{
    bounds_are_given, derived_sources_are_filled, functions_are_declarable, types_are_well_made,
    types_name_structs,
};
use elab_valid::{programs_are_typed, programs_are_valid};

/// Where this is the typed form of a source, its program is valid, unless the program passes a limit.
pub fn accepted_programs_are_valid(typed: &Typed)
    ensures { ProgramIsValid typed.now }
{
    tables_are_sound(&typed.structs);
    typed_sources_are_typed();
    types_name_structs();
    functions_are_declarable();
    bounds_are_given();
    types_are_well_made();
    derived_sources_are_filled();
    programs_are_valid();
}

/// Where this is the typed form of a source, the registers and slots of its program have types.
pub fn accepted_programs_are_typed(typed: &Typed)
    ensures { ProgramIsTyped typed.now }
{
    tables_are_sound(&typed.structs);
    typed_sources_are_typed();
    types_name_structs();
    functions_are_declarable();
    bounds_are_given();
    types_are_well_made();
    derived_sources_are_filled();
    programs_are_typed();
}
