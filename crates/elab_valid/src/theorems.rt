//! Elaborated programs are valid, and their code is typed.

ghost use Rattle.elab_valid.specs.Theorems.{ProgramsAreTyped, ProgramsAreValid};

use c_types::same_is_equality;
use core_parts::parts_compose;
use elab_laws::{rows_are_good, rows_fit, rows_touch};
use elab_piece_laws::{lines_are_numbered, statements_are_good, statements_fit};

/// The program of a typed source is valid, where its types are of the table and its limits hold.
pub fn programs_are_valid()
    ensures { ProgramsAreValid }
{
    same_is_equality();
    parts_compose();
    rows_are_good();
    rows_fit();
    rows_touch();
    statements_are_good();
    statements_fit();
    lines_are_numbered();
}

/// Registers and slots have types in the program of a typed source, where its types are of the table.
pub fn programs_are_typed()
    ensures { ProgramsAreTyped }
{
    same_is_equality();
    parts_compose();
    rows_are_good();
    rows_fit();
    rows_touch();
    statements_are_good();
    statements_fit();
    lines_are_numbered();
}
