//! The lines of structs.

ghost use Rattle.std.specs.Prelude.{◌≤◌, OnOk, length};
ghost use Rattle.core_ir.specs.Valid.{most_structs};
ghost use Rattle.sensitivity.specs.Classes.{AreClasses};
ghost use Rattle.code_report.specs.Report.{StructLines};
ghost use Rattle.code_report.specs.inner.Appending.{Adds};

use crate::lines::push_struct;
use c_types::StructTable;
use sensitivity::ClassTable;
use std::alloc::AllocError;

/// Appends the line of each struct, with the class of a pointer to it.
pub(crate) fn push_structs(
    text: &mut Vec<u8>,
    structs: &StructTable,
    classes: &ClassTable,
) -> Result<(), AllocError>
    requires few { length structs.now ≤ most_structs }
    requires classes { AreClasses structs.now classes.now }
    ensures { OnOk result (Adds (StructLines structs.now 0 structs.now) text.old.items text.new.items) }
{
    for (s, def) in structs.defs().as_slice().iter().enumerate() {
        push_struct(text, def.name.bytes(), classes.class_of_struct(s as u32))?;
    }
    Ok(())
}
