//! The laws by which code that is put together is well formed.

ghost use Rattle.core_parts.specs.Theorems.{PartLaws};

/// Parts make parts and pieces, pieces make pieces, and a body that is a piece is well formed.
pub fn parts_compose()
    ensures { PartLaws }
{}
