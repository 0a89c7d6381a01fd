//! What fields and numbers can be.
ghost use Rattle.fields.specs.Theorems.{FieldLaws};

/// A line has the fields that it was written with, each number is read from its own text alone, and a line is
/// found whole in a text that begins with it.
pub fn field_laws()
    ensures { FieldLaws }
{}
