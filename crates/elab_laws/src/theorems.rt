//! The laws of elaborated code.

ghost use Rattle.elab_laws.specs.FittingLaws.{RowsFit};
ghost use Rattle.elab_laws.specs.Theorems.{RowsAreGood};
ghost use Rattle.elab_laws.specs.TouchingLaws.{RowsTouch};

use core_parts::parts_compose;

/// Each row gives a part of a full expression where its operands do.
pub fn rows_are_good()
    ensures { RowsAreGood }
{
    parts_compose();
}

/// Numbers, slots and types are in range in each row's code where they are in its operands'.
pub fn rows_fit()
    ensures { RowsFit }
{}

/// Each access of a row's code has the type of its touch, or of a part, where it is so in its
/// operands.
pub fn rows_touch()
    ensures { RowsTouch }
{}
