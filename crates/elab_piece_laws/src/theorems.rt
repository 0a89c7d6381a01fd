//! The laws of elaborated statements and bodies.

ghost use Rattle.elab_piece_laws.specs.FittingLaws.{StatementsFit};
ghost use Rattle.elab_piece_laws.specs.Numbered.{NumbersOfLines};
ghost use Rattle.elab_piece_laws.specs.Theorems.{StatementsAreGood};

use core_parts::parts_compose;
use elab_laws::rows_touch;

/// Each row of statements gives a piece where its parts do, and a function's body is well formed.
pub fn statements_are_good()
    ensures { StatementsAreGood }
{
    parts_compose();
}

/// Numbers, slots, types and touches fit in a statement's lines where they do in its expressions'
/// code.
pub fn statements_fit()
    ensures { StatementsFit }
{
    rows_touch();
}

/// Registers and slots of lines are the function's, where its full expressions number theirs from
/// 0 on.
pub fn lines_are_numbered()
    ensures { NumbersOfLines }
{}
