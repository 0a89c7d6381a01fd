//! What the readers are to the grammar.

ghost use Rattle.c_expr.specs.Theorems.{ReadersAreSound, ReadersAreComplete, ExpressionsHaveOneTree, ExpressionLaws};

/// What a reader answers is of the grammar, with nodes at most as deep as the reader's depth.
pub fn readers_are_sound()
    ensures { ReadersAreSound }
{}

/// What is of the grammar, with nodes at most as deep as a reader's depth, the reader answers.
pub fn readers_are_complete()
    ensures { ReadersAreComplete }
{}

/// One list of tokens has one tree as an expression.
pub fn expressions_have_one_tree()
    ensures { ExpressionsHaveOneTree }
{}

/// The readers are the grammar, and the first tokens of its forms tell them apart: what a crate reads by that reads
/// more than expressions.
pub fn expression_laws()
    ensures { ExpressionLaws }
{}
