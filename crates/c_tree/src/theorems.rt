//! What holds of every tree.

ghost use Rattle.c_tree.specs.Theorems.{DeclaratorsDeclareTheirNames};

/// The name that the grammar gives a declarator's tokens is the one that its tree declares.
pub fn declarators_declare_their_names()
    ensures { DeclaratorsDeclareTheirNames }
{}
