//! The laws of typing.

ghost use Rattle.c_typing.specs.Theorems.{SourcesHaveOneVerdict};

/// A source has a typed form or a first broken rule, never both, and never two of either.
pub fn sources_have_one_verdict()
    ensures { SourcesHaveOneVerdict }
{}
