//! What traces and their full texts can be.
ghost use Rattle.trace_reader.specs.Theorems.{TextsHaveOneTrace, FullTextsHaveNoBadLine, TextsHaveOneBadLine};

use fields::field_laws;

/// A text is the full text of one trace, or has one first line that no full text has there, and never both.
pub fn texts_have_one_trace()
    ensures one { TextsHaveOneTrace }
    ensures whole { FullTextsHaveNoBadLine }
    ensures first { TextsHaveOneBadLine }
{
    field_laws();
}
