//! What holds of every text.

ghost use Rattle.c_tokens.specs.Theorems.{TextsHaveOneAnswer, SpacedTextLexes};

/// The same bytes have at most one list of tokens and at most one refusal, and never both.
pub fn texts_have_one_answer()
    ensures { TextsHaveOneAnswer }
{}

/// The texts of tokens with a space behind each are lexed to tokens of just these kinds.
pub fn spaced_text_lexes()
    ensures { SpacedTextLexes }
{}
