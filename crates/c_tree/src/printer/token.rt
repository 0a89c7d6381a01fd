//! The texts of tokens, each with a space behind it.

ghost use Rattle.std.specs.Prelude.{◌≡◌, ◌++◌, ◌∷◌, [], OnOk};
ghost use Rattle.std.specs.List.{flat_map};
ghost use Rattle.c_tree.specs.Written.{escape_letter, piece_of};
ghost use Rattle.c_tree.specs.inner.Appended.{Appends};
ghost use Rattle.c_tree.specs.inner.PrintedParts.{separator};
ghost use Rattle.c_tokens.specs.declared.token.Kind.{Kind};

use c_tokens::{Keyword, Mark};
use c_types::Name;
use std::alloc::AllocError;

/// Appends a token's text and a space.
fn push_token(out: &mut Vec<u8>, text: &[u8]) -> Result<(), AllocError>
    ensures { OnOk result (out.new.items ≡ out.old.items ++ text.now ++ 32 ∷ []) }
{
    out.extend_from_slice(text)?;
    out.push(b' ')?;
    Ok(())
}

/// Appends a mark.
#[tactic(auto, unfolding(crate::specs::Written::written))]
pub(super) fn push_mark(out: &mut Vec<u8>, mark: Mark) -> Result<(), AllocError>
    ensures { OnOk result (Appends out.old.items (Kind.Mark mark ∷ []) out.new.items) }
{
    push_token(out, mark.text())
}

/// Appends a comma, but in front of the first part.
#[tactic(auto, using(crate::proofs::AppendedLemmas::nothing))]
pub(super) fn push_separator(out: &mut Vec<u8>, place: usize) -> Result<(), AllocError>
    ensures { OnOk result (Appends out.old.items (separator place) out.new.items) }
{
    match place {
        0 => Ok(()),
        _ => push_mark(out, Mark::Comma),
    }
}

/// Appends a keyword.
#[tactic(auto, unfolding(crate::specs::Written::written))]
pub(super) fn push_word(out: &mut Vec<u8>, word: Keyword) -> Result<(), AllocError>
    ensures { OnOk result (Appends out.old.items (Kind.Word word ∷ []) out.new.items) }
{
    push_token(out, word.text())
}

/// Appends a name.
#[tactic(auto, unfolding(crate::specs::Written::written))]
pub(super) fn push_name(out: &mut Vec<u8>, name: &Name) -> Result<(), AllocError>
    ensures { OnOk result (Appends out.old.items (Kind.Name name.now ∷ []) out.new.items) }
{
    push_token(out, name.bytes())
}

/// Appends a number.
#[tactic(auto, unfolding(crate::specs::Written::written))]
pub(super) fn push_number(out: &mut Vec<u8>, number: i64) -> Result<(), AllocError>
    ensures { OnOk result (Appends out.old.items (Kind.Number number ∷ []) out.new.items) }
{
    let mut buffer = itoa::Buffer::new();
    push_token(out, buffer.format(number).as_bytes())
}

/// What stands behind a `\` for a byte that doesn't stand for itself in a string.
fn escape_letter(byte: u8) -> Option<u8>
    ensures { result ≡ escape_letter byte }
{
    match byte {
        b'\n' => Some(b'n'),
        b'\t' => Some(b't'),
        0 => Some(b'0'),
        b'\\' | b'"' => Some(byte),
        _ => None,
    }
}

/// Appends a byte as a piece of a string.
fn push_piece(out: &mut Vec<u8>, byte: u8) -> Result<(), AllocError>
    ensures { OnOk result (out.new.items ≡ out.old.items ++ piece_of byte) }
{
    match escape_letter(byte) {
        Some(letter) => out.extend_from_slice(&[b'\\', letter]),
        None => out.extend_from_slice(&[byte]),
    }
}

/// Appends a string.
#[tactic(auto, unfolding(crate::specs::Written::written))]
pub(super) fn push_text(out: &mut Vec<u8>, bytes: &[u8]) -> Result<(), AllocError>
    ensures { OnOk result (Appends out.old.items (Kind.Text bytes.now ∷ []) out.new.items) }
{
    out.push(b'"')?;
    for byte in bytes {
        push_piece(out, *byte)?;
    }
    push_token(out, b"\"")
}
