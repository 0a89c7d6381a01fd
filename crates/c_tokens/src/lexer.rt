//! The tokens of a whole text.

ghost use Rattle.std.specs.Prelude.{◌≡◌, ◌≢◌, ◌<◌, ◌≤◌, ◌^◌, false, Ok, Err, IfOk, IfErr, List, length, count_by, nat_eq};
ghost use Rattle.c_tokens.specs.declared.token.Token.{Token};
ghost use Rattle.c_tokens.specs.declared.token.LexRefusal.{LexRefusal};
ghost use Rattle.c_tokens.specs.declared.token.LexRefusal.TheVariants.{Memory};
ghost use Rattle.c_tokens.specs.Answer.{IsAnswer};
ghost use Rattle.c_tokens.specs.Lex.{Lexes, IsRefused};
ghost use Rattle.c_tokens.specs.inner.Scan.{begins_blank, IsTokenOrRefusal};

use crate::blank::blank_len;
use crate::mark::mark_token;
use crate::number::number_token;
use crate::quoted::{character_token, string_token};
use crate::token::{Kind, LexRefusal, Token, Tokens};
use crate::word::{is_name_start, word_token};
use sqlite_items::Items;
use std::alloc::{AllocError, Global};

impl From<AllocError> for LexRefusal {
    ghost from_gives = { λ _ refusal. refusal ≡ Memory };

    fn from(_error: AllocError) -> LexRefusal {
        LexRefusal::Memory
    }
}

/// The token that the bytes begin with, and its length.
fn token_of(alloc: Global, bytes: &[u8], line: u32) -> Result<(Kind, usize), LexRefusal>
    requires some { 0 < length bytes.now }
    requires no_blank { begins_blank bytes.now ≡ false }
    ensures { IsTokenOrRefusal bytes.now line result }
{
    match bytes[0] {
        b'"' => string_token(alloc, bytes, line),
        b'\'' => character_token(bytes, line),
        b'0'..=b'9' => number_token(bytes, line),
        first if is_name_start(first) => Ok(word_token(alloc, bytes)?),
        _ => mark_token(bytes, line),
    }
}

/// How many line ends stand in the bytes.
fn line_ends(bytes: &[u8]) -> usize
    ensures { result ≡ count_by (λ b. nat_eq b 10) bytes.now }
{
    bytes.iter().filter(|byte| **byte == b'\n').count()
}

/// The tokens of the text, or the first place that is no token, white space or comment.
fn tokens_of(alloc: Global, bytes: &[u8]) -> Result<Tokens, LexRefusal>
    requires { length bytes.now < 2 ^ 31 }
    ensures found { IfOk result (Lexes bytes.now) }
    ensures refused { IfErr result (λ e. e ≢ LexRefusal.Memory → IsRefused bytes.now e) }
{
    let mut tokens = Items::new(alloc);
    let mut at = 0;
    let mut line: u32 = 1;
    loop {
        let from = at + blank_len(&bytes[at..]);
        line += line_ends(&bytes[at..from]) as u32;
        if from == bytes.len() {
            return Ok(tokens);
        }
        let (kind, len) = token_of(alloc, &bytes[from..], line)?;
        at = from + len;
        tokens.push(Token {
            kind,
            from: from as u32,
            to: at as u32,
            line,
        })?;
    }
}

/// The tokens of a text, each the longest at its place, with what it stands for, the place of its
/// text and the line that it begins on: at most as many as the text has bytes. White space and
/// comments stand between tokens and make none. The text is below 2^31 bytes long.
///
/// # Errors
///
/// Where a place is no token, white space or comment, the first such place decides the refusal, with
/// its line: `Comment` for a `/*` that nothing closes, `Number` for a run of letters, digits and `_`
/// that begins with a digit and is no number, `Text` for a quote that begins no character or string,
/// `Byte` for any other byte. `Memory` can come in place of every other answer.
pub fn lex(alloc: Global, bytes: &[u8]) -> Result<Tokens, LexRefusal>
    requires { length bytes.now < 2 ^ 31 }
    // What is answered are tokens that the bytes have, and no others are.
    ensures found { IfOk result (Lexes bytes.now) }
    ensures only { (tokens : List Token) → Lexes bytes.now tokens → IsAnswer Memory result (Ok tokens) }
    ensures count { IfOk result (λ tokens. length tokens ≤ length bytes.now) }
    // A refusal is the first place that is no token, white space or comment, and comes just there.
    ensures refused { IfErr result (λ e. e ≢ LexRefusal.Memory → IsRefused bytes.now e) }
    ensures refuses { (e : LexRefusal) → IsRefused bytes.now e → IsAnswer Memory result (Err e) }
{
    tokens_of(alloc, bytes)
}
