//! Characters and strings.

ghost use Rattle.std.specs.Prelude.{◌≡◌, ◌≤◌, IsTrue, nat_eq, take, drop, length, IfOk, IfSome, MatchOption};
ghost use Rattle.c_tokens.specs.Spell.{escape, IsPiece, ArePieces};
ghost use Rattle.c_tokens.specs.Bytes.{begins};
ghost use Rattle.c_tokens.specs.inner.Scan.{BeginsNoPiece, IsTokenOrRefusal};

use crate::token::{Kind, LexRefusal, Spelling};
use sqlite_items::Items;
use std::alloc::{AllocError, Global};

/// The byte that a `\` and this byte stand for.
fn escape_of(byte: u8) -> Option<u8>
    ensures { result ≡ escape byte }
{
    match byte {
        b'n' => Some(b'\n'),
        b't' => Some(b'\t'),
        b'0' => Some(0),
        b'\\' | b'\'' | b'"' => Some(byte),
        _ => None,
    }
}

/// The byte that the first piece stands for, and the length of the piece.
fn piece_of(bytes: &[u8], quote: u8) -> Option<(u8, usize)>
    ensures inside { IfSome result (λ found. found.1 ≤ length bytes.now) }
    ensures piece { MatchOption result (BeginsNoPiece quote bytes.now)
        (λ found. IsPiece quote (take found.1 bytes.now) found.0) }
{
    match bytes {
        [b'\\', escaped, ..] => Some((escape_of(*escaped)?, 2)),
        [byte @ b' '..=b'~', ..] if *byte != b'\\' && *byte != quote => Some((*byte, 1)),
        _ => None,
    }
}

/// The bytes that the first pieces stand for, up to where no piece begins, and the length of these
/// pieces.
fn pieces_of(alloc: Global, bytes: &[u8]) -> Result<(Spelling, usize), AllocError>
    ensures inside { IfOk result (λ found. found.1 ≤ length bytes.now) }
    ensures pieces { IfOk result (λ found. ArePieces 34 (take found.1 bytes.now) found.0) }
    ensures all { IfOk result (λ found. BeginsNoPiece 34 (drop found.1 bytes.now)) }
{
    let mut spelling = Items::new(alloc);
    let mut len = 0;
    while let Some((byte, piece)) = piece_of(&bytes[len..], b'"') {
        spelling.push(byte)?;
        len += piece;
    }
    Ok((spelling, len))
}

/// The character that the bytes begin with, and its length.
pub(crate) fn character_token(bytes: &[u8], line: u32) -> Result<(Kind, usize), LexRefusal>
    requires { IsTrue (begins (λ b. nat_eq b 39) bytes.now) }
    ensures { IsTokenOrRefusal bytes.now line result }
{
    let body = &bytes[1..];
    match piece_of(body, b'\'') {
        Some((byte, len)) if body[len..].starts_with(b"'") => Ok((
            Kind::Number(i64::from(byte)),
            len + 2,
        )),
        _ => Err(LexRefusal::Text { line }),
    }
}

/// The string that the bytes begin with, and its length.
pub(crate) fn string_token(
    alloc: Global,
    bytes: &[u8],
    line: u32,
) -> Result<(Kind, usize), LexRefusal>
    requires { IsTrue (begins (λ b. nat_eq b 34) bytes.now) }
    ensures { IsTokenOrRefusal bytes.now line result }
{
    let body = &bytes[1..];
    let (spelling, len) = pieces_of(alloc, body)?;
    if !body[len..].starts_with(b"\"") {
        return Err(LexRefusal::Text { line });
    }
    Ok((Kind::Text(spelling), len + 2))
}
