//! Texts of the tests, and their tokens.

ghost use Rattle.std.specs.Prelude.{◌<◌, IfOk, length};

use c_tokens::{LexRefusal, Tokens, lex};
use std::alloc::{AllocError, Global};
use std::process::Abort;

/// What `lex` answers of a short text.
pub(crate) fn lexed(rt: &impl Abort, alloc: Global, source: &[u8]) -> Result<Tokens, LexRefusal>
    ensures { IfOk result (λ tokens. length tokens < 100000) }
{
    assert!(rt; source.len() < 100_000);
    lex(alloc, source)
}

/// `before`, then `inside` between so many `open` and as many `close`, then `after`.
pub(crate) fn nested(
    alloc: Global,
    before: &[u8],
    (open, times, inside, close): (&[u8], usize, &[u8], &[u8]),
    after: &[u8],
) -> Result<Vec<u8>, AllocError> {
    let mut text = Vec::from_slice(alloc, before)?;
    for _ in 0..times {
        text.extend_from_slice(open)?;
    }
    text.extend_from_slice(inside)?;
    for _ in 0..times {
        text.extend_from_slice(close)?;
    }
    text.extend_from_slice(after)?;
    Ok(text)
}
