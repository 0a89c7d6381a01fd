//! Tokens and refusals of texts.

mod forms;
mod places;
mod refusals;
mod words;

use crate::text::lexed;
use c_tokens::{Keyword, Kind, Mark, Token};
use std::alloc::Global;
use std::process::Abort;
use std::test::Fail;

/// What a token is to be.
#[derive(Clone, Copy)]
enum Want {
    Word(Keyword),
    Name(&'static [u8]),
    Number(i64),
    Text(&'static [u8]),
    Mark(Mark),
}

fn is_wanted(kind: &Kind, want: &Want) -> bool {
    match (kind, want) {
        (Kind::Word(found), Want::Word(wanted)) => found == wanted,
        (Kind::Name(found), Want::Name(wanted)) => found.as_slice() == *wanted,
        (Kind::Number(found), Want::Number(wanted)) => found == wanted,
        (Kind::Text(found), Want::Text(wanted)) => found.as_slice() == *wanted,
        (Kind::Mark(found), Want::Mark(wanted)) => found == wanted,
        _ => false,
    }
}

/// The text has tokens of just these kinds.
fn expect_kinds(
    rt: &impl Abort,
    alloc: Global,
    source: &[u8],
    wanted: &[Want],
) -> Result<(), Fail> {
    let tokens = lexed(rt, alloc, source)?;
    assert!(rt; tokens.len() == wanted.len(), "in {source:?}");
    for (token, want) in tokens.as_slice().iter().zip(wanted) {
        assert!(rt; is_wanted(&token.kind, want), "in {source:?}");
    }
    Ok(())
}
