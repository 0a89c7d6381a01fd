//! Whole sources: their items, their trees, and what is written of a tree.

mod declarations;
mod items;
mod limits;
mod statements;
mod trees;

use crate::text::{lexed, nested};
use c_parser::{ParseRefusal, parse};
use c_tree::{Unit, print_unit};
use std::alloc::Global;
use std::process::Abort;
use std::test::Fail;

/// What a source is to give: so many items, or a refusal behind so many.
#[derive(Clone, Copy, Debug, PartialEq, Eq)]
enum Want {
    Items(usize),
    Syntax(u32),
}

/// What `parse` answers of the tokens of a short text.
fn parsed(
    rt: &impl Abort,
    alloc: Global,
    source: &[u8],
) -> Result<Result<Unit, ParseRefusal>, Fail> {
    let tokens = lexed(rt, alloc, source)?;
    Ok(parse(alloc, &tokens))
}

/// What a source gave.
fn given(answer: Result<Unit, ParseRefusal>) -> Result<Want, Fail> {
    match answer {
        Ok(unit) => Ok(Want::Items(unit.items.len())),
        Err(ParseRefusal::Syntax { item }) => Ok(Want::Syntax(item)),
        Err(ParseRefusal::Memory) => Err(Fail::from(ParseRefusal::Memory)),
    }
}

/// The source gives what is wanted.
fn expect(rt: &impl Abort, alloc: Global, source: &[u8], want: Want) -> Result<(), Fail> {
    let found = given(parsed(rt, alloc, source)?)?;
    assert_eq!(rt; found, want, "in {source:?}");
    Ok(())
}

/// A source, and what it is to give.
type Row = (&'static [u8], Want);

/// Each source gives what is wanted.
fn expect_all(rt: &impl Abort, alloc: Global, rows: &[Row]) -> Result<(), Fail> {
    for (source, want) in rows {
        expect(rt, alloc, source, *want)?;
    }
    Ok(())
}

/// The source is one item, or none.
fn expect_one(rt: &impl Abort, alloc: Global, source: &[u8], is_one: bool) -> Result<(), Fail> {
    let want = if is_one {
        Want::Items(1)
    } else {
        Want::Syntax(0)
    };
    expect(rt, alloc, source, want)
}

/// What is nested so is one item, or none.
fn expect_nested(
    rt: &impl Abort,
    alloc: Global,
    before: &[u8],
    inside: (&[u8], usize, &[u8], &[u8]),
    after: &[u8],
    is_one: bool,
) -> Result<(), Fail> {
    let source = nested(alloc, before, inside, after)?;
    expect_one(rt, alloc, source.as_slice(), is_one)
}
