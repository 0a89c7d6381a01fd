//! What is answered of a source.

use c_parser::parse;
use c_tokens::lex;
use c_typing::{CheckRefusal, check};
use std::alloc::Global;
use std::process::Abort;
use std::test::Fail;

/// What is answered of a source that the grammar has.
#[derive(Clone, Copy, Debug, PartialEq, Eq)]
pub(crate) enum Verdict {
    Accepted,
    /// The item and the rule.
    Refused(u32, u8),
    NoMemory,
}

impl Verdict {
    /// A rule's number in an item, and 0 where none is broken.
    pub(crate) fn of(item: u32, rule: u8) -> Verdict {
        if rule == 0 {
            Verdict::Accepted
        } else {
            Verdict::Refused(item, rule)
        }
    }
}

/// What is answered of a source with `int main(void){return 0;}` behind it.
pub(crate) fn verdict_of(alloc: Global, source: &[u8]) -> Result<Verdict, Fail> {
    let mut text = Vec::from_slice(alloc, source)?;
    text.extend_from_slice(b"int main(void){return 0;}".as_slice())?;
    verdict_of_whole(alloc, text.as_slice())
}

/// What is answered of a source as it is.
pub(crate) fn verdict_of_whole(alloc: Global, source: &[u8]) -> Result<Verdict, Fail> {
    if source.len() > 100_000 {
        return Err(Fail::from("a long source"));
    }
    let tokens = lex(alloc, source)?;
    if tokens.len() > 10_000 {
        return Err(Fail::from("many tokens"));
    }
    let unit = parse(alloc, &tokens)?;
    if unit.items.len() > 10_000 {
        return Err(Fail::from("many items"));
    }
    Ok(match check(alloc, &unit) {
        Ok(_) => Verdict::Accepted,
        Err(CheckRefusal::Rule { item, rule }) => Verdict::Refused(item, rule),
        Err(CheckRefusal::Memory) => Verdict::NoMemory,
    })
}

/// A source, and the item and the number of the first rule that is broken, or 0 where none is.
pub(crate) type Row = (&'static [u8], u32, u8);

/// What was found of a source is what is wanted.
pub(crate) fn expect(rt: &impl Abort, source: &[u8], found: Verdict, want: Verdict) {
    assert_eq!(rt; found, want, "of {source:?}");
}

/// Each source, with `int main(void){return 0;}` behind it, is answered so.
pub(crate) fn expect_all(rt: &impl Abort, alloc: Global, rows: &[Row]) -> Result<(), Fail> {
    for (source, item, rule) in rows {
        let found = verdict_of(alloc, source)?;
        expect(rt, source, found, Verdict::of(*item, *rule));
    }
    Ok(())
}
