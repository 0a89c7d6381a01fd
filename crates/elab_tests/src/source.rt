//! The program of a source.

use c_parser::parse;
use c_tokens::lex;
use c_typing::check;
use core_ir::Program;
use elab::{ElabRefusal, LimitName, elaborate};
use std::alloc::Global;
use std::test::Fail;

/// What is answered of a source that typing allows.
pub(crate) fn answer(alloc: Global, source: &[u8]) -> Result<Result<Program, ElabRefusal>, Fail> {
    if source.len() > 100_000 {
        return Err(Fail::from("a long source"));
    }
    let tokens = lex(alloc, source)?;
    if tokens.len() > 100_000 {
        return Err(Fail::from("many tokens"));
    }
    let unit = parse(alloc, &tokens)?;
    if unit.items.len() > 100_000 {
        return Err(Fail::from("many items"));
    }
    let typed = check(alloc, &unit)?;
    Ok(elaborate(alloc, &typed))
}

/// The program of a source with `int main(void){return 0;}` behind it.
pub(crate) fn program(alloc: Global, source: &[u8]) -> Result<Program, Fail> {
    let mut text = Vec::from_slice(alloc, source)?;
    text.extend_from_slice(b"int main(void){return 0;}".as_slice())?;
    Ok(answer(alloc, text.as_slice())??)
}

/// The limit that a source passes, if it is refused by one.
pub(crate) fn limit(alloc: Global, source: &[u8]) -> Result<Option<LimitName>, Fail> {
    match answer(alloc, source)? {
        Ok(_) => Ok(None),
        Err(ElabRefusal::Limit { which }) => Ok(Some(which)),
        Err(ElabRefusal::Memory) => Err(Fail::from("no memory")),
    }
}
