//! What the tokens ahead look like.

ghost use Rattle.std.specs.Prelude.{◌≡◌, IfOk};
ghost use Rattle.std.specs.Option.{option_copied};
ghost use Rattle.c_readers.specs.inner.Parser as parser;
ghost use Rattle.c_readers.specs.inner.Readers as reader;
ghost use Rattle.c_readers.specs.inner.Reads.{Reads};

use crate::cursor::{Cursor, is_mark};
use crate::error::Failure;
use crate::names::Names;
use c_tokens::{Keyword, Kind, Mark, Spelling};
use c_types::Name;
use std::alloc::{AllocError, Global};

/// The name with this spelling.
pub fn name_of(alloc: Global, spelling: &Spelling) -> Result<Name, AllocError>
    ensures { IfOk result (λ name. name ≡ spelling.now) }
{
    Ok(Name::new(Vec::from_slice(alloc, spelling.as_slice())?))
}

/// Whether a spec can begin with this token.
pub fn kind_begins_spec(names: &Names, kind: &Kind) -> bool
    ensures { result ≡ reader.kind_begins_spec names.now kind.now }
{
    match kind {
        Kind::Word(Keyword::Int | Keyword::Char | Keyword::Void | Keyword::Struct) => true,
        Kind::Name(name) => names.contains(name.as_slice()),
        _ => false,
    }
}

/// Whether a spec can begin with the next token.
pub fn begins_spec(names: &Names, tokens: &Cursor<'_>) -> bool
    ensures { result ≡ reader.begins_spec names.now tokens.now }
{
    match tokens.peek() {
        Some(kind) => kind_begins_spec(names, kind),
        None => false,
    }
}

/// Whether a spec can begin behind the next token.
fn begins_spec_behind(names: &Names, tokens: &Cursor<'_>) -> bool
    ensures { result ≡ reader.begins_spec names.now (parser.behind tokens.now) }
{
    match tokens.peek_behind() {
        Some(kind) => kind_begins_spec(names, kind),
        None => false,
    }
}

/// Whether a parenthesis and a type behind it come next.
pub fn opens_type(names: &Names, tokens: &Cursor<'_>) -> bool
    ensures { result ≡ reader.opens_type names.now tokens.now }
{
    tokens.sees(Mark::LeftParenthesis) && begins_spec_behind(names, tokens)
}

/// Takes the parentheses that come next and have no type behind them, and answers how many they are.
pub fn opened(names: &Names, tokens: &mut Cursor<'_>) -> usize
    ensures { reader.opened names.now tokens.old ≡ (result, tokens.new) }
{
    let left = tokens.left();
    for count in 0..left {
        if !tokens.sees(Mark::LeftParenthesis) || begins_spec_behind(names, tokens) {
            return count;
        }
        tokens.skip();
    }
    left
}

/// Takes a name that is no type name.
#[tactic(auto, unfolding(crate::specs::inner::Readers::free_name))]
pub fn free_name(alloc: Global, names: &Names, tokens: &mut Cursor<'_>) -> Result<Name, Failure>
    ensures { Reads (reader.free_name names.now tokens.old) result tokens.new }
{
    match tokens.peek() {
        Some(Kind::Name(name)) => {
            if names.contains(name.as_slice()) {
                return Err(Failure::Mismatch);
            }
            tokens.skip();
            Ok(name_of(alloc, name)?)
        }
        _ => Err(Failure::Mismatch),
    }
}

/// Whether this is a name and no type name.
fn is_free(names: &Names, kind: &Kind) -> bool
    ensures { result ≡ reader.kind_is_free names.now kind.now }
{
    match kind {
        Kind::Name(name) => !names.contains(name.as_slice()),
        _ => false,
    }
}

/// Whether a name that is no type name stands behind the parentheses and stars that come next.
pub fn looks_named(names: &Names, tokens: &Cursor<'_>) -> bool
    ensures { result ≡ reader.looks_named names.now tokens.now }
{
    for token in tokens.place() {
        let kind = &token.kind;
        if !is_mark(kind, Mark::LeftParenthesis) && !is_mark(kind, Mark::Star) {
            return is_free(names, kind);
        }
    }
    false
}
