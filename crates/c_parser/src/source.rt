//! Whole sources.

ghost use Rattle.std.specs.Prelude.{◌≡◌, ◌≤◌, ◌<◌, ◌^◌, ◌++◌, ℕ, Ok, Err, IfOk, OnOk, length};
ghost use Rattle.c_tree.specs.declared.statement.Unit.{Unit as Source};
ghost use Rattle.c_tree.specs.Marks.{kinds_of};
ghost use Rattle.c_tree.specs.Statements.{SourceReads, IsSyntaxRefusal};
ghost use Rattle.c_tokens.specs.Answer.{IsAnswer};
ghost use Rattle.c_parser.specs.declared.error.ParseRefusal.TheVariants.{Syntax, Memory};
ghost use Rattle.c_parser.specs.inner.Readers as reader;

use crate::error::ParseRefusal;
use crate::items::item;
use c_expr::expression_laws;
use c_readers::{Cursor, Failure, Names};
use c_tokens::Tokens;
use c_tree::{Item, Unit, declarators_declare_their_names};
use c_types::{Name, copy_name};
use sqlite_items::Items;
use std::alloc::{AllocError, Global};

/// An item's nodes are at most this many deep.
const GREATEST_DEPTH: usize = 200;

/// Adds the names.
fn add(alloc: Global, names: &mut Names, new: &Items<Name>) -> Result<(), AllocError>
    ensures { OnOk result (names.new ≡ names.old ++ new.now) }
{
    for name in new.as_slice() {
        names.push(copy_name(alloc, name)?)?;
    }
    Ok(())
}

/// Items one after another for as long as one begins the tokens, and how many tokens are left.
fn items_of(alloc: Global, tokens: &mut Cursor<'_>) -> Result<(Items<Item>, usize), AllocError>
    requires { length tokens.old < 2 ^ 31 }
    ensures items { IfOk result (λ found. found.0 ≡ (reader.source_of tokens.old).0) }
    ensures left { IfOk result (λ found. found.1 ≡ length (reader.source_of tokens.old).1) }
    ensures few { IfOk result (λ found. length found.0 ≤ length tokens.old) }
{
    let mut names = Names::new(alloc);
    let mut found = Items::new(alloc);
    for _turn in 0..tokens.left() {
        let left = tokens.left();
        match item(alloc, &names, tokens, GREATEST_DEPTH) {
            Ok((item, new)) => {
                found.push(item)?;
                add(alloc, &mut names, &new)?;
            }
            Err(Failure::Mismatch) => return Ok((found, left)),
            Err(Failure::Memory) => return Err(AllocError),
        }
    }
    Ok((found, tokens.left()))
}

/// The source that the tokens are: its items, each with nodes at most 200 deep, and at most as many as tokens.
///
/// Where the tokens are no source, `Syntax` has the number of items behind which tokens are left that no item begins.
/// `Memory` can come in place of every other answer.
pub fn parse(alloc: Global, tokens: &Tokens) -> Result<Unit, ParseRefusal>
    requires { length tokens.now < 2 ^ 31 }
    ensures found { IfOk result (SourceReads (kinds_of tokens.now)) }
    ensures count { IfOk result (λ source. length source.items ≤ length tokens.now) }
    ensures only { (source : Source) → SourceReads (kinds_of tokens.now) source → IsAnswer Memory result (Ok source) }
    ensures refused { (count : ℕ) → result ≡ Err (Syntax count) → IsSyntaxRefusal (kinds_of tokens.now) count }
    ensures refuses { (count : ℕ) → IsSyntaxRefusal (kinds_of tokens.now) count → IsAnswer Memory result (Err (Syntax count)) }
{
    expression_laws();
    declarators_declare_their_names();
    let mut cursor = Cursor::new(tokens.as_slice());
    let (items, left) = items_of(alloc, &mut cursor)?;
    if left == 0 {
        Ok(Unit { items })
    } else {
        Err(ParseRefusal::Syntax {
            item: items.len() as u32,
        })
    }
}
