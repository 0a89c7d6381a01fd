//! Items.

ghost use Rattle.std.specs.Prelude.{◌≡◌, ◌≤◌, ◌<◌, ◌^◌, map, IfOk};
ghost use Rattle.c_tree.specs.DeclaredName.{declared_name};
ghost use Rattle.c_readers.specs.inner.Reads.{Reads};
ghost use Rattle.c_parser.specs.inner.Readers as reader;
ghost use Rattle.c_statements.specs.inner.Readers.{of_depth};

use c_expr::{declarator, spec};
use c_readers::{Cursor, Failure, Names};
use c_statements::{block, decl_of, eat_word};
use c_tokens::{Keyword, Mark};
use c_tree::{Decl, Declarator, Item, Spec};
use c_types::{Name, copy_name};
use sqlite_items::Items;
use std::alloc::{AllocError, Global};

/// The names that declarators declare.
fn declared_names(alloc: Global, declarators: &[Declarator]) -> Result<Items<Name>, AllocError>
    ensures { IfOk result (λ new. new ≡ map declared_name declarators.now) }
{
    let mut names = Items::new(alloc);
    for declarator in declarators {
        names.push(copy_name(alloc, declarator.name())?)?;
    }
    Ok(names)
}

/// The declarators of a type definition.
fn types(
    alloc: Global,
    names: &Names,
    tokens: &mut Cursor<'_>,
    depth: usize,
) -> Result<Items<Declarator>, Failure>
    requires { depth < 2 ^ 31 }
    ensures { Reads (of_depth reader.types names.now depth tokens.old) result tokens.new }
{
    let mut found = Items::new(alloc);
    for _turn in 0..tokens.left() {
        let (declarator, _) = declarator(alloc, names, tokens, depth)?;
        found.push(declarator)?;
        if !tokens.eat(Mark::Comma) {
            return Ok(found);
        }
    }
    Err(Failure::Mismatch)
}

/// A type definition, behind its `typedef`.
#[tactic(auto, unfolding(crate::specs::inner::Readers::type_definition))]
fn type_definition(
    alloc: Global,
    names: &Names,
    tokens: &mut Cursor<'_>,
    depth: usize,
) -> Result<(Item, Items<Name>), Failure>
    requires { depth < 2 ^ 31 }
    ensures { Reads (of_depth reader.type_definition names.now depth tokens.old) result tokens.new }
{
    let (spec, _) = spec(alloc, names, tokens, depth)?;
    let declarators = types(alloc, names, tokens, depth)?;
    tokens.expect(Mark::Semicolon)?;
    let new = declared_names(alloc, declarators.as_slice())?;
    Ok((Item::Typedef(spec, declarators), new))
}

/// An item from its first declarator on, which was read, as its spec was.
#[tactic(auto, unfolding(crate::specs::inner::Readers::item_of))]
fn item_of(
    alloc: Global,
    names: &Names,
    tokens: &mut Cursor<'_>,
    depth: usize,
    spec: (Spec, usize),
    first: (Declarator, usize),
) -> Result<(Item, Items<Name>), Failure>
    requires few { depth < 2 ^ 31 }
    requires low { spec.1 ≤ depth }
    requires first_low { first.1 ≤ depth }
    ensures { Reads (of_depth (λ names r init inner. reader.item_of names r init inner spec first) names.now depth tokens.old) result tokens.new }
{
    let new = Items::new(alloc);
    if tokens.sees(Mark::LeftBrace) {
        let (body, _) = block(alloc, names, tokens, depth)?;
        return Ok((Item::Function(spec.0, first.0, body), new));
    }
    let (decl, _) = decl_of(alloc, names, tokens, depth, spec, first)?;
    Ok((Item::Decl(decl), new))
}

/// An item that is no type definition.
#[tactic(auto, unfolding(crate::specs::inner::Readers::untyped))]
fn untyped(
    alloc: Global,
    names: &Names,
    tokens: &mut Cursor<'_>,
    depth: usize,
) -> Result<(Item, Items<Name>), Failure>
    requires { depth < 2 ^ 31 }
    ensures { Reads (of_depth reader.untyped names.now depth tokens.old) result tokens.new }
{
    let (spec, height) = spec(alloc, names, tokens, depth)?;
    if tokens.eat(Mark::Semicolon) {
        let declarators = Items::new(alloc);
        let none = Decl { spec, declarators };
        return Ok((Item::Decl(none), Items::new(alloc)));
    }
    let first = declarator(alloc, names, tokens, depth)?;
    item_of(alloc, names, tokens, depth, (spec, height), first)
}

/// An item, and the type names that it declares.
#[tactic(auto, unfolding(crate::specs::inner::Readers::item, crate::specs::inner::Readers::item_over))]
pub(crate) fn item(
    alloc: Global,
    names: &Names,
    tokens: &mut Cursor<'_>,
    depth: usize,
) -> Result<(Item, Items<Name>), Failure>
    requires { depth < 2 ^ 31 }
    ensures { Reads (reader.item names.now depth tokens.old) result tokens.new }
{
    if eat_word(tokens, Keyword::Typedef) {
        type_definition(alloc, names, tokens, depth)
    } else {
        untyped(alloc, names, tokens, depth)
    }
}
