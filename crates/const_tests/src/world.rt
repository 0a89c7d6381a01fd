//! Where the expressions of the tests stand, and what is answered of them.

use c_const::{ConstRefusal, TypeTable, constant};
use c_expr::expression;
use c_tokens::lex;
use c_tree::{Expr, TypeNames};
use c_types::{Member, Name, StructTable, Ty, copy_name};
use shared::Shared;
use sqlite_items::Items;
use std::alloc::{AllocError, Global};
use std::test::Fail;

/// What `constant` answers of an expression.
#[derive(Clone, Copy, Debug, PartialEq, Eq)]
pub(crate) enum Answer {
    Value(i64),
    NotConstant,
    Divide,
    NoMemory,
}

/// A name of this text.
fn name(alloc: Global, text: &[u8]) -> Result<Name, AllocError> {
    Ok(Name::new(Vec::from_slice(alloc, text)?))
}

/// `struct s { char c; int a[2]; };` and `struct u;`
fn structs(alloc: Global) -> Result<StructTable, Fail> {
    let mut table = StructTable::new(alloc);
    let s = table.declare(name(alloc, b"s")?)?;
    let _u = table.declare(name(alloc, b"u")?)?;
    let mut members = Items::new(alloc);
    members.push(Member {
        name: name(alloc, b"c")?,
        ty: Ty::Char,
    })?;
    members.push(Member {
        name: name(alloc, b"a")?,
        ty: Ty::Array(Shared::new(alloc, Ty::Int)?, 2),
    })?;
    if !table.can_define(s, &members) {
        return Err(Fail::from("no struct may have these members"));
    }
    table.define(s, members)?;
    Ok(table)
}

/// `typedef char c;` and `typedef int t[3];`
fn type_names(alloc: Global) -> Result<TypeTable, AllocError> {
    let mut names = Items::new(alloc);
    names.push((name(alloc, b"c")?, Ty::Char))?;
    names.push((
        name(alloc, b"t")?,
        Ty::Array(Shared::new(alloc, Ty::Int)?, 3),
    ))?;
    Ok(names)
}

/// The whole of a source as one expression.
fn parsed(alloc: Global, source: &[u8], types: &TypeTable) -> Result<Expr, Fail> {
    let mut names: TypeNames = Items::new(alloc);
    for entry in types.as_slice() {
        names.push(copy_name(alloc, &entry.0)?)?;
    }
    if source.len() > 10_000 {
        return Err(Fail::from("a long source"));
    }
    let tokens = lex(alloc, source)?;
    if tokens.len() > 10_000 {
        return Err(Fail::from("many tokens"));
    }
    let Some((expr, end)) = expression(alloc, &tokens, 0, &names, 200)? else {
        return Err(Fail::from("no expression"));
    };
    if end as usize != tokens.len() {
        return Err(Fail::from("an expression in front alone"));
    }
    Ok(expr)
}

/// What `constant` answers of a source.
pub(crate) fn answer_of(alloc: Global, source: &[u8]) -> Result<Answer, Fail> {
    let types = type_names(alloc)?;
    let expr = parsed(alloc, source, &types)?;
    Ok(match constant(alloc, &expr, &structs(alloc)?, &types) {
        Ok(value) => Answer::Value(value),
        Err(ConstRefusal::NotConstant) => Answer::NotConstant,
        Err(ConstRefusal::Divide) => Answer::Divide,
        Err(ConstRefusal::Memory) => Answer::NoMemory,
    })
}
