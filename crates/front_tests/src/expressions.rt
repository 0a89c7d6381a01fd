//! The longest expression at a place.

use crate::text::lexed;
use c_expr::expression;
use c_tree::{Expr, TypeNames};
use c_types::Name;
use sqlite_items::Items;
use std::alloc::{AllocError, Global};
use std::process::Abort;
use std::test::Fail;

/// A source, the place to begin at, the greatest depth, and the place behind the expression.
type Row = (&'static [u8], u32, u32, Option<u32>);

/// The place behind an expression that was found.
fn end_of(found: (Expr, u32)) -> u32 {
    found.1
}

/// The place behind the longest expression of a row.
fn found(
    rt: &impl Abort,
    alloc: Global,
    row: &Row,
    names: &TypeNames,
) -> Result<Option<u32>, Fail> {
    let tokens = lexed(rt, alloc, row.0)?;
    match expression(alloc, &tokens, row.1, names, row.2)? {
        Some(found) => Ok(Some(end_of(found))),
        None => Ok(None),
    }
}

/// `t` is a type name.
fn type_names(alloc: Global) -> Result<TypeNames, AllocError> {
    let mut names = Items::new(alloc);
    names.push(Name::new(Vec::from_slice(alloc, b"t")?))?;
    Ok(names)
}

#[test]
fn finds_the_longest_expression(rt: HostRuntime) -> Result<(), Fail> {
    const ROWS: [Row; 41] = [
        (b"a+b*c", 0, 3, Some(5)),
        (b"a+b*c", 0, 2, Some(3)),
        (b"a+b*c", 0, 1, Some(1)),
        (b"a+b*c", 0, 0, None),
        (b"a+b*c", 2, 9, Some(5)),
        (b"a+b*c", 1, 9, None),
        (b"a+b*c", 5, 9, None),
        (b"a+b*c", 6, 9, None),
        (b"a*b+c", 0, 2, Some(3)),
        (b"a+b+c", 0, 2, Some(3)),
        (b"a+b[c]", 0, 2, Some(3)),
        (b"a[b]+c", 0, 2, Some(4)),
        (b"a=b=c", 0, 2, Some(3)),
        (b"a=b+", 0, 9, Some(3)),
        (b"a+b=c", 0, 9, Some(3)),
        (b"a?b", 0, 9, Some(1)),
        (b"a?b:", 0, 9, Some(1)),
        (b"a?b:c?d", 0, 9, Some(5)),
        (b"f(a", 0, 9, Some(1)),
        (b"f(a,", 0, 9, Some(1)),
        (b"f(a)(b)[", 0, 9, Some(7)),
        (b"f()->x.y++--;", 0, 9, Some(9)),
        (b"a b", 0, 9, Some(1)),
        (b"a++b", 0, 9, Some(2)),
        (b"a--->b", 0, 9, Some(4)),
        (b"- -a", 0, 3, Some(3)),
        (b"- -a", 0, 2, None),
        (b"(a", 0, 9, None),
        (b")", 0, 9, None),
        (b"", 0, 9, None),
        (b"((((((((a))))))))", 0, 1, Some(17)),
        (b"(((((((((a)))))))))", 0, 9, None),
        (b"(((((((((a))))))))+b)", 0, 2, Some(21)),
        (b"t", 0, 9, None),
        (b"a.t", 0, 9, Some(1)),
        (b"(t)a", 0, 9, Some(4)),
        (b"(t)", 0, 9, None),
        (b"(u)a", 0, 9, Some(3)),
        (b"sizeof(t)a", 0, 9, Some(4)),
        (b"sizeof(u)[1]", 0, 9, Some(7)),
        (b"sizeof(t*(*)[2])*a", 0, 9, Some(13)),
    ];
    let names = type_names(rt.alloc())?;
    for row in &ROWS {
        let end = found(&rt, rt.alloc(), row, &names)?;
        assert!(rt;
            end == row.3,
            "in {:?} at {}, depth {}",
            row.0,
            row.1,
            row.2
        );
    }
    Ok(())
}
