//! Sources of several items, and type definitions.

use super::*;
use Want::{Items, Syntax};

#[test]
fn tells_items_from_refusals(rt: HostRuntime) -> Result<(), Fail> {
    const ROWS: [Row; 26] = [
        // Whole sources.
        (b"", Items(0)),
        (b"typedef int t; t x;", Items(2)),
        (b"t x;", Syntax(0)),
        (b"int a; int b", Syntax(1)),
        (b"int a; int b; int c; int d", Syntax(3)),
        (b"int x; x y;", Syntax(1)),
        (b"int;", Items(1)),
        (b"int f(void){} ;", Syntax(1)),
        (b"int a b;", Syntax(0)),
        (b"int f(void){return 0;} int g(void){return 1;}", Items(2)),
        (b"int a{}", Items(1)),
        // Type definitions.
        (b"typedef int t, *p; t x; p y;", Items(3)),
        (b"typedef int;", Syntax(0)),
        (b"typedef int t = 3;", Syntax(0)),
        (b"typedef struct n n; struct n{int x;};", Syntax(1)),
        (b"typedef int t; struct s{int t;};", Syntax(1)),
        (b"typedef int t; int f(int t){}", Syntax(1)),
        (b"typedef int t; int f(void){int t;}", Syntax(1)),
        (b"typedef int t; int f(void){t x; return x;}", Items(2)),
        (b"typedef int t; int x = t;", Syntax(1)),
        (b"typedef int t; int x = a.t;", Syntax(1)),
        (b"typedef int t; int x = a->t;", Syntax(1)),
        (b"typedef int t, f(int t);", Items(1)),
        (b"typedef int t; int f(t);", Items(2)),
        (b"typedef int t; int f(t t);", Syntax(1)),
        (b"typedef int (*t)(int); t x;", Items(2)),
    ];
    expect_all(&rt, rt.alloc(), &ROWS)
}
