//! Declarations: type words, declarators and initialisers.

use super::*;
use Want::{Items, Syntax};

#[test]
fn tells_declarations_from_refusals(rt: HostRuntime) -> Result<(), Fail> {
    const ROWS: [Row; 40] = [
        // Type words.
        (b"struct s; struct s {int a; char *b, c;} x;", Items(2)),
        (b"struct {int a;} x;", Syntax(0)),
        (b"struct s {};", Syntax(0)),
        (b"struct s {int;};", Syntax(0)),
        (b"struct s {int a}", Syntax(0)),
        (b"struct s {struct t {int a;} b;};", Items(1)),
        (b"int f(struct s {int a;} *p);", Items(1)),
        (b"int x = sizeof(struct s {int a;});", Syntax(0)),
        (b"int x = sizeof(struct s);", Items(1)),
        (b"unsigned x;", Syntax(0)),
        // Declarators.
        (b"int a, *b, c[3], f(int);", Items(1)),
        (b"int (*(*f)(int))[3];", Items(1)),
        (b"int *(*x);", Items(1)),
        (b"int (f)(int a){}", Items(1)),
        (b"int x[];", Items(1)),
        (b"int x[3][4];", Items(1)),
        (b"int x[a=1];", Syntax(0)),
        (b"int x[(a=1)];", Items(1)),
        (b"int x[a?b:c];", Items(1)),
        (b"int f();", Items(1)),
        (b"int f(void);", Items(1)),
        (b"int f(void, int);", Items(1)),
        (b"int f(void *);", Items(1)),
        (b"int f(int,);", Syntax(0)),
        (b"int f(a);", Syntax(0)),
        (
            b"int f(int a, char*, int (*)[3], int (*g)(int), int (int), int[]);",
            Items(1),
        ),
        (b"int f(int (*));", Items(1)),
        (b"int f(int ((*)));", Syntax(0)),
        (b"int f(int (*(*)(int))[3]);", Items(1)),
        (b"int f(int (x));", Items(1)),
        (b"int f(int ());", Items(1)),
        (b"int f(int *const);", Syntax(0)),
        // Initialisers.
        (b"int a[] = {1, 2, 3,};", Items(1)),
        (b"int a = {};", Syntax(0)),
        (b"int a = {,};", Syntax(0)),
        (b"int a = {1,,2};", Syntax(0)),
        (b"int a[] = {{1}, {2,},};", Items(1)),
        (b"char s[] = \"ab\";", Items(1)),
        (b"int a = 1, b = 2;", Items(1)),
        (b"int a = 1, b = 2,;", Syntax(0)),
    ];
    expect_all(&rt, rt.alloc(), &ROWS)
}
