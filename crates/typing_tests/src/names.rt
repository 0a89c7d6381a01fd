//! Names: what is declared, twice or not at all, used and not defined.

use crate::source::{Row, expect_all};
use std::test::Fail;

#[test]
fn names_are_declared_before_they_are_used(rt: HostRuntime) -> Result<(), Fail> {
    const ROWS: [Row; 25] = [
        (b"void t(void){x;}", 0, 1),
        (b"void t(void){int x;x;}", 0, 0),
        (b"int x=x;", 0, 16),
        (b"int y=x;int x;", 0, 1),
        (b"int x;int x2[sizeof y];", 1, 1),
        (b"int x; int a[y];", 1, 1),
        (b"void t(void){{int x;}x;}", 0, 1),
        (b"void t(void){for(int i=0;;)i;i;}", 0, 1),
        (b"void f(int n);int m[n];", 1, 1),
        (b"int (*f(int n))(int a[n]){return 0;}", 0, 1),
        (b"void t(void){print;}", 0, 1),
        (b"void t(void){(print)(1);}", 0, 0),
        (b"void t(void){sizeof malloc;}", 0, 1),
        (b"void t(void){&print;}", 0, 1),
        (b"void t(void){print=0;}", 0, 1),
        (b"typedef int t,x[sizeof t];", 0, 1),
        (b"int x={nowhere};", 0, 1),
        (b"int f(int a,int b[a]);", 0, 16),
        (b"int x[sizeof x];", 0, 1),
        (b"void t(void){print(print);}", 0, 1),
        (b"void t(void){(*print)(1);}", 0, 1),
        (b"void g(void){{int f(void);}f();}", 0, 1),
        (b"void g(void){int f(void);}void h(void){f();}", 1, 1),
        (b"void t(void){int x=x;}", 0, 0),
        (b"int f(void){return f();}", 0, 0),
    ];
    expect_all(&rt, rt.alloc(), &ROWS)
}

#[test]
fn a_scope_has_a_name_once(rt: HostRuntime) -> Result<(), Fail> {
    const ROWS: [Row; 34] = [
        (b"int x;int x;", 1, 2),
        (b"int x;char x;", 1, 2),
        (b"int x;void x(void);", 1, 2),
        (b"void f(void);void f(void);void f(void){}", 0, 0),
        (b"void f(void);int f(void);", 1, 2),
        (b"void f(void){}void f(void){}", 1, 2),
        (b"void t(void){int x;int x;}", 0, 2),
        (b"void t(void){int x;{int x;}}", 0, 0),
        (b"int f(int n){int n;return 0;}", 0, 2),
        (b"int f(int n){{int n;}return 0;}", 0, 0),
        (b"void f(int a,int a);", 0, 2),
        (b"void f(int a){for(int a=0;;){int a;}}", 0, 0),
        (b"typedef int t;int u;typedef int u;", 2, 2),
        (b"int print;", 0, 2),
        (b"void print(int);", 0, 0),
        (b"void print(void);", 0, 2),
        (b"void print(int n){}", 0, 2),
        (b"void t(void){int print;}", 0, 2),
        (b"void f(int print);", 0, 2),
        (b"struct print{int print;};", 0, 0),
        (b"typedef void print(int);", 0, 2),
        (b"typedef int t,f(int t);", 0, 2),
        (b"void g(void){int f(void);}char f(void);", 1, 2),
        (b"void g(void){int f(void);}int f;", 0, 0),
        (b"void g(void){int f(void);int f(void);}", 0, 0),
        (b"void x(void);int x;", 1, 2),
        (b"void g(void){int f;int f(void);}", 0, 2),
        (b"void g(void){int f(void);int f;}", 0, 2),
        (b"int f;void g(void){int f(void);}", 0, 0),
        (b"typedef int t,t;", 0, 2),
        (b"int f(void){return 0;}char f(void){return 0;}", 1, 2),
        (
            b"void g(void){int f(void);}void h(void){char f(void);}",
            1,
            2,
        ),
        (b"void t(void){void print(int);}", 0, 0),
        (b"typedef void fn(int);fn print;", 0, 0),
    ];
    expect_all(&rt, rt.alloc(), &ROWS)
}

#[test]
fn functions_that_are_used_are_defined(rt: HostRuntime) -> Result<(), Fail> {
    const ROWS: [Row; 11] = [
        (b"void f(int);int g(void){f(1);return 0;}", 0, 6),
        (b"void f(int);void g(void){f(1);}void f(int n){}", 0, 0),
        (b"void f(int);", 0, 0),
        (b"void f(void);void t(void){sizeof &f;}", 0, 6),
        (
            b"int x;void f(void);void g(void);void t(void){g();f();}",
            1,
            6,
        ),
        (b"void f(void);void (*p)(void)=f;", 0, 6),
        (b"void t(void){int f(void);0?f():f();}", 0, 6),
        (b"void t(void){print(1);}", 0, 0),
        (b"int x;void g(void){void f(void);f();}", 1, 6),
        (
            b"void g(void){void f(void);}void h(void){void f(void);f();}",
            0,
            6,
        ),
        (b"void t(void){int f(void);}", 0, 0),
    ];
    expect_all(&rt, rt.alloc(), &ROWS)
}
