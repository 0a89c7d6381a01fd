//! Types that are declared: units, bounds, parts, tags and forms.

use crate::source::{Row, expect_all};
use std::test::Fail;

#[test]
fn declared_types_have_units(rt: HostRuntime) -> Result<(), Fail> {
    const ROWS: [Row; 46] = [
        (b"void x;", 0, 3),
        (b"struct s;struct s x;", 1, 3),
        (b"struct s;struct s *x;", 0, 0),
        (b"struct s{struct s x;};", 0, 3),
        (b"struct s{struct s *x;};", 0, 0),
        (b"int a[0];", 0, 3),
        (b"int a[65536];", 0, 0),
        (b"int a[65537];", 0, 3),
        (b"int a[-1];", 0, 3),
        (b"int a[2][32768];", 0, 0),
        (b"int a[2][32769];", 0, 3),
        (b"int a[];", 0, 3),
        (b"int a[]={1};", 0, 0),
        (b"int a[][2]={{1}};", 0, 0),
        (b"int a[2][]={{1}};", 0, 3),
        (b"void a[2];", 0, 3),
        (b"void (a[2])(void);", 0, 3),
        (b"struct s{void x;};", 0, 3),
        (b"void t(void){sizeof(void);}", 0, 3),
        (b"void t(void){sizeof(struct s);}", 0, 3),
        (b"void t(void){sizeof t;}", 0, 3),
        (b"int f(int a[]);", 0, 3),
        (b"int f(int a[2]);", 0, 0),
        (b"int f(int a[][2]);", 0, 3),
        (b"int b[2];int a[]=b;", 1, 3),
        (b"char a[]=\"abc\";", 0, 0),
        (b"int a[]=\"abc\";", 0, 3),
        (b"void f(void x[2]);", 0, 3),
        (b"typedef int t[];", 0, 3),
        (b"typedef void t;", 0, 0),
        (b"struct s{int a[];};", 0, 3),
        (b"struct s{int a[65537];};", 0, 3),
        (b"struct s{int f(void);};", 0, 3),
        (b"struct s{int a[40000];int b[40000];};struct s *x;", 0, 0),
        (b"struct s{int a[40000];int b[40000];};struct s x;", 1, 3),
        (b"struct s{int a[40000];int b[40000];};struct s x[2];", 1, 3),
        (
            b"struct s{int a[40000];int b[40000];};int a[sizeof(struct s)];",
            1,
            3,
        ),
        (b"void t(void){void x;}", 0, 3),
        (b"void t(void){sizeof(int[2][40000]);}", 0, 3),
        (b"void t(void){(int(*)[0])1;}", 0, 3),
        (b"int a[1];", 0, 0),
        (b"int f(int a[0]);", 0, 3),
        (b"typedef int t[0];", 0, 3),
        (b"typedef void t[2];", 0, 3),
        (b"typedef struct u t;t *x;", 0, 0),
        (b"typedef struct u t;t x;", 1, 3),
    ];
    expect_all(&rt, rt.alloc(), &ROWS)
}

#[test]
fn tags_and_members_are_declared_once(rt: HostRuntime) -> Result<(), Fail> {
    const ROWS: [Row; 15] = [
        (b"struct s{int a;};struct s{int a;};", 1, 4),
        (b"struct s{int a;int a;};", 0, 4),
        (b"struct s{int a;};struct u{int a;};", 0, 0),
        (b"void t(void){struct s{int a;}x;}", 0, 4),
        (b"void f(struct s{int a;}*p);", 0, 4),
        (b"struct s{struct u{int a;}b;};", 0, 4),
        (b"struct s{int a;struct s b;int a;};", 0, 3),
        (b"typedef struct s{int a;}t;t x;", 0, 0),
        (b"struct s{int a,b,a;};", 0, 4),
        (b"struct s{int s;};", 0, 0),
        (b"void t(void){for(struct s{int a;}x;;);}", 0, 4),
        (b"struct s{int a;}*f(void){return 0;}", 0, 0),
        (b"struct s{int a;};struct s{void x;};", 1, 4),
        (b"struct s *x;struct s{int a;};", 0, 0),
        (b"void t(void){struct s{int a;};}", 0, 4),
    ];
    expect_all(&rt, rt.alloc(), &ROWS)
}

#[test]
fn declarations_have_an_allowed_form(rt: HostRuntime) -> Result<(), Fail> {
    const ROWS: [Row; 26] = [
        (b"void f(struct s x);", 0, 18),
        (b"struct s{int a;};void f(struct s x);", 1, 18),
        (b"void f(void x);", 0, 18),
        (
            b"void f(int a,int b,int c,int d,int e,int g,int h,int i);",
            0,
            0,
        ),
        (
            b"void f(int a,int b,int c,int d,int e,int g,int h,int i,int j);",
            0,
            18,
        ),
        (b"int f(int){return 0;}", 0, 18),
        (b"void x{}", 0, 18),
        (b"typedef void fn(void);fn f{}", 1, 18),
        (b"int f(void)[3];", 0, 18),
        (b"int f[2](void);", 0, 3),
        (b"struct s{int a;};struct s f(void);", 1, 18),
        (b"int (*f(void))[3];", 0, 0),
        (b"void (*f(void))(void){return 0;}", 0, 0),
        (b"typedef int f(void)(void);", 0, 18),
        (b"int f()(int);", 0, 18),
        (b"struct u x{}", 0, 18),
        (b"int *f(){return 0;}", 0, 0),
        (b"int f(int a,int){return 0;}", 0, 18),
        (b"int f(int a,int);", 0, 0),
        (b"int (*f)(int,int,int,int,int,int,int,int,int);", 0, 18),
        (b"int x{}", 0, 18),
        (b"int f(void)=0;", 0, 18),
        (b"typedef int fn(void);fn f(void);", 1, 18),
        (b"typedef int fn(void);void t(void){fn f;}", 0, 0),
        (b"void t(void){(int(*)(void)[2])0;}", 0, 18),
        (b"struct s{int a;};int f(int (*g)(struct s x));", 1, 18),
    ];
    expect_all(&rt, rt.alloc(), &ROWS)
}
