//! Operands, conversions, casts, calls, members, pointers, lvalues and conditions.

use crate::source::{Row, expect_all};
use std::test::Fail;

#[test]
fn operands_fit_their_operator(rt: HostRuntime) -> Result<(), Fail> {
    const ROWS: [Row; 42] = [
        (b"void t(void){int x;int *p;x*p;}", 0, 7),
        (b"void t(void){char c;c+c;}", 0, 0),
        (b"void t(void){int *p;int x;p+x;x+p;p-x;p-p;}", 0, 0),
        (b"void t(void){int x;int *p;x-p;}", 0, 7),
        (b"void t(void){int *p;p+p;}", 0, 7),
        (b"void t(void){int *p;char *q;p-q;}", 0, 7),
        (b"void t(void){void *p;p+1;}", 0, 7),
        (b"void t(void){struct s *p;p+1;}", 0, 7),
        (b"void t(void){t+1;}", 0, 7),
        (b"void t(void){int *p;~p;}", 0, 7),
        (b"void t(void){int *p;-p;}", 0, 7),
        (b"void t(void){int *p;char *q;p<q;}", 0, 7),
        (b"void t(void){int *p;p<p;}", 0, 0),
        (b"void t(void){int *p;p<0;}", 0, 7),
        (b"void t(void){int *p;void *q;p==q;q!=p;}", 0, 0),
        (b"void t(void){int *p;p==0;0!=p;}", 0, 0),
        (b"void t(void){int *p;p==1;}", 0, 7),
        (b"void t(void){int *p;char *q;p==q;}", 0, 7),
        (b"void t(void){void *q;t==q;}", 0, 0),
        (b"void t(void){int *p;1?p:0;1?0:p;1?p:p;}", 0, 0),
        (b"void t(void){int *p;1?p:1;}", 0, 7),
        (b"void t(void){int *p;void *q;1?p:q;}", 0, 7),
        (b"void t(void){1?t():t();}", 0, 7),
        (b"void t(void){int *p;5[p];}", 0, 7),
        (b"void t(void){int *p;p[p];}", 0, 7),
        (b"void t(void){int *p;p%1;}", 0, 7),
        (b"void t(void){int *p;p<<1;}", 0, 7),
        (b"void t(void){int i;int *p;i+=p;}", 0, 8),
        (b"void t(void){int *p;p*=2;}", 0, 7),
        (b"void t(void){t()+1;}", 0, 7),
        (b"void t(void){void *p;p-p;}", 0, 7),
        (b"void t(void){void *p;p++;}", 0, 7),
        (
            b"struct s{int a[40000];int b[40000];};void t(struct s *p){p-p;}",
            1,
            7,
        ),
        (b"void t(void){t-t;}", 0, 7),
        (b"void t(void){t<t;}", 0, 0),
        (b"void t(void){char c;int *p;p+c;p[c];-c;}", 0, 0),
        (b"struct s{int a;};struct s x;void t(void){x==x;}", 2, 7),
        (b"struct s{int a;};struct s x;void t(void){1?x:x;}", 2, 7),
        (b"void t(void){int *p;p==t;}", 0, 7),
        (b"void t(void){1?t:0;1?0:t;}", 0, 0),
        (b"void t(void){int x;int *p;p==x-x;}", 0, 7),
        (b"void t(void){int *p;1-p;}", 0, 7),
    ];
    expect_all(&rt, rt.alloc(), &ROWS)
}

#[test]
fn values_convert_to_their_target(rt: HostRuntime) -> Result<(), Fail> {
    const ROWS: [Row; 29] = [
        (b"void t(void){int x;int *p;x=p;}", 0, 8),
        (b"void t(void){int *p;p=0;p=1-1;}", 0, 0),
        (b"void t(void){int *p;p=1;}", 0, 8),
        (b"void t(void){int *p;void *q;p=q;q=p;}", 0, 0),
        (b"void t(void){void *q;q=t;}", 0, 8),
        (b"void t(void){void (*f)(void);void *q;f=q;}", 0, 8),
        (b"void t(void){void (*f)(void);f=t;f=&t;f=0;}", 0, 0),
        (b"void t(void){int *p;char *q;p=q;}", 0, 8),
        (b"void t(void){char c;int x;c=x;x=c;}", 0, 0),
        (b"int *p=(char)256;", 0, 0),
        (b"int *p=1;", 0, 8),
        (b"int f(int *p){return f(1);}", 0, 8),
        (b"int *f(void){return 1;}", 0, 8),
        (b"int *f(void){return 0;}", 0, 0),
        (
            b"struct s{int a;};struct u{int a;};struct s x;struct u y;void t(void){x=y;}",
            4,
            8,
        ),
        (b"void t(void){int *p;int *q;p-=q;}", 0, 8),
        (
            b"struct s{int a;};struct s x;void t(void){int y;y=x;}",
            2,
            8,
        ),
        (b"void t(void){char *p;p=\"a\";}", 0, 0),
        (b"void t(void){int *p;p=\"a\";}", 0, 8),
        (b"void t(void){int *p=1;}", 0, 8),
        (b"void t(void){int x;int *p=x-x;}", 0, 8),
        (b"void t(void){int *p=!1;p=sizeof(int)-1;}", 0, 0),
        (b"void t(void){int *p=0/0;}", 0, 8),
        (b"void t(void){int (*f)(int);f=t;}", 0, 8),
        (
            b"struct s{int a;};struct s x;void t(void){struct s y=x;y=x;}",
            0,
            0,
        ),
        (b"struct s{int a;};struct s x;void t(int n){t(x);}", 2, 8),
        (b"void t(void){int x;x=t();}", 0, 8),
        (b"void t(void){int **p;int *q;p=q;}", 0, 8),
        (b"void t(void){int x;x=&x;}", 0, 8),
    ];
    expect_all(&rt, rt.alloc(), &ROWS)
}

#[test]
fn casts_go_between_scalars(rt: HostRuntime) -> Result<(), Fail> {
    const ROWS: [Row; 9] = [
        (b"void t(void){(int*)1;(char)t;(void)t;(void)t();}", 0, 0),
        (b"void t(void){(int)t();}", 0, 9),
        (b"void t(void){(int[2])1;}", 0, 9),
        (b"struct s{int a;};struct s x;void t(void){(int)x;}", 2, 9),
        (b"struct s{int a;};void t(void){(struct s)1;}", 1, 9),
        (b"struct s{int a;};struct s x;void t(void){(void)x;}", 0, 0),
        (b"void t(void){(int)\"a\";(int*)t;(char*)'a';}", 0, 0),
        (b"void t(void){(int(void))1;}", 0, 9),
        (b"struct s;void t(void){(struct s*)1;}", 0, 0),
    ];
    expect_all(&rt, rt.alloc(), &ROWS)
}

#[test]
fn calls_fit_their_function(rt: HostRuntime) -> Result<(), Fail> {
    const ROWS: [Row; 17] = [
        (b"void t(void){int x;x();}", 0, 10),
        (b"void t(void){int *p;p();}", 0, 10),
        (b"void t(void){t();(*t)();(&t)();(***t)();}", 0, 0),
        (b"void t(void){t(1);}", 0, 10),
        (b"void t(void){print();}", 0, 10),
        (b"void t(void){print(1,2);}", 0, 10),
        (b"void t(void){int *p;print(p,2);}", 0, 8),
        (b"void t(void){spawn(t,0);}", 0, 8),
        (
            b"void w(void*p){}void t(void){spawn(w,0);spawn(&w,0);}",
            0,
            0,
        ),
        (b"void t(void){lock(0);unlock(0);join(0);free(0);}", 0, 0),
        (b"void t(void){input(1)+1;malloc(2)==0;}", 0, 0),
        (b"void t(void){void (*f[2])(void);f();}", 0, 10),
        (b"struct s{int a;};struct s x;void t(void){x();}", 2, 10),
        (
            b"void (*f(void))(void){return 0;}void t(void){f()();}",
            0,
            0,
        ),
        (b"void t(void){t()();}", 0, 10),
        (b"void t(int a){t();}", 0, 10),
        (b"void t(void (*f)(int)){f(1);f(1,2);}", 0, 10),
    ];
    expect_all(&rt, rt.alloc(), &ROWS)
}

#[test]
fn members_are_of_structs(rt: HostRuntime) -> Result<(), Fail> {
    const ROWS: [Row; 13] = [
        (b"void t(void){int x;x.a;}", 0, 11),
        (b"void t(void){int *p;p->a;}", 0, 11),
        (
            b"struct s{int a;};struct s x;void t(void){x.a;(&x)->a;x.b;}",
            2,
            11,
        ),
        (
            b"struct s{int a;};struct s x;void t(void){x.a=1;(&x)->a=1;}",
            0,
            0,
        ),
        (b"void t(void){struct s *p;p->a;}", 0, 11),
        (b"struct s{int a;};struct s x;void t(void){x->a;}", 2, 11),
        (
            b"struct s{int a;};struct s x[2];void t(void){x->a;x.a;}",
            2,
            11,
        ),
        (
            b"struct s{int a[40000];int b[40000];};struct s *p;void t(void){p->a;}",
            2,
            11,
        ),
        (b"struct s{int a;};struct s x;void t(void){(x=x).a;}", 2, 11),
        (
            b"struct s{int a;};struct s *p;void t(void){(*p).a;p[0].a;p->a;}",
            0,
            0,
        ),
        (b"struct s{int a;};struct s *p;void t(void){p.a;}", 2, 11),
        (b"struct s{int a;};struct s *p;void t(void){p->b;}", 2, 11),
        (b"void t(void){void *p;p->a;}", 0, 11),
    ];
    expect_all(&rt, rt.alloc(), &ROWS)
}

#[test]
fn pointers_point_to_what_has_units(rt: HostRuntime) -> Result<(), Fail> {
    const ROWS: [Row; 16] = [
        (b"void t(void){int x;*x;}", 0, 12),
        (b"void t(void){int x;x[0];}", 0, 12),
        (b"void t(void){1[2];}", 0, 12),
        (b"void t(void){void *p;*p;}", 0, 12),
        (b"void t(void){void *p;p[0];}", 0, 12),
        (b"void t(void){struct s *p;*p;}", 0, 12),
        (b"void t(void){t[0];}", 0, 12),
        (b"void t(void){*t;}", 0, 0),
        (b"void t(void){int *p;*p;p[0];}", 0, 0),
        (b"void t(void){int a[2];*a;a[1];}", 0, 0),
        (
            b"struct s{int a[40000];int b[40000];};struct s *p;void t(void){*p;}",
            2,
            12,
        ),
        (
            b"struct s{int a[40000];int b[40000];};struct s *p;void t(void){p[0];}",
            2,
            12,
        ),
        (b"void t(void){void (*f)(void);f[0];}", 0, 12),
        (b"struct s *p;struct s{int a;};void t(void){*p;p[0];}", 0, 0),
        (b"struct s{int a;int b[sizeof *(struct s*)0];};", 0, 12),
        (b"void t(void){*t();}", 0, 12),
    ];
    expect_all(&rt, rt.alloc(), &ROWS)
}

#[test]
fn only_lvalues_are_assigned(rt: HostRuntime) -> Result<(), Fail> {
    const ROWS: [Row; 23] = [
        (b"void t(void){1=2;}", 0, 13),
        (b"void t(void){int x;(x+1)=2;}", 0, 13),
        (b"void t(void){int a[3];a=0;}", 0, 13),
        (b"void t(void){int a[3];a+=1;}", 0, 13),
        (b"void t(void){t=0;}", 0, 13),
        (b"void t(void){t()=1;}", 0, 13),
        (b"void t(void){t()++;}", 0, 7),
        (b"void t(void){1++;}", 0, 13),
        (b"void t(void){int x;++x;x--;(x)=1;}", 0, 0),
        (b"void t(void){&1;}", 0, 13),
        (b"void t(void){&t;}", 0, 0),
        (b"void t(void){int x;&x;int a[2];&a;&a[1];}", 0, 0),
        (b"void t(void){int x;&(x+1);}", 0, 13),
        (b"void t(void){int *p;*p=1;p[1]=2;(*p)++;}", 0, 0),
        (b"void t(void){int x;(x=1)=2;}", 0, 13),
        (b"void t(void){&\"a\";}", 0, 13),
        (b"void t(void){\"a\"[0]=1;}", 0, 0),
        (b"void t(void){&t();}", 0, 13),
        (b"void t(void){int x;x++=1;}", 0, 13),
        (b"void t(void){int a[2];a++;}", 0, 13),
        (b"void t(int a[2]){a=0;a++;}", 0, 0),
        (b"void t(void){*t=0;}", 0, 13),
        (b"void t(void){(1?1:2)=1;}", 0, 13),
    ];
    expect_all(&rt, rt.alloc(), &ROWS)
}

#[test]
fn conditions_are_scalars(rt: HostRuntime) -> Result<(), Fail> {
    const ROWS: [Row; 15] = [
        (b"void t(void){if(t())1;}", 0, 17),
        (b"void t(void){while(t())1;}", 0, 17),
        (b"void t(void){do 1;while(t());}", 0, 17),
        (b"void t(void){for(;t();)1;}", 0, 17),
        (b"void t(void){!t();}", 0, 17),
        (b"void t(void){t()&&1;}", 0, 17),
        (b"void t(void){1||t();}", 0, 17),
        (b"void t(void){t()?1:2;}", 0, 17),
        (b"void t(void){int *p;if(p&&t)p;}", 0, 0),
        (b"void t(void){t()?t():1;}", 0, 7),
        (b"struct s{int a;};struct s x;void t(void){if(x);}", 2, 17),
        (b"struct s{int a;};struct s x;void t(void){x&&1;}", 2, 17),
        (b"struct s{int a;};struct s x;void t(void){!x;}", 2, 17),
        (b"struct s{int a;};struct s x;void t(void){x?1:2;}", 2, 17),
        (b"void t(void){int a[2];if(a);!a;\"a\"?1:2;}", 0, 0),
    ];
    expect_all(&rt, rt.alloc(), &ROWS)
}
