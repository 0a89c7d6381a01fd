//! Loops, returns, initialisers and what is asked of the whole source.

use crate::source::{Row, expect_all};
use std::test::Fail;

#[test]
fn loops_are_left_inside_them(rt: HostRuntime) -> Result<(), Fail> {
    const ROWS: [Row; 9] = [
        (b"void t(void){break;}", 0, 14),
        (b"void t(void){continue;}", 0, 14),
        (b"void t(void){while(1){break;continue;}}", 0, 0),
        (
            b"void t(void){for(;;){if(1)break;}do continue;while(0);}",
            0,
            0,
        ),
        (b"void t(void){if(1)break;}", 0, 14),
        (b"void t(void){while(1);break;}", 0, 14),
        (b"void t(void){while(0){}continue;}", 0, 14),
        (b"void t(void){if(1);else break;}", 0, 14),
        (b"void t(void){while(1){if(1){break;}else continue;}}", 0, 0),
    ];
    expect_all(&rt, rt.alloc(), &ROWS)
}

#[test]
fn returns_fit_their_function(rt: HostRuntime) -> Result<(), Fail> {
    const ROWS: [Row; 10] = [
        (b"void t(void){return 1;}", 0, 15),
        (b"void t(void){return t();}", 0, 15),
        (b"int f(void){return;}", 0, 15),
        (b"int f(void){}", 0, 0),
        (b"int f(void){return 1;}", 0, 0),
        (b"int f(int *p){return p;}", 0, 8),
        (b"void t(void){return;}", 0, 0),
        (b"void t(void){if(1){return 0;}}", 0, 15),
        (b"int *f(void){while(1)return;}", 0, 15),
        (b"char f(void){return 300;}", 0, 0),
    ];
    expect_all(&rt, rt.alloc(), &ROWS)
}

#[test]
fn globals_begin_with_constants(rt: HostRuntime) -> Result<(), Fail> {
    const ROWS: [Row; 30] = [
        (b"int n;int a=n;", 1, 16),
        (b"int a=1+2*3;", 0, 0),
        (b"int a=1/0;", 0, 16),
        (b"int f(void){return 0;}int a=f();", 1, 16),
        (b"int n;int *p=&n;", 0, 0),
        (b"int a[3];int *p=a;int *q=&a[2];", 0, 0),
        (b"int a[3];int *p=&a[3];", 1, 16),
        (b"int a[3];int *p=a+1;", 1, 16),
        (b"int a[2][2];int *p=a[1];", 1, 16),
        (b"int a[2][2];int *p=&a[1][1];", 0, 0),
        (
            b"struct s{int a;int b[2];};struct s x;int *p=&x.a;int *q=&x.b[1];int *r=x.b;",
            4,
            16,
        ),
        (b"char *p=\"abc\";", 0, 0),
        (b"void f(void){}void (*p)(void)=f;void (*q)(void)=&f;", 0, 0),
        (b"void f(void){}void (*p)(void)=*f;", 1, 16),
        (b"int n;void *p=(void*)(char*)&n;", 0, 0),
        (b"int a[1?1:1/0];", 0, 0),
        (b"int a[1/0];", 0, 16),
        (b"int n;int a[n];", 1, 16),
        (b"int x;int a[sizeof x];", 1, 16),
        (b"int a[sizeof(int)];", 0, 0),
        (b"void f(void){int n;int m=n;}", 0, 0),
        (b"int a[3];int *p=&a[-1];", 1, 16),
        (b"int a[3];int n;int *p=&a[n];", 2, 16),
        (b"int *p;int *q=&*p;", 1, 16),
        (b"struct s{int a;};struct s *p;int *q=&p->a;", 2, 16),
        (b"char *p=&\"a\"[0];", 0, 16),
        (b"int n;int a[2]={1,n};", 1, 16),
        (b"int x=0&&1/0;int y=1?2:1/0;", 0, 0),
        (b"void t(void){int n;int a[n];}", 0, 16),
        (b"int a[2];int x=(int)a;char c=(char)&a[1];", 0, 0),
    ];
    expect_all(&rt, rt.alloc(), &ROWS)
}

#[test]
fn initialisers_follow_their_type(rt: HostRuntime) -> Result<(), Fail> {
    const ROWS: [Row; 23] = [
        (b"int x={5};", 0, 18),
        (b"int a[2]={1,2,3};", 0, 18),
        (b"int a[2]={1};", 0, 0),
        (b"int g;int a[1]={1,g};", 1, 18),
        (b"char a[3]=\"abc\";", 0, 18),
        (b"char a[4]=\"abc\";", 0, 0),
        (b"char a[]={\"abc\"};", 0, 8),
        (
            b"struct s{int a;int b;};struct s x={1,2};struct s y={1,2,3};",
            2,
            18,
        ),
        (b"int a[2][2]={{1,2},{3,4}};", 0, 0),
        (b"int a[2][2]={1,2};", 0, 18),
        (b"int a[2]=1;", 0, 18),
        (b"void t(void){int a[2];int b[2]=a;}", 0, 18),
        (b"struct s{int a;};struct s x;struct s y=x;", 2, 16),
        (b"struct s{int a;};struct s x=1;", 1, 8),
        (b"void t(void){char a[2][4]={\"abc\",\"de\"};}", 0, 0),
        (b"int *p={0};", 0, 18),
        (b"int a[2]={{1},2};", 0, 18),
        (b"int a[2]=\"a\";", 0, 18),
        (b"char *a[2]={\"a\",\"b\"};", 0, 0),
        (b"struct s{int a;char b[4];};struct s x={1,\"abc\"};", 0, 0),
        (b"struct s{int a;char b[3];};struct s x={1,\"abc\"};", 1, 18),
        (b"struct s{int a;};void t(void){struct s x={{1}};}", 1, 18),
        (
            b"struct s{int a;};void t(void){struct s x={1};struct s y[1]={x};}",
            0,
            0,
        ),
    ];
    expect_all(&rt, rt.alloc(), &ROWS)
}
