//! The order of rules, and what is asked of whole sources.

use crate::source::{Row, Verdict, expect, expect_all, verdict_of, verdict_of_whole};
use std::alloc::{AllocError, Global};
use std::test::Fail;

#[test]
fn the_first_broken_rule_is_named(rt: HostRuntime) -> Result<(), Fail> {
    const ROWS: [Row; 35] = [
        (b"int a[1]={1,nowhere};", 0, 1),
        (b"int x;int x2[y];", 1, 1),
        (b"void t(int n,int a[n()]);", 0, 10),
        (b"void t(void){int x;x[y]=1/z;}", 0, 1),
        (b"void t(void){5[nowhere];}", 0, 1),
        (b"void t(void){int *p;p[p]=nowhere;}", 0, 7),
        (b"void t(void){print(t,1);}", 0, 8),
        (b"void t(void){1=&t;}", 0, 8),
        (b"void t(void){int *p;1=p+p;}", 0, 7),
        (b"struct s{struct u x;int x;int x;};", 0, 3),
        (b"void f(int a,int a[0]);", 0, 3),
        (b"void f(void a,void a);", 0, 18),
        (b"int x;void t(void){y;}int x;", 1, 1),
        (b"void f(void);void t(void){f();}int x;int x;", 3, 2),
        (b"int f(void){return f;}", 0, 8),
        (b"int x;void x[2];", 1, 2),
        (b"void f(int a,struct s a);", 0, 2),
        (b"struct s{int a;void a;};", 0, 3),
        (b"void f(struct s{void x;}*p);", 0, 4),
        (
            b"typedef int fn(void);int f(void){return 0;}fn f{return 0;}",
            2,
            2,
        ),
        (b"void t(void){(int[0])x;}", 0, 3),
        (b"void t(void){(int[2])x;}", 0, 1),
        (b"void t(void){for(1=2;x;);}", 0, 13),
        (b"void t(void){for(;x;1=2);}", 0, 1),
        (b"void t(void){for(;;1=2)x;}", 0, 13),
        (b"void t(void){do 1=2;while(x);}", 0, 13),
        (b"void t(void){if(t())x;}", 0, 17),
        (b"void t(void){int *p;p+=p;}", 0, 7),
        (b"void t(void){int *p;1+=p;}", 0, 8),
        (b"void t(void){1(x);}", 0, 1),
        (b"int x=y,z=1=2;", 0, 1),
        (b"int a[0]={y};", 0, 3),
        (b"int a[]={y};", 0, 1),
        (b"int n;int a[n][0];", 1, 16),
        (b"int n;int a[0][n];", 1, 3),
    ];
    expect_all(&rt, rt.alloc(), &ROWS)
}

#[test]
fn a_source_has_a_main(rt: HostRuntime) -> Result<(), Fail> {
    const ROWS: [Row; 9] = [
        (b"", 0, 5),
        (b"int x;", 1, 5),
        (b"int main(void);", 1, 5),
        (b"int main(int n){return 0;}", 1, 5),
        (b"void main(void){}", 1, 5),
        (b"int main;", 1, 5),
        (b"int main(){return 0;}", 0, 0),
        (b"void f(void);int main(void){f();return 0;}", 0, 6),
        (b"void f(void);int x;void t(void){f();}", 0, 6),
    ];
    for (source, item, rule) in &ROWS {
        let found = verdict_of_whole(rt.alloc(), source)?;
        expect(&rt, source, found, Verdict::of(*item, *rule));
    }
    Ok(())
}

/// `int`, so many stars, and `x;`
fn starred(alloc: Global, stars: u32) -> Result<Vec<u8>, AllocError> {
    let mut source = Vec::from_slice(alloc, b"int ".as_slice())?;
    for _ in 0..stars {
        source.push(b'*')?;
    }
    source.extend_from_slice(b"x;".as_slice())?;
    Ok(source)
}

/// What is answered of a pointer of so many stars.
fn verdict_of_starred(alloc: Global, stars: u32) -> Result<Verdict, Fail> {
    verdict_of_whole(alloc, starred(alloc, stars)?.as_slice())
}

#[test]
fn a_thousand_parts_are_allowed(rt: HostRuntime) -> Result<(), Fail> {
    let found = verdict_of_starred(rt.alloc(), 999)?;
    assert!(rt; found == Verdict::Refused(1, 5));
    let longer = verdict_of_starred(rt.alloc(), 1_000)?;
    assert!(rt; longer == Verdict::Refused(0, 3));
    Ok(())
}

/// So many structs with tags of their own.
fn tagged(alloc: Global, tags: u32) -> Result<Vec<u8>, AllocError> {
    let mut source = Vec::new(alloc);
    for number in 0..tags {
        let tag = format!(in alloc; "struct s{number};")?;
        source.extend_from_slice(tag.as_bytes())?;
    }
    Ok(source)
}

/// What is answered of so many structs, with a `main` behind them.
fn verdict_of_tagged(alloc: Global, tags: u32) -> Result<Verdict, Fail> {
    verdict_of(alloc, tagged(alloc, tags)?.as_slice())
}

#[test]
fn a_thousand_and_24_tags_are_allowed(rt: HostRuntime) -> Result<(), Fail> {
    let found = verdict_of_tagged(rt.alloc(), 1_024)?;
    assert!(rt; found == Verdict::Accepted);
    let more = verdict_of_tagged(rt.alloc(), 1_025)?;
    assert!(rt; more == Verdict::Refused(1_024, 4));
    Ok(())
}

/// `char x[]=`, a string of so many bytes, and `;`
fn filled(alloc: Global, bytes: u32) -> Result<Vec<u8>, AllocError> {
    let mut source = Vec::from_slice(alloc, b"char x[]=\"".as_slice())?;
    for _ in 0..bytes {
        source.push(b'a')?;
    }
    source.extend_from_slice(b"\";".as_slice())?;
    Ok(source)
}

/// What is answered of a string of so many bytes that gives its array's bound.
fn verdict_of_filled(alloc: Global, bytes: u32) -> Result<Verdict, Fail> {
    verdict_of(alloc, filled(alloc, bytes)?.as_slice())
}

#[test]
fn a_string_gives_a_bound_of_65536(rt: HostRuntime) -> Result<(), Fail> {
    let found = verdict_of_filled(rt.alloc(), 65_535)?;
    assert!(rt; found == Verdict::Accepted);
    let longer = verdict_of_filled(rt.alloc(), 65_536)?;
    assert!(rt; longer == Verdict::Refused(0, 3));
    Ok(())
}
