//! Trees, and what is written of them.

use super::*;

/// What is written of a source's tree.
fn written(rt: &impl Abort, alloc: Global, source: &[u8]) -> Result<Vec<u8>, Fail> {
    let unit = parsed(rt, alloc, source)??;
    Ok(print_unit(alloc, &unit)?)
}

/// This is written of a source's tree.
fn expect_written(rt: &impl Abort, alloc: Global, source: &[u8], want: &[u8]) -> Result<(), Fail> {
    let text = written(rt, alloc, source)?;
    assert!(rt; text.as_slice() == want, "of {source:?}");
    Ok(())
}

/// Trees are told by what is written of them: parentheses stand round all that has several tokens.
#[test]
fn gives_the_one_tree(rt: HostRuntime) -> Result<(), Fail> {
    const ROWS: [(&[u8], &[u8]); 12] = [
        (b"int x=a-b-c;", b"int x = ( ( a - b ) - c ) ; "),
        (b"int x=a=b=c;", b"int x = ( a = ( b = c ) ) ; "),
        (b"int x=a?b:c?d:e;", b"int x = ( a ? b : ( c ? d : e ) ) ; "),
        (b"int x=-a[1]++;", b"int x = ( - ( ( a [ 1 ] ) ++ ) ) ; "),
        (b"int x=(int)a+b;", b"int x = ( ( ( int ) a ) + b ) ; "),
        (b"int x=sizeof(a)[1];", b"int x = ( sizeof ( a [ 1 ] ) ) ; "),
        (
            b"int x=a&&b|c^d&e==f<g>>h+i*j;",
            b"int x = ( a && ( b | ( c ^ ( d & ( e == ( f < ( g >> ( h + ( i * j ) ) ) ) ) ) ) ) ) ; ",
        ),
        (b"int *(*x)[3];", b"int ( * ( * x ) [ 3 ] ) ; "),
        (b"int a[3][4];", b"int ( a [ 3 ] [ 4 ] ) ; "),
        (b"int f(int(*)[3]);", b"int ( f ( int ( * ) [ 3 ] ) ) ; "),
        (
            b"int f(void){if(a)if(b)c;else d;}",
            b"int ( f ( void ) ) { if ( a ) if ( b ) c ; else d ; } ",
        ),
        (b"char*s=\"\\\"'\\n\";", b"char ( * s ) = \"\\\"'\\n\" ; "),
    ];
    for (source, want) in &ROWS {
        expect_written(&rt, rt.alloc(), source, want)?;
    }
    Ok(())
}

/// What is written of a tree gives the same tree, and so the same text, again.
#[test]
fn reads_back_what_is_written(rt: HostRuntime) -> Result<(), Fail> {
    const SOURCE: &[u8] = b"void (*h)(void); void a(void){print(1);} void b(void){print(2);} \
        int main(void){h=a;h();return 0;}";
    const WRITTEN: &[u8] = b"void ( ( * h ) ( void ) ) ; void ( a ( void ) ) { ( print ( 1 ) ) ; } \
        void ( b ( void ) ) { ( print ( 2 ) ) ; } \
        int ( main ( void ) ) { ( h = a ) ; ( h ( ) ) ; return 0 ; } ";
    expect_written(&rt, rt.alloc(), SOURCE, WRITTEN)?;
    expect_written(&rt, rt.alloc(), WRITTEN, WRITTEN)
}
