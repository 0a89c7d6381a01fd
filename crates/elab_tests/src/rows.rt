//! The instructions of small functions, for each row of the table.

use crate::source::program;
use crate::text::push_function;
use std::alloc::Global;
use std::test::Fail;

/// The instructions of a function of a source, one a line.
fn function_text(alloc: Global, source: &[u8], number: usize) -> Result<Vec<u8>, Fail> {
    let program = program(alloc, source)?;
    let Some(function) = program.functions.get(number) else {
        return Err(Fail::from("no such function"));
    };
    let mut text = Vec::new(alloc);
    push_function(&mut text, function)?;
    Ok(text)
}

#[test]
fn statements_become_their_rows(rt: HostRuntime) -> Result<(), Fail> {
    let rows: [(&[u8], usize, &[u8]); 20] = [
        // a condition has one branch
        (
            b"void f(int x){if(x)x=1;}".as_slice(),
            0,
            b"GetLocal 0 0\nBranch 0 4\nConst 0 1\nSetLocal 0 0\nReturn -\n".as_slice(),
        ),
        // else stands behind a jump
        (
            b"void f(int x){if(x)x=1;else x=2;}".as_slice(),
            0,
            b"\
              GetLocal 0 0\nBranch 0 5\nConst 0 1\nSetLocal 0 0\nJump 7\nConst 0 2\n\
              SetLocal 0 0\nReturn -\n"
                .as_slice(),
        ),
        // while
        (
            b"void f(int x){while(x)x=0;}".as_slice(),
            0,
            b"GetLocal 0 0\nBranch 0 5\nConst 0 0\nSetLocal 0 0\nJump 0\nReturn -\n".as_slice(),
        ),
        // do
        (
            b"void f(int x){do x=0;while(x);}".as_slice(),
            0,
            b"Const 0 0\nSetLocal 0 0\nGetLocal 0 0\nBranch 0 5\nJump 0\nReturn -\n".as_slice(),
        ),
        // for
        (
            b"void f(int x){for(x=0;x;x=1)x=2;}".as_slice(),
            0,
            b"\
              Const 0 0\nSetLocal 0 0\nGetLocal 0 0\nBranch 0 9\nConst 0 2\nSetLocal 0 0\n\
              Const 0 1\nSetLocal 0 0\nJump 2\nReturn -\n"
                .as_slice(),
        ),
        // for with a declaration and no condition
        (
            b"void f(void){for(int i=3;;);}".as_slice(),
            0,
            b"Const 0 3\nSetLocal 0 0\nJump 2\nReturn -\n".as_slice(),
        ),
        // break and continue of while
        (
            b"void f(int x){while(x){break;continue;}}".as_slice(),
            0,
            b"GetLocal 0 0\nBranch 0 5\nJump 5\nJump 0\nJump 0\nReturn -\n".as_slice(),
        ),
        // break and continue of do
        (
            b"void f(int x){do{break;continue;}while(x);}".as_slice(),
            0,
            b"Jump 5\nJump 2\nGetLocal 0 0\nBranch 0 5\nJump 0\nReturn -\n".as_slice(),
        ),
        // break and continue of for
        (
            b"void f(int x){for(;x;x=1){break;continue;}}".as_slice(),
            0,
            b"\
              GetLocal 0 0\nBranch 0 7\nJump 7\nJump 4\nConst 0 1\nSetLocal 0 0\nJump 0\n\
              Return -\n"
                .as_slice(),
        ),
        // each loop has its own
        (
            b"void f(int x){while(x){while(x)break;break;}}".as_slice(),
            0,
            b"\
              GetLocal 0 0\nBranch 0 8\nGetLocal 0 0\nBranch 0 6\nJump 6\nJump 2\nJump 8\n\
              Jump 0\nReturn -\n"
                .as_slice(),
        ),
        // returns are converted
        (
            b"int f(char c){return c;}".as_slice(),
            0,
            b"GetLocal 0 0\nCast 1 0 char int\nReturn 1\nReturn -\n".as_slice(),
        ),
        // a frame is left before each return
        (
            b"int f(void){int a[1];return 7;}".as_slice(),
            0,
            b"Enter\nConst 0 7\nLeave\nReturn 0\nLeave\nReturn -\n".as_slice(),
        ),
        // a parameter that is a frame local is copied
        (
            b"int*f(int x){return &x;}".as_slice(),
            0,
            b"\
              Enter\nGetLocal 0 0\nAddrL 1 0\nTouch 1 int\nStore 1 0 int\nAddrL 0 0\nLeave\n\
              Return 0\nLeave\nReturn -\n"
                .as_slice(),
        ),
        // a local that an expression gives
        (
            b"void f(char c){int x=c;}".as_slice(),
            0,
            b"GetLocal 0 0\nCast 1 0 char int\nSetLocal 1 1\nReturn -\n".as_slice(),
        ),
        // a frame local that an expression gives
        (
            b"void f(void){int x=5;&x;}".as_slice(),
            0,
            b"\
              Enter\nConst 0 5\nAddrL 1 0\nTouch 1 int\nStore 1 0 int\nAddrL 0 0\nLeave\n\
              Return -\n"
                .as_slice(),
        ),
        // an array in braces
        (
            b"void f(int x){int a[2]={x};}".as_slice(),
            0,
            b"\
              Enter\nGetLocal 0 0\nAddrL 1 0\nPtrConst 2 1 0\nTouch 2 [2]int\nStore 2 0 int\n\
              Const 0 0\nAddrL 1 0\nPtrConst 2 1 1\nTouch 2 [2]int\nStore 2 0 int\nLeave\n\
              Return -\n"
                .as_slice(),
        ),
        // a string in an array
        (
            b"void f(void){char s[3]=\"a\";}".as_slice(),
            0,
            b"\
              Enter\nConst 0 97\nAddrL 1 0\nPtrConst 2 1 0\nTouch 2 [3]char\nStore 2 0 char\n\
              Const 0 0\nAddrL 1 0\nPtrConst 2 1 1\nTouch 2 [3]char\nStore 2 0 char\n\
              Const 0 0\nCast 1 0 int char\nAddrL 2 0\nPtrConst 3 2 2\nTouch 3 [3]char\n\
              Store 3 1 char\nLeave\nReturn -\n"
                .as_slice(),
        ),
        // a struct in braces
        (
            b"struct s{int a;char b;};void f(void){struct s x={1};}".as_slice(),
            0,
            b"\
              Enter\nConst 0 1\nAddrL 1 0\nPtrConst 2 1 0\nTouch 2 s0\nStore 2 0 int\n\
              Const 0 0\nCast 1 0 int char\nAddrL 2 0\nPtrConst 3 2 1\nTouch 3 s0\n\
              Store 3 1 char\nLeave\nReturn -\n"
                .as_slice(),
        ),
        // a struct that an expression gives
        (
            b"struct s{int a;}g;void f(void){struct s x=g;}".as_slice(),
            0,
            b"\
              Enter\nAddrG 0 0\nAddrL 1 0\nPtrConst 2 0 0\nTouch 2 s0\nLoad 3 2 int\n\
              PtrConst 4 1 0\nTouch 4 s0\nStore 4 3 int\nLeave\nReturn -\n"
                .as_slice(),
        ),
        // a part that a struct gives
        (
            b"struct s{int a;}g;void f(void){struct s x[1]={g};}".as_slice(),
            0,
            b"\
              Enter\nAddrG 0 0\nAddrL 1 0\nPtrConst 2 1 0\nPtrConst 3 0 0\nTouch 3 s0\n\
              Load 4 3 int\nPtrConst 5 2 0\nTouch 5 [1]s0\nStore 5 4 int\nLeave\nReturn -\n"
                .as_slice(),
        ),
    ];
    for (source, number, lines) in rows {
        assert_eq!(rt;
            function_text(rt.alloc(), source, number)?.as_slice(),
            lines,
            "of {source:?}"
        );
    }
    Ok(())
}

#[test]
fn the_entry_function_stores_globals_and_strings(rt: HostRuntime) -> Result<(), Fail> {
    let rows: [(&[u8], usize, &[u8]); 7] = [
        // the entry function calls main
        (
            b"int x;".as_slice(),
            1,
            b"Call 0 () -\nReturn -\n".as_slice(),
        ),
        // a scalar global
        (
            b"int x=1+2;".as_slice(),
            1,
            b"Const 0 3\nAddrG 1 0\nTouch 1 int\nStore 1 0 int\nCall 0 () -\nReturn -\n".as_slice(),
        ),
        // a char global is converted
        (
            b"char c=7;".as_slice(),
            1,
            b"\
              Const 0 7\nCast 1 0 int char\nAddrG 2 0\nTouch 2 char\nStore 2 1 char\n\
              Call 0 () -\nReturn -\n"
                .as_slice(),
        ),
        // given leaves alone
        (
            b"int n;int a[3]={4,5};".as_slice(),
            1,
            b"\
              Const 0 4\nAddrG 1 1\nPtrConst 2 1 0\nTouch 2 [3]int\nStore 2 0 int\nConst 0 5\n\
              AddrG 1 1\nPtrConst 2 1 1\nTouch 2 [3]int\nStore 2 0 int\nCall 0 () -\n\
              Return -\n"
                .as_slice(),
        ),
        // a global's address
        (
            b"int n;int*p=&n;".as_slice(),
            1,
            b"\
              AddrG 0 0\nAddrG 1 1\nTouch 1 *int\nStore 1 0 *int\nCall 0 () -\nReturn -\n"
                .as_slice(),
        ),
        // a string's units
        (
            b"char*p=\"a\";".as_slice(),
            1,
            b"\
              AddrG 0 1\nAddrG 1 0\nTouch 1 *char\nStore 1 0 *char\nConst 0 97\nAddrG 1 1\n\
              PtrConst 2 1 0\nTouch 2 [2]char\nStore 2 0 char\nConst 0 0\nAddrG 1 1\n\
              PtrConst 2 1 1\nTouch 2 [2]char\nStore 2 0 char\nCall 0 () -\nReturn -\n"
                .as_slice(),
        ),
        // a string in a global array
        (
            b"char s[3]=\"a\";".as_slice(),
            1,
            b"\
              Const 0 97\nAddrG 1 0\nPtrConst 2 1 0\nTouch 2 [3]char\nStore 2 0 char\n\
              Const 0 0\nAddrG 1 0\nPtrConst 2 1 1\nTouch 2 [3]char\nStore 2 0 char\n\
              Call 0 () -\nReturn -\n"
                .as_slice(),
        ),
    ];
    for (source, number, lines) in rows {
        assert_eq!(rt;
            function_text(rt.alloc(), source, number)?.as_slice(),
            lines,
            "of {source:?}"
        );
    }
    Ok(())
}

#[test]
fn expressions_become_their_rows(rt: HostRuntime) -> Result<(), Fail> {
    let rows: [(&[u8], usize, &[u8]); 12] = [
        // numbers and slots
        (
            b"int f(int x){return x+1;}".as_slice(),
            0,
            b"GetLocal 0 0\nConst 1 1\nBinary 2 + 0 1\nReturn 2\nReturn -\n".as_slice(),
        ),
        // a global
        (
            b"int g;int f(void){return g;}".as_slice(),
            0,
            b"AddrG 0 0\nTouch 0 int\nLoad 1 0 int\nReturn 1\nReturn -\n".as_slice(),
        ),
        // an element
        (
            b"int a[3];int f(int i){return a[i];}".as_slice(),
            0,
            b"\
              AddrG 0 0\nGetLocal 1 0\nPtrAdd 2 0 1 1\nTouch 2 int\nLoad 3 2 int\nReturn 3\n\
              Return -\n"
                .as_slice(),
        ),
        // members
        (
            b"struct s{int a;int b;};int f(struct s*p){return p->b;}".as_slice(),
            0,
            b"\
              GetLocal 0 0\nPtrConst 1 0 1\nTouch 1 s0\nLoad 2 1 int\nReturn 2\nReturn -\n"
                .as_slice(),
        ),
        // an assignment in memory
        (
            b"int g;void f(int x){g=x;}".as_slice(),
            0,
            b"GetLocal 0 0\nAddrG 1 0\nTouch 1 int\nStore 1 0 int\nReturn -\n".as_slice(),
        ),
        // an operator's assignment in memory
        (
            b"int g;void f(void){g+=2;}".as_slice(),
            0,
            b"\
              AddrG 0 0\nTouch 0 int\nLoad 1 0 int\nConst 2 2\nBinary 3 + 1 2\nTouch 0 int\n\
              Store 0 3 int\nReturn -\n"
                .as_slice(),
        ),
        // a difference of pointers
        (
            b"int f(int*p,int*q){return p-q;}".as_slice(),
            0,
            b"\
              GetLocal 0 0\nGetLocal 1 1\nBinary 2 - 0 1\nConst 3 1\nBinary 4 / 2 3\n\
              Return 4\nReturn -\n"
                .as_slice(),
        ),
        // a pointer less an integer
        (
            b"int*f(int*p){return p-2;}".as_slice(),
            0,
            b"GetLocal 0 0\nConst 1 2\nUnary 2 - 1\nPtrAdd 3 0 2 1\nReturn 3\nReturn -\n".as_slice(),
        ),
        // a call
        (
            b"int f(int x){return f(x);}".as_slice(),
            0,
            b"GetLocal 0 0\nCall 0 (0) 1\nGetLocal 1 1\nReturn 1\nReturn -\n".as_slice(),
        ),
        // built-in calls
        (
            b"void f(int*p){lock(p);print(input(1));unlock(p);}".as_slice(),
            0,
            b"\
              GetLocal 0 0\nTouch 0 int\nLock 0\nConst 0 1\nInput 1 0\nPrint 1\nGetLocal 0 0\n\
              Touch 0 int\nUnlock 0\nReturn -\n"
                .as_slice(),
        ),
        // both
        (
            b"int f(int x){return x&&x;}".as_slice(),
            0,
            b"\
              GetLocal 0 0\nBranch 0 7\nGetLocal 1 0\nBranch 1 7\nConst 2 1\nSetLocal 1 2\n\
              Jump 9\nConst 3 0\nSetLocal 1 3\nGetLocal 4 1\nReturn 4\nReturn -\n"
                .as_slice(),
        ),
        // a choice
        (
            b"int f(int x){return x?1:2;}".as_slice(),
            0,
            b"\
              GetLocal 0 0\nBranch 0 5\nConst 1 1\nSetLocal 1 1\nJump 7\nConst 2 2\n\
              SetLocal 1 2\nGetLocal 3 1\nReturn 3\nReturn -\n"
                .as_slice(),
        ),
    ];
    for (source, number, lines) in rows {
        assert_eq!(rt;
            function_text(rt.alloc(), source, number)?.as_slice(),
            lines,
            "of {source:?}"
        );
    }
    Ok(())
}
