//! Instructions, registers and slots of functions.

use crate::source::{answer, program};
use std::test::Fail;

/// What a function has.
#[derive(Clone, Copy, Debug, PartialEq, Eq)]
struct Counts {
    instructions: usize,
    registers: u32,
    slots: u32,
}

#[test]
fn functions_have_their_counts(rt: HostRuntime) -> Result<(), Fail> {
    let rows: [(&[u8], usize, usize, u32, u32); 27] = [
        (b"void*p;void f(void){((void(*)(void))p)();}", 0, 6, 3, 0),
        (b"void a(void){}void f(void){(*a)();}", 1, 5, 2, 1),
        (
            b"void(*h)(void);void(*g)(void);void f(void){(h=g)();}",
            0,
            8,
            3,
            0,
        ),
        (b"void a(void){}void f(int x){(x?a:a)();}", 1, 10, 4, 2),
        (
            b"void(*k(void))(void){return 0;}void f(void){k()();}",
            1,
            4,
            1,
            1,
        ),
        (b"int*q;int a[2][2];void f(void){q=a[1];}", 0, 7, 4, 0),
        (
            b"struct s{int a[2];int b;}x;int*q;void f(void){q=x.a;}",
            0,
            7,
            4,
            0,
        ),
        (b"char c;void f(void){c+=1;}", 0, 10, 6, 0),
        (b"int f(char c){return -c+!c;}", 0, 7, 5, 1),
        (b"int*f(int*p){return 1+p;}", 0, 5, 3, 1),
        (b"int f(int*p){return *p++;}", 0, 8, 4, 1),
        (
            b"void w(void*a){}void f(void){spawn((void(*)(void*))spawn(w,0),0);}",
            1,
            13,
            8,
            0,
        ),
        (
            b"int f(int i,int j){int a[2];a[i&&j]=a[i||j];return a[0];}",
            0,
            39,
            15,
            4,
        ),
        (
            b"int g(int a,int b){return a;}int f(int x){return g(x&&1,g(x,2));}",
            1,
            18,
            9,
            4,
        ),
        (
            b"int f(int x,int y){return (x?y:0)||(y?x:1);}",
            0,
            27,
            11,
            5,
        ),
        (b"void f(int x){for(;;){if(x)continue;break;}}", 0, 6, 1, 1),
        (
            b"void f(int x){do{if(x)continue;x--;}while(x);}",
            0,
            11,
            3,
            1,
        ),
        (
            b"struct s{int a;char b[2];};void f(struct s*p,struct s*q){*p=*q;}",
            0,
            21,
            11,
            2,
        ),
        (b"void f(void){int a[3]={1};}", 0, 18, 3, 0),
        (b"void f(void){char s[4]=\"ab\";}", 0, 24, 4, 0),
        (b"int f(int x){return sizeof &x;}", 0, 10, 2, 1),
        (b"struct s{int a;};struct s g;void f(void){g;}", 0, 2, 1, 0),
        (b"void f(void){}", 0, 1, 0, 0),
        (b"void f(int x){while(x)x--;}", 0, 8, 3, 1),
        (b"int f(int x){if(x)return 1;else return 2;}", 0, 8, 1, 1),
        (b"int f(int x){int y=x;{int z=y;return z;}}", 0, 7, 1, 3),
        (b"void f(int x){if(x){if(x)x=1;}else x=2;}", 0, 10, 1, 1),
    ];
    for (source, number, instructions, registers, slots) in rows {
        let program = program(rt.alloc(), source)?;
        let Some(function) = program.functions.get(number) else {
            return Err(Fail::from("no such function"));
        };
        assert_eq!(rt;
            Counts {
                instructions: function.body.len(),
                registers: function.registers,
                slots: function.slots,
            },
            Counts {
                instructions,
                registers,
                slots,
            },
            "of {source:?}"
        );
    }
    Ok(())
}

#[test]
fn a_short_main_has_fourteen_instructions(rt: HostRuntime) -> Result<(), Fail> {
    let source = b"int main(void){int x;x=0;return x&&1;}".as_slice();
    let program = answer(rt.alloc(), source)??;
    let Some(function) = program.functions.get(0) else {
        return Err(Fail::from("no function"));
    };
    assert_eq!(rt; function.body.len(), 14);
    assert_eq!(rt; function.registers, 5);
    assert_eq!(rt; function.slots, 2);
    assert_eq!(rt; program.entry, 1);
    Ok(())
}

#[test]
fn a_call_through_a_global_has_eleven_instructions(rt: HostRuntime) -> Result<(), Fail> {
    let source = b"\
        void (*h)(void);\nvoid a(void){print(1);}\nvoid b(void){print(2);}\n\
        int main(void){h=a;h();return 0;}\n"
        .as_slice();
    let program = answer(rt.alloc(), source)??;
    let mut lengths = Vec::new(rt.alloc());
    for function in program.functions.as_slice() {
        lengths.push(function.body.len())?;
    }
    assert_eq!(rt; lengths.as_slice(), [3, 3, 11, 2].as_slice());
    assert_eq!(rt; program.entry, 3);
    Ok(())
}
