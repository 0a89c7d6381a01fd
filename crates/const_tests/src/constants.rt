//! Operators, the order of what is refused, and parts that aren't evaluated.

use crate::world::{Answer, answer_of};
use std::test::Fail;

/// The least number of 64 bits.
const LEAST: i64 = -9_223_372_036_854_775_807 - 1;

#[test]
fn operators_give_these_values(rt: HostRuntime) -> Result<(), Fail> {
    let rows: [(&[u8], i64); 35] = [
        (b"2*sizeof(int)+1", 3),
        (b"'a'", 97),
        (b"7|8", 15),
        (b"6^3", 5),
        (b"6&3", 2),
        (b"3==3", 1),
        (b"3!=3", 0),
        (b"-1<0", 1),
        (b"-1>0", 0),
        (b"2<=2", 1),
        (b"1>=2", 0),
        (b"1<<63", LEAST),
        (b"1<<64", 1),
        (b"1<<-1", LEAST),
        (b"3<<65", 6),
        (b"-8>>1", -4),
        (b"-1>>63", -1),
        (b"8>>66", 2),
        (b"9223372036854775807+1", LEAST),
        (b"-9223372036854775807-2", 9_223_372_036_854_775_807),
        (b"4294967296*4294967296", 0),
        (b"-7/2", -3),
        (b"-7%2", -1),
        (b"(-9223372036854775807-1)/-1", LEAST),
        (b"(-9223372036854775807-1)%-1", 0),
        (b"-(-9223372036854775807-1)", LEAST),
        (b"~0", -1),
        (b"!0", 1),
        (b"!5", 0),
        (b"(char)256", 0),
        (b"(char)-1", 255),
        (b"(c)300", 44),
        (b"(char)255+1", 256),
        (b"-(char)255", -255),
        (b"(int)-1", -1),
    ];
    for (source, value) in rows {
        assert_eq!(rt;
            answer_of(rt.alloc(), source)?,
            Answer::Value(value),
            "of {source:?}"
        );
    }
    Ok(())
}

#[test]
fn only_what_is_evaluated_may_not_divide(rt: HostRuntime) -> Result<(), Fail> {
    let rows: [(&[u8], Answer); 21] = [
        (b"1/0", Answer::Divide),
        (b"1%0", Answer::Divide),
        (b"0&&1/0", Answer::Value(0)),
        (b"1&&1/0", Answer::Divide),
        (b"2&&3", Answer::Value(1)),
        (b"2&&0", Answer::Value(0)),
        (b"1||1/0", Answer::Value(1)),
        (b"0||1/0", Answer::Divide),
        (b"0||2", Answer::Value(1)),
        (b"0||0", Answer::Value(0)),
        (b"1/0&&0", Answer::Divide),
        (b"1?2:1/0", Answer::Value(2)),
        (b"0?1/0:2", Answer::Value(2)),
        (b"1?1/0:2", Answer::Divide),
        (b"0?2:1/0", Answer::Divide),
        (b"1/0?1:1", Answer::Divide),
        (b"0&&(1||1/0)", Answer::Value(0)),
        (b"0&&(1?1/0:1/0)", Answer::Value(0)),
        (b"1||(0&&1/0)", Answer::Value(1)),
        (b"1&&(0||1/0)", Answer::Divide),
        (b"0&&(char)(1/0)", Answer::Value(0)),
    ];
    for (source, want) in rows {
        assert_eq!(rt; answer_of(rt.alloc(), source)?, want, "of {source:?}");
    }
    Ok(())
}

#[test]
fn the_first_cause_decides(rt: HostRuntime) -> Result<(), Fail> {
    let rows: [(&[u8], Answer); 28] = [
        (b"x", Answer::NotConstant),
        (b"\"a\"", Answer::NotConstant),
        (b"0&&x", Answer::NotConstant),
        (b"1||x", Answer::NotConstant),
        (b"1?2:x", Answer::NotConstant),
        (b"0?x:1", Answer::NotConstant),
        (b"x+1/0", Answer::NotConstant),
        (b"1/0+x", Answer::Divide),
        (b"1/0?x:1", Answer::Divide),
        (b"1?x:1/0", Answer::NotConstant),
        (b"(1/0)=2", Answer::Divide),
        (b"x=1/0", Answer::NotConstant),
        (b"1=1/0", Answer::Divide),
        (b"1+=2", Answer::NotConstant),
        (b"f(1/0)", Answer::NotConstant),
        (b"1(1/0,x)", Answer::Divide),
        (b"1(x,1/0)", Answer::NotConstant),
        (b"1[1/0]", Answer::Divide),
        (b"(1/0).a", Answer::Divide),
        (b"(1/0)->a", Answer::Divide),
        (b"1 .a", Answer::NotConstant),
        (b"++(1/0)", Answer::Divide),
        (b"(1/0)--", Answer::Divide),
        (b"1++", Answer::NotConstant),
        (b"&(1/0)", Answer::Divide),
        (b"*1", Answer::NotConstant),
        (b"sizeof x", Answer::NotConstant),
        (b"sizeof(1/0)", Answer::NotConstant),
    ];
    for (source, want) in rows {
        assert_eq!(rt; answer_of(rt.alloc(), source)?, want, "of {source:?}");
    }
    Ok(())
}
