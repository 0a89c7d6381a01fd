//! Type words in casts and under `sizeof`.

use crate::world::{Answer, answer_of};
use std::test::Fail;

#[test]
fn type_words_have_these_units(rt: HostRuntime) -> Result<(), Fail> {
    let rows: [(&[u8], Answer); 27] = [
        (b"sizeof(int)", Answer::Value(1)),
        (b"sizeof(char)", Answer::Value(1)),
        (b"sizeof(void*)", Answer::Value(1)),
        (b"sizeof(void)", Answer::NotConstant),
        (b"sizeof(struct s)", Answer::Value(3)),
        (b"sizeof(struct u)", Answer::NotConstant),
        (b"sizeof(struct u*)", Answer::Value(1)),
        (b"sizeof(struct w)", Answer::NotConstant),
        (b"sizeof(t)", Answer::Value(3)),
        (b"sizeof(t[2])", Answer::Value(6)),
        (b"sizeof(struct s[2][5])", Answer::Value(30)),
        (b"sizeof(int[2+1])", Answer::Value(3)),
        (b"sizeof(int[sizeof(int[2])*2])", Answer::Value(4)),
        (b"sizeof(int[0])", Answer::NotConstant),
        (b"sizeof(int[1])", Answer::Value(1)),
        (b"sizeof(int[65536])", Answer::Value(65_536)),
        (b"sizeof(int[65537])", Answer::NotConstant),
        (b"sizeof(int[65536][2])", Answer::NotConstant),
        (b"sizeof(int[])", Answer::NotConstant),
        (b"sizeof(int*[4])", Answer::Value(4)),
        (b"sizeof(int(*)[4])", Answer::Value(1)),
        (b"sizeof(int(*[4])(void))", Answer::Value(4)),
        (b"sizeof(int(*)(int a,char*,int(*f)(),t))", Answer::Value(1)),
        (b"sizeof(int(void))", Answer::NotConstant),
        (b"(int*)0", Answer::NotConstant),
        (b"(int*)(1/0)", Answer::Divide),
        (b"(void)1", Answer::NotConstant),
    ];
    for (source, want) in rows {
        assert_eq!(rt; answer_of(rt.alloc(), source)?, want, "of {source:?}");
    }
    Ok(())
}

/// `sizeof(int` with so many stars `)`.
fn many_stars(rt: &HostRuntime, stars: u32) -> Result<Answer, Fail> {
    let mut source = Vec::from_slice(rt.alloc(), b"sizeof(int")?;
    for _ in 0..stars {
        source.push(b'*')?;
    }
    source.push(b')')?;
    answer_of(rt.alloc(), source.as_slice())
}

#[test]
fn a_type_has_at_most_1000_parts(rt: HostRuntime) -> Result<(), Fail> {
    assert_eq!(rt; many_stars(&rt, 999)?, Answer::Value(1));
    assert_eq!(rt; many_stars(&rt, 1_000)?, Answer::NotConstant);
    assert_eq!(rt; many_stars(&rt, 5_000)?, Answer::NotConstant);
    Ok(())
}
