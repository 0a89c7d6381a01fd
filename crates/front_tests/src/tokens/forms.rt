//! The kinds of tokens, form by form.

use super::*;

#[test]
fn gives_the_kind_of_each_form(rt: HostRuntime) -> Result<(), Fail> {
    const ROWS: [(&[u8], &[Want]); 17] = [
        // Words and numbers.
        (
            b"int intx _int Int x9_ i",
            &[
                Want::Word(Keyword::Int),
                Want::Name(b"intx"),
                Want::Name(b"_int"),
                Want::Name(b"Int"),
                Want::Name(b"x9_"),
                Want::Name(b"i"),
            ],
        ),
        (
            b"9223372036854775807 0x7fffffffffffffff 0 0x0 0x000000000000000000aF",
            &[
                Want::Number(9223372036854775807),
                Want::Number(9223372036854775807),
                Want::Number(0),
                Want::Number(0),
                Want::Number(175),
            ],
        ),
        // Marks, the longest at each place.
        (
            b"1.5",
            &[Want::Number(1), Want::Mark(Mark::Dot), Want::Number(5)],
        ),
        (b"..", &[Want::Mark(Mark::Dot), Want::Mark(Mark::Dot)]),
        (
            b"<<= << <",
            &[
                Want::Mark(Mark::ShiftLeftAssign),
                Want::Mark(Mark::ShiftLeft),
                Want::Mark(Mark::Less),
            ],
        ),
        (
            b"<<<=>>>=",
            &[
                Want::Mark(Mark::ShiftLeft),
                Want::Mark(Mark::LessEqual),
                Want::Mark(Mark::ShiftRight),
                Want::Mark(Mark::GreaterEqual),
            ],
        ),
        (
            b"->-- - ---",
            &[
                Want::Mark(Mark::Arrow),
                Want::Mark(Mark::Decrement),
                Want::Mark(Mark::Minus),
                Want::Mark(Mark::Decrement),
                Want::Mark(Mark::Minus),
            ],
        ),
        (
            b"a/b/=/ *c",
            &[
                Want::Name(b"a"),
                Want::Mark(Mark::Slash),
                Want::Name(b"b"),
                Want::Mark(Mark::SlashAssign),
                Want::Mark(Mark::Slash),
                Want::Mark(Mark::Star),
                Want::Name(b"c"),
            ],
        ),
        // White space and comments between tokens.
        (b"a/**/b", &[Want::Name(b"a"), Want::Name(b"b")]),
        (b"/***/a", &[Want::Name(b"a")]),
        (b"/*/*/a", &[Want::Name(b"a")]),
        (b"/*\r\0\xc8 ' \" // */a", &[Want::Name(b"a")]),
        (b"//\r\0\xc8 /* \na", &[Want::Name(b"a")]),
        (b"a\rb", &[Want::Name(b"a"), Want::Name(b"b")]),
        // Characters and strings, by the bytes that they stand for.
        (
            b"'\\'' '\"' '\\\"' '\\\\' '\\0' '\\t' ' ' '~'",
            &[
                Want::Number(39),
                Want::Number(34),
                Want::Number(34),
                Want::Number(92),
                Want::Number(0),
                Want::Number(9),
                Want::Number(32),
                Want::Number(126),
            ],
        ),
        (
            b"\"\\\"\" \"'\" \"\\'\" \"\" \"/*//\" \"\\n\\t\\0\\\\\"",
            &[
                Want::Text(b"\""),
                Want::Text(b"'"),
                Want::Text(b"'"),
                Want::Text(b""),
                Want::Text(b"/*//"),
                Want::Text(b"\n\t\0\\"),
            ],
        ),
        (
            b"\"a\"\"b\"'c'd",
            &[
                Want::Text(b"a"),
                Want::Text(b"b"),
                Want::Number(99),
                Want::Name(b"d"),
            ],
        ),
    ];
    for (source, wanted) in &ROWS {
        expect_kinds(&rt, rt.alloc(), source, wanted)?;
    }
    Ok(())
}
