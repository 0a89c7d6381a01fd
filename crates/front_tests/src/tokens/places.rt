//! Where tokens stand.

use super::*;

/// A token, the place that it begins at, the place behind it, and its line.
type Place = (Want, u32, u32, u32);

/// Whether the token is this one, and stands there.
fn stands_there(token: &Token, (want, from, to, line): &Place) -> bool {
    is_wanted(&token.kind, want) && token.from == *from && token.to == *to && token.line == *line
}

/// The text has just these tokens, each from its place to its place and on its line.
fn expect_places(rt: &impl Abort, found: &[Token], wanted: &[Place], source: &[u8]) {
    assert!(rt; found.len() == wanted.len(), "in {source:?}");
    for (token, place) in found.iter().zip(wanted) {
        assert!(rt; stands_there(token, place), "in {source:?}");
    }
}

#[test]
fn gives_the_longest_tokens_with_their_places(rt: HostRuntime) -> Result<(), Fail> {
    const ROWS: [(&[u8], &[Place]); 6] = [
        (
            b"a+++b",
            &[
                (Want::Name(b"a"), 0, 1, 1),
                (Want::Mark(Mark::Increment), 1, 3, 1),
                (Want::Mark(Mark::Plus), 3, 4, 1),
                (Want::Name(b"b"), 4, 5, 1),
            ],
        ),
        (
            b"x>>=0x1F;'\\n'",
            &[
                (Want::Name(b"x"), 0, 1, 1),
                (Want::Mark(Mark::ShiftRightAssign), 1, 4, 1),
                (Want::Number(31), 4, 8, 1),
                (Want::Mark(Mark::Semicolon), 8, 9, 1),
                (Want::Number(10), 9, 13, 1),
            ],
        ),
        (
            b"a//b\nc",
            &[(Want::Name(b"a"), 0, 1, 1), (Want::Name(b"c"), 5, 6, 2)],
        ),
        (
            b"\nint\r\n\tx/*\n*/=\"a b\";\n",
            &[
                (Want::Word(Keyword::Int), 1, 4, 2),
                (Want::Name(b"x"), 7, 8, 3),
                (Want::Mark(Mark::Assign), 13, 14, 4),
                (Want::Text(b"a b"), 14, 19, 4),
                (Want::Mark(Mark::Semicolon), 19, 20, 4),
            ],
        ),
        (b"", &[]),
        (b" \t\r\n//", &[]),
    ];
    for (source, wanted) in &ROWS {
        let tokens = lexed(&rt, rt.alloc(), source)?;
        expect_places(&rt, tokens.as_slice(), wanted, source);
    }
    Ok(())
}
