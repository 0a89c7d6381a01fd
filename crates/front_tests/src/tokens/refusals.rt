//! Where a text has no tokens.

use super::*;
use c_tokens::LexRefusal;

/// The text is refused so.
fn expect_refusal(rt: &impl Abort, alloc: Global, source: &[u8], refusal: LexRefusal) {
    let found = lexed(rt, alloc, source).err();
    assert!(rt; found == Some(refusal), "in {source:?}");
}

#[test]
fn refuses_the_first_bad_place(rt: HostRuntime) {
    const ROWS: [(&[u8], LexRefusal); 34] = [
        (b"\n08", LexRefusal::Number { line: 2 }),
        (b"\"a", LexRefusal::Text { line: 1 }),
        (b"a@", LexRefusal::Byte { line: 1 }),
        (b"9223372036854775808", LexRefusal::Number { line: 1 }),
        (b"0xFFFFFFFFFFFFFFFF", LexRefusal::Number { line: 1 }),
        (b"0X1", LexRefusal::Number { line: 1 }),
        (b"0x", LexRefusal::Number { line: 1 }),
        (b"0xg", LexRefusal::Number { line: 1 }),
        (b"00", LexRefusal::Number { line: 1 }),
        (b"1a", LexRefusal::Number { line: 1 }),
        (b"1_", LexRefusal::Number { line: 1 }),
        (b"/* x", LexRefusal::Comment { line: 1 }),
        (b"/*/", LexRefusal::Comment { line: 1 }),
        (b"\na /*\n*\n/", LexRefusal::Comment { line: 2 }),
        (b"/**/\n//\n/*", LexRefusal::Comment { line: 3 }),
        (b"''", LexRefusal::Text { line: 1 }),
        (b"'ab'", LexRefusal::Text { line: 1 }),
        (b"'a", LexRefusal::Text { line: 1 }),
        (b"'''", LexRefusal::Text { line: 1 }),
        (b"'\\a'", LexRefusal::Text { line: 1 }),
        (b"\"\t\"", LexRefusal::Text { line: 1 }),
        (b"\n\n\"\n\"", LexRefusal::Text { line: 3 }),
        (b"\"\\", LexRefusal::Text { line: 1 }),
        (b"\"\\\"", LexRefusal::Text { line: 1 }),
        (b"\"\r\"", LexRefusal::Text { line: 1 }),
        (b"\"\0\"", LexRefusal::Text { line: 1 }),
        (b"\"\x7f\"", LexRefusal::Text { line: 1 }),
        (b"\"\xc8\"", LexRefusal::Text { line: 1 }),
        (b"'\r'", LexRefusal::Text { line: 1 }),
        (b"'\0'", LexRefusal::Text { line: 1 }),
        (b"'\xc8'", LexRefusal::Text { line: 1 }),
        (b"\0", LexRefusal::Byte { line: 1 }),
        (b"a\n\xc8 08 '", LexRefusal::Byte { line: 2 }),
        (b"/\\", LexRefusal::Byte { line: 1 }),
    ];
    for (source, refusal) in &ROWS {
        expect_refusal(&rt, rt.alloc(), source, *refusal);
    }
}
