//! The greatest depth, and the most pairs of parentheses round one thing.

use super::*;

/// What stands before, the part that opens, how often it stands, what stands inside, the part that closes, what stands
/// behind, and whether all that is one item.
type Limit = (
    &'static [u8],
    (&'static [u8], usize, &'static [u8], &'static [u8]),
    &'static [u8],
    bool,
);

/// Each row is one item, or none, as it says.
fn expect_limits(rt: &impl Abort, alloc: Global, limits: &[Limit]) -> Result<(), Fail> {
    for (before, inside, after, is_one) in limits {
        expect_nested(rt, alloc, before, *inside, after, *is_one)?;
    }
    Ok(())
}

#[test]
fn keeps_the_limits_of_depth_and_of_parentheses(rt: HostRuntime) -> Result<(), Fail> {
    const ROWS: [Limit; 20] = [
        // An initialiser, unary operators and a name: two nodes besides the operators.
        (b"int x=", (b"~", 198, b"a", b""), b";", true),
        (b"int x=", (b"~", 199, b"a", b""), b";", false),
        // Each operator to the left is one node more.
        (b"int x=a", (b"+a", 198, b"", b""), b";", true),
        (b"int x=a", (b"+a", 199, b"", b""), b";", false),
        (b"int x=", (b"a=", 198, b"a", b""), b";", true),
        (b"int x=", (b"a=", 199, b"a", b""), b";", false),
        // A function's body is no node, and each block in it is one.
        (b"int f(void)", (b"{", 201, b"", b"}"), b"", true),
        (b"int f(void)", (b"{", 202, b"", b"}"), b"", false),
        // A bracketed declarator with stars is a node.
        (b"int ", (b"*(", 199, b"*x", b")"), b";", true),
        (b"int ", (b"*(", 200, b"*x", b")"), b";", false),
        // Nested braces are initialisers.
        (b"int x=", (b"{", 198, b"a", b"}"), b";", true),
        (b"int x=", (b"{", 199, b"a", b"}"), b";", false),
        // Parentheses make no node, but a ninth pair directly round one thing is none.
        (b"int x=", (b"(", 8, b"a", b")"), b";", true),
        (b"int x=", (b"(", 9, b"a", b")"), b";", false),
        (b"int x=(", (b"(", 8, b"a", b")"), b"+b);", true),
        (b"int x=f((", (b"(", 7, b"a", b")"), b"));", true),
        (b"int ", (b"(", 8, b"x", b")"), b";", true),
        (b"int ", (b"(", 9, b"x", b")"), b";", false),
        (
            b"int ((((((((",
            (b"(", 8, b"x", b")"),
            b"[3]))))))));",
            true,
        ),
        (
            b"int (((((((((",
            (b"(", 8, b"x", b")"),
            b"[3])))))))));",
            false,
        ),
    ];
    expect_limits(&rt, rt.alloc(), &ROWS)
}
