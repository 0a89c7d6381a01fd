//! The limits of programs.

use crate::source::limit;
use elab::LimitName;
use std::alloc::Global;
use std::test::Fail;

/// A source with a piece of text so many times between two others.
fn repeated(
    alloc: Global,
    front: &[u8],
    piece: &[u8],
    times: u32,
    end: &[u8],
) -> Result<Vec<u8>, Fail> {
    let mut text = Vec::from_slice(alloc, front)?;
    for turn in 0..times {
        text.extend_from_slice(piece)?;
    }
    text.extend_from_slice(end)?;
    Ok(text)
}

#[test]
fn small_sources_pass_limits(rt: HostRuntime) -> Result<(), Fail> {
    let rows: [(&[u8], Option<LimitName>); 13] = [
        (
            b"int a[65536]; int b; int main(void){return 0;}",
            Some(LimitName::Globals),
        ),
        (b"int a[65535];int x;int main(void){return 0;}", None),
        (
            b"int a[65536];int x;int main(void){return 0;}",
            Some(LimitName::Globals),
        ),
        (b"int a[65535];int main(void){\"\";return 0;}", None),
        (
            b"int a[65535];int main(void){\"a\";return 0;}",
            Some(LimitName::Globals),
        ),
        (b"int main(void){int a[16384];return 0;}", None),
        (
            b"int main(void){int a[16385];return 0;}",
            Some(LimitName::Frame),
        ),
        (
            b"int a[65536];int b[65536];int main(void){int a[16385];return 0;}",
            Some(LimitName::Frame),
        ),
        (
            b"int main(void){int a[13108]={0};return 0;}",
            Some(LimitName::Code),
        ),
        (
            b"struct s{int a[340];}a,b;int main(void){a=b;return 0;}",
            None,
        ),
        (
            b"struct s{int a[341];}a,b;int main(void){a=b;return 0;}",
            Some(LimitName::Registers),
        ),
        (
            b"struct s{int a[10923];}a,b;int main(void){a=b;return 0;}",
            Some(LimitName::Code),
        ),
        (
            b"struct s{int a[341];}a,b;int f(void){a=b;return 0;}int main(void){int a[13108]={0};return 0;}",
            Some(LimitName::Code),
        ),
    ];
    for (source, which) in rows {
        assert_eq!(rt; limit(rt.alloc(), source)?, which, "of {source:?}");
    }
    Ok(())
}

#[test]
fn a_function_has_at_most_1024_slots(rt: HostRuntime) -> Result<(), Fail> {
    let rows: [(u32, Option<LimitName>); 2] = [(1_023, None), (1_024, Some(LimitName::Slots))];
    for (times, which) in rows {
        let source = repeated(
            rt.alloc(),
            b"int main(void){int a;".as_slice(),
            b"{int x;}".as_slice(),
            times,
            b"return 0;}".as_slice(),
        )?;
        assert_eq!(rt;
            limit(rt.alloc(), source.as_slice())?,
            which,
            "with {times}"
        );
    }
    Ok(())
}
