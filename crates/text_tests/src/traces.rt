//! Traces, read back from their full texts.
use meaning::{Action, Entry, Record, Reply};
use std::process::Abort;
use std::test::Fail;
use trace::Trace;
use trace_reader::{TraceRefusal, read_trace};

/// What `read_trace` answers of a short text.
fn trace_of(rt: &(impl Abort + AllocGlobal), text: &[u8]) -> Result<Trace, TraceRefusal> {
    assert!(rt; text.len() < 10_000);
    read_trace(rt.alloc(), text)
}

/// A job that calls through a pointer, in full.
const CALLS: &[u8] =
    b"0 call 1 2 0\n0 steps 2\n0 look 2 yes\n0 put 128 code 0\n0 steps 1\n0 look 2 yes\n0 get 128 code 0\n0 icall 2 0 7 at 128\n0 steps 1\n0 print 1\n0 return 2 2 8\n0 steps 1\n0 return 1 3 1\n0 store 96 1\n0 end\n";

/// A return place that was overwritten, on one memory.
const HIJACK: &[u8] =
    b"0 store 100663297 196609\n0 call 1 2 0\n0 steps 3\n0 store 128 67108864\n0 steps 2\n0 load 128 67108864\n0 store 100663298 131080\n0 icall 2 0 7 at 128\nw 100663298 0\n0 steps 1\n0 print 1\n0 load 100663298 0\n0 stop hijack\n";

/// Every other form, with the least and the greatest numbers.
const FORMS: &[u8] =
    b"15 steps 18446744073709551615\n0 steps 1\n15 get 0 none\n15 get 4294967295 bare 4294967295\n15 get 1 based 0 1 2 4294967295\n15 put 1 based 0 1 2 3\n15 put 2 bare 0\n1 alloc 256 1026\n1 alloc 1 none\n1 free 1026 yes\n1 free 0 no\n1 look 1026 no\n1 fork 255\n1 fork none\n1 lock 5 -9223372036854775808\n1 input -1 9223372036854775807\n1 call 0 0 0\n1 icall 1 2 3 slot 4 5\n1 start 0 at 66\n1 slot 0 1 2\n1 own 128 3\n1 stop bounds\n1 stop dead\n1 stop bare\n1 stop code\n1 stop type\n1 stop free\n1 stop divide\n1 stop depth\n1 stop slots\n1 stop budget\n1 stop wild\nw 4294967295 -1\n";

/// What is read has the same text.
#[test]
fn full_texts_are_given_back(rt: HostRuntime) -> Result<(), Fail> {
    let rows: [(&[u8], usize); 7] = [
        (b"", 0),
        (b"in -3\n", 0),
        (b"in -9223372036854775808\nin 0\n0 input 0 -3\n0 end\n", 2),
        (CALLS, 15),
        (HIJACK, 13),
        (FORMS, 33),
        (b"0 steps 1\n1 steps 1\n0 steps 1\n", 3),
    ];
    for (text, len) in rows {
        let trace = trace_of(&rt, text)?;
        assert_eq!(rt; trace.len(), len, "of {text:?}");
        let back = trace.text(true)?;
        assert_eq!(rt; back.as_slice(), text);
    }
    Ok(())
}

/// The records themselves.
#[test]
fn records_are_read(rt: HostRuntime) -> Result<(), Fail> {
    let trace = trace_of(&rt, b"in -3\nin 7\n2 put 128 code 9\nw 66 -5\n2 fork 3\n")?;
    let put = Record::Did {
        t: 2,
        action: Action::Put(128, Entry::Code(9)),
        reply: Reply::Nothing,
    };
    let fork = Record::Did {
        t: 2,
        action: Action::Fork,
        reply: Reply::Thread(Some(3)),
    };
    let wrote = Record::Wrote { a: 66, v: -5 };
    for (i, entry) in [put, wrote, fork].iter().enumerate() {
        assert_eq!(rt; trace.get(i).copied(), Some(*entry), "record {i}");
    }
    assert_eq!(rt; trace.get(3).copied(), None);
    Ok(())
}

/// The first line that no full text has there.
#[test]
fn refuses_at_the_first_line(rt: HostRuntime) -> Result<(), Fail> {
    let rows: [(&[u8], u32); 38] = [
        (b"0 steps 0\n", 1),
        (b"0 steps 18446744073709551616\n", 1),
        (b"0 steps 1\n0 steps 1\n", 2),
        (b"0 end\n0 steps 1\n0 steps 1\n1 steps 0\n", 3),
        (b"0 end\nin 1\n", 2),
        (b"in 1\n0 end\nin 1\n", 3),
        (b"0 end", 1),
        (b"0 end\n0 end", 2),
        (b"0 end\r\n", 1),
        (b"\n", 1),
        (b"0 end\n\n", 2),
        (b"# none\n", 1),
        (b"16 end\n", 1),
        (b"00 end\n", 1),
        (b"-1 end\n", 1),
        (b"0  end\n", 1),
        (b" 0 end\n", 1),
        (b"0 end \n", 1),
        (b"0 end 1\n", 1),
        (b"0\n", 1),
        (b"0 ends\n", 1),
        (b"0 put 1 none\n", 1),
        (b"0 put 4294967296 code 1\n", 1),
        (b"0 get 1 bare -1\n", 1),
        (b"0 get 1\n", 1),
        (b"0 get 1 based 1 2 3\n", 1),
        (b"0 fork 256\n", 1),
        (b"0 fork -1\n", 1),
        (b"0 free 1\n", 1),
        (b"0 look 1 Yes\n", 1),
        (b"0 print -0\n", 1),
        (b"0 print 9223372036854775808\n", 1),
        (b"0 icall 1 2 3 in 4\n", 1),
        (b"0 start 1 66\n", 1),
        (b"0 stop own\n", 1),
        (b"w 4294967296 0\n", 1),
        (b"0 w 1 0\n", 1),
        (b"in 9223372036854775808\n", 1),
    ];
    for (text, line) in rows {
        let found = match trace_of(&rt, text) {
            Err(TraceRefusal::Line { n }) => Some(n),
            _ => None,
        };
        assert_eq!(rt; found, Some(line), "of {text:?}");
    }
    Ok(())
}
