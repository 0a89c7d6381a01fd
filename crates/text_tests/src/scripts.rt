//! Scripts: what their lines give, and the first line that is none.
use meaning::{Event, Inputs};
use script::{Script, ScriptRefusal, read_inputs, read_script};
use std::process::Abort;
use std::test::Fail;

/// What `read_script` answers of a short text.
fn script_of(rt: &(impl Abort + AllocGlobal), text: &[u8]) -> Result<Script, ScriptRefusal> {
    assert!(rt; text.len() < 10_000);
    read_script(rt.alloc(), text)
}

/// What `read_inputs` answers of a short text.
fn inputs_of(rt: &(impl Abort + AllocGlobal), text: &[u8]) -> Result<Inputs, ScriptRefusal> {
    assert!(rt; text.len() < 10_000);
    read_inputs(rt.alloc(), text)
}

/// The first line that is refused, or too many turns.
#[test]
fn refuses_scripts(rt: HostRuntime) -> Result<(), Fail> {
    let first = Some(ScriptRefusal::Line { n: 1 });
    let rows: [(&[u8], Option<ScriptRefusal>); 40] = [
        (b"", None),
        (b"t 16 1", first),
        (b"t 15 1", None),
        (b"t 0 0", None),
        (b"t 0 4000001", first),
        (b"rr 16 250001", Some(ScriptRefusal::TooLong)),
        (b"t 0 1\nrr 2 2000000", Some(ScriptRefusal::TooLong)),
        (b"rr 16 250001\nx", Some(ScriptRefusal::Line { n: 2 })),
        (b"rr 0 1", first),
        (b"rr 17 1", first),
        (b"rr 16 0", None),
        (b"rr 1 4000001", first),
        (b"w 4294967295 -9223372036854775808", None),
        (b"w 4294967296 0", first),
        (b"w 0 9223372036854775808", first),
        (b"w 0 -9223372036854775809", first),
        (b"w 0 -0", first),
        (b"w 0", first),
        (b"w 0 +1", first),
        (b"in 9223372036854775807", None),
        (b"in", first),
        (b"in 1 ", first),
        (b"in -", first),
        (b"t 00 1", first),
        (b"t 0 01", first),
        (b"t 0  1", first),
        (b" t 0 1", first),
        (b"t 0 1 ", first),
        (b"t\t0 1", first),
        (b"t 0 1 1", first),
        (b"T 0 1", first),
        (b"t 0 -1", first),
        (b"\n\n#\n# t 16 1\nt 0 1\n", None),
        (b"\n#\nt 16 1\nx", Some(ScriptRefusal::Line { n: 3 })),
        (b" \n", first),
        (b" #\n", first),
        (b"t 0 1\r\n\r\nt 0 1\r\n", None),
        (b"t 0 1\r\r\n", first),
        (b"t 0 1\r", first),
        (b"#\r", None),
    ];
    for (text, refusal) in rows {
        let found = match script_of(&rt, text) {
            Ok(_) => None,
            Err(refusal) => Some(refusal),
        };
        assert_eq!(rt; found, refusal, "of {text:?}");
    }
    Ok(())
}

/// How many inputs and events there are.
#[test]
fn counts_inputs_and_events(rt: HostRuntime) -> Result<(), Fail> {
    let rows: [(&[u8], usize, usize); 9] = [
        (b"t 0 15", 0, 15),
        (b"t 0 5\nw 128 67108865\nt 0 10", 0, 16),
        (b"rr 2 24", 0, 48),
        (b"t 0 21\nt 1 7", 0, 28),
        (b"t 0 7\nw 66 67108865\nt 1 5\nt 0 3", 0, 16),
        (b"t 0 9\nw 100663298 0\nt 0 6\n", 0, 16),
        (b"rr 2 6000", 0, 12000),
        (b"in -3\nt 0 20", 1, 20),
        (b"t 0 20\nin -3\nin 5", 2, 20),
    ];
    for (text, inputs, events) in rows {
        let script = script_of(&rt, text)?;
        assert_eq!(rt; script.inputs.len(), inputs, "inputs of {text:?}");
        assert_eq!(rt; script.events.len(), events, "events of {text:?}");
    }
    Ok(())
}

/// The events in their order, and the inputs wherever their lines stand.
#[test]
fn gives_events_in_order(rt: HostRuntime) -> Result<(), Fail> {
    let script = script_of(
        &rt,
        b"t 1 2\nin -3\nrr 3 2\r\n# t 4 1\n\nw 128 -67108865\nin 7\nt 15 1",
    )?;
    let events = [
        Event::Turn(1),
        Event::Turn(1),
        Event::Turn(0),
        Event::Turn(1),
        Event::Turn(2),
        Event::Turn(0),
        Event::Turn(1),
        Event::Turn(2),
        Event::Corrupt(128, -67_108_865),
        Event::Turn(15),
    ];
    assert_eq!(rt; script.events.len(), events.len());
    for (i, event) in events.iter().enumerate() {
        assert_eq!(rt; script.events.get(i), Some(event), "event {i}");
    }
    assert_eq!(rt; script.events.get(events.len()), None);
    assert_eq!(rt; script.inputs.as_slice(), [-3, 7].as_slice());
    Ok(())
}

/// Inputs alone.
#[test]
fn reads_inputs_alone(rt: HostRuntime) -> Result<(), Fail> {
    let inputs = inputs_of(&rt, b"in 5\n\n# none\nin -9223372036854775808\r\nin 0")?;
    assert_eq!(rt;
        inputs.as_slice(),
        [5, -9_223_372_036_854_775_808, 0].as_slice()
    );
    let rows: [(&[u8], Option<u32>); 6] = [
        (b"", None),
        (b"#", None),
        (b"in 1\nt 0 1", Some(2)),
        (b"rr 1 0", Some(1)),
        (b"in 1\n\nw 0 0", Some(3)),
        (b"in 01", Some(1)),
    ];
    for (text, line) in rows {
        let found = match inputs_of(&rt, text) {
            Err(ScriptRefusal::Line { n }) => Some(n),
            _ => None,
        };
        assert_eq!(rt; found, line, "of {text:?}");
    }
    Ok(())
}
