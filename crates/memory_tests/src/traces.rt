//! What traces hold, and their texts.
ghost use Rattle.trace.specs.Records.{IsRecord};

use meaning::{Action, Check, Inputs, Note, Record, Reply, Stop};
use std::alloc::{AllocError, Global};
use std::test::Fail;
use trace::Trace;

#[test]
fn steps_of_one_thread_are_one_record(rt: HostRuntime) -> Result<(), Fail> {
    let mut trace = Trace::new(rt.alloc());
    trace.reserve(4)?;
    trace.push(Record::Steps { t: 0, n: 1 });
    trace.push(Record::Steps { t: 0, n: 2 });
    trace.push(Record::Steps {
        t: 1,
        n: 18_446_744_073_709_551_615,
    });
    trace.push(Record::Steps { t: 1, n: 1 });
    assert_eq!(rt; trace.len(), 2);
    assert_eq!(rt; trace.get(0).copied(), Some(Record::Steps { t: 0, n: 3 }));
    let most = Record::Steps {
        t: 1,
        n: 18_446_744_073_709_551_615,
    };
    assert_eq!(rt; trace.get(1).copied(), Some(most));
    assert_eq!(rt; trace.get(2).copied(), None);
    Ok(())
}

#[test]
fn the_full_text_begins_with_the_inputs(rt: HostRuntime) -> Result<(), Fail> {
    let mut inputs = Inputs::new(rt.alloc());
    inputs.push(5)?;
    inputs.push(-6)?;
    let mut trace = Trace::new(rt.alloc());
    trace.start(&inputs)?;
    trace.reserve(3)?;
    trace.push(Record::Steps { t: 0, n: 3 });
    let action = Action::Print(7);
    let reply = Reply::Nothing;
    trace.push(Record::Did {
        t: 0,
        action,
        reply,
    });
    trace.push(Record::Noted {
        t: 0,
        note: Note::End,
    });
    let text = trace.text(true)?;
    assert!(rt; text.as_slice() == b"in 5\nin -6\n0 steps 3\n0 print 7\n0 end\n".as_slice());
    let text = trace.text(false)?;
    assert!(rt; text.as_slice() == b"0 print 7\n0 end\n".as_slice());
    Ok(())
}

#[test]
fn a_trace_is_violated_by_a_failed_check(rt: HostRuntime) -> Result<(), Fail> {
    let mut trace = Trace::new(rt.alloc());
    trace.reserve(2)?;
    trace.push(Record::Noted {
        t: 0,
        note: Note::Stopped(Stop::Divide),
    });
    assert_eq!(rt; trace.violated(), false);
    let note = Note::Stopped(Stop::Failed(Check::Bounds));
    trace.push(Record::Noted { t: 1, note });
    assert_eq!(rt; trace.violated(), true);
    Ok(())
}

#[test]
fn steps_that_grow_leave_equal_ones(rt: HostRuntime) -> Result<(), Fail> {
    let mut trace = Trace::new(rt.alloc());
    trace.reserve(5)?;
    trace.push(Record::Steps { t: 0, n: 1 });
    trace.push(Record::Wrote { a: 8, v: 1 });
    trace.push(Record::Steps { t: 0, n: 1 });
    trace.push(Record::Steps { t: 0, n: 1 });
    trace.push(Record::Wrote { a: 8, v: 1 });
    assert_eq!(rt; trace.len(), 4);
    let text = trace.text(true)?;
    assert!(rt; text.as_slice() == b"0 steps 1\nw 8 1\n0 steps 2\nw 8 1\n".as_slice());
    Ok(())
}

/// Record `i` of a long run: every second one is one of ten, and the others are 300 different ones, again and again.
fn of_long_run(i: u32) -> Record
    ensures { IsRecord result }
{
    if i % 2 == 0 {
        return Record::Wrote { a: i % 600, v: -1 };
    }
    let note = Note::Call {
        depth: 1,
        f: i % 20,
        from: 3,
    };
    Record::Noted { t: 0, note }
}

/// The trace of so many records of that run.
fn long_run(alloc: Global, n: u32) -> Result<Trace, AllocError> {
    let mut trace = Trace::new(alloc);
    for i in 0..n {
        trace.reserve(1)?;
        trace.push(of_long_run(i));
    }
    Ok(trace)
}

/// The texts of so many traces of one record each.
fn texts_alone(alloc: Global, n: u32) -> Result<Vec<u8>, AllocError> {
    let mut text = Vec::new(alloc);
    for i in 0..n {
        let mut alone = Trace::new(alloc);
        alone.reserve(1)?;
        alone.push(of_long_run(i));
        text.append(&mut alone.text(true)?)?;
    }
    Ok(text)
}

/// Whether the trace has the records of that run.
fn has_long_run(trace: &Trace, n: u32) -> bool {
    (0..n).all(|i| trace.get(i as usize).copied() == Some(of_long_run(i)))
}

#[test]
fn a_long_run_has_its_records_in_order(rt: HostRuntime) -> Result<(), Fail> {
    let trace = long_run(rt.alloc(), 2_000)?;
    assert_eq!(rt; trace.len(), 2_000);
    assert!(rt; has_long_run(&trace, 2_000));
    assert_eq!(rt; trace.get(2_000).copied(), None);
    let text = texts_alone(rt.alloc(), 2_000)?;
    assert!(rt; trace.text(true)?.as_slice() == text.as_slice());
    assert!(rt; trace.text(false)?.as_slice() == text.as_slice());
    Ok(())
}
