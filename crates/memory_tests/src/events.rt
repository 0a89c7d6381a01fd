//! Lists of events, of which those that come several times are kept once.

use meaning::{Event, Events};
use std::test::Fail;

/// An empty list has no event.
#[test]
fn no_events(rt: HostRuntime) -> Result<(), Fail> {
    let events = Events::new(rt.alloc());
    assert_eq!(rt; events.len(), 0);
    assert_eq!(rt; events.get(0), None);
    assert_eq!(rt; events.blocks().len(), 0);
    Ok(())
}

/// Single events, some twice, some never, and a single one behind those.
#[test]
fn events_stand_in_order(rt: HostRuntime) -> Result<(), Fail> {
    let round = [Event::Turn(0), Event::Turn(1), Event::Cut(2)];
    let mut events = Events::new(rt.alloc());
    events.push(Event::Turn(5))?;
    events.push(Event::Corrupt(64, -1))?;
    events.push_repeated(&round, 2)?;
    events.push_repeated(&[Event::Turn(7)], 0)?;
    events.push_repeated(&[], 9)?;
    events.push(Event::Turn(3))?;
    let all = [
        Event::Turn(5),
        Event::Corrupt(64, -1),
        Event::Turn(0),
        Event::Turn(1),
        Event::Cut(2),
        Event::Turn(0),
        Event::Turn(1),
        Event::Cut(2),
        Event::Turn(3),
    ];
    assert_eq!(rt; events.len(), all.len());
    for (i, event) in all.iter().enumerate() {
        assert_eq!(rt; events.get(i), Some(event), "event {i}");
    }
    assert_eq!(rt; events.get(all.len()), None);
    Ok(())
}

/// Four million turns are one block.
#[test]
fn turns_are_one_block(rt: HostRuntime) -> Result<(), Fail> {
    let mut events = Events::new(rt.alloc());
    events.push_repeated(&[Event::Turn(4)], 4_000_000)?;
    assert_eq!(rt; events.len(), 4_000_000);
    assert_eq!(rt; events.get(3_999_999), Some(&Event::Turn(4)));
    assert_eq!(rt; events.get(4_000_000), None);
    assert_eq!(rt; events.blocks().len(), 1);
    Ok(())
}

/// More events than a number counts are none.
#[test]
fn greatest_count(rt: HostRuntime) -> Result<(), Fail> {
    let mut events = Events::new(rt.alloc());
    events.push_repeated(&[Event::Turn(0)], usize::MAX)?;
    assert!(rt; events.push(Event::Turn(1)).is_err());
    assert!(rt;
        events
            .push_repeated(&[Event::Turn(1), Event::Turn(2)], usize::MAX)
            .is_err()
    );
    assert_eq!(rt; events.len(), usize::MAX);
    Ok(())
}
