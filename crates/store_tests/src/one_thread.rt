//! The answers of seats that call one after another.

use meaning::Entry;
use shared_region::{Read, Shared, Written};
use std::test::Fail;

#[test]
fn puts_and_gets_of_two_seats_have_their_numbers(rt: HostRuntime) -> Result<(), Fail> {
    let (store, mut seats) = Shared::open(rt.alloc(), 1030, 2, 8)?;
    let (Some(mut one), Some(mut zero)) = (seats.pop(), seats.pop()) else {
        unreachable!()
    };
    assert_eq!(rt; (zero.number(), one.number()), (0, 1));
    let first = store.put(&mut zero, 128, Entry::Code(3));
    assert_eq!(rt; first, Written { put: 1, before: 0 });
    let read = store.get(&mut one, 128);
    assert_eq!(rt;
        read,
        Read {
            entry: Some(Entry::Code(3)),
            put: 1
        }
    );
    let second = store.put(&mut one, 128, Entry::Bare(7));
    assert_eq!(rt; second, Written { put: 5, before: 1 });
    let read = store.get(&mut zero, 128);
    assert_eq!(rt;
        read,
        Read {
            entry: Some(Entry::Bare(7)),
            put: 5
        }
    );
    let third = store.put(&mut zero, 128, Entry::Code(0));
    assert_eq!(rt; third, Written { put: 2, before: 5 });
    assert_eq!(rt; zero.puts_left(), 2);
    let read = store.get(&mut one, 192);
    assert_eq!(rt;
        read,
        Read {
            entry: None,
            put: 0
        }
    );
    let mut all = Vec::new(rt.alloc());
    all.push(zero)?;
    all.push(one)?;
    let _front = store.gather(all);
    Ok(())
}

#[test]
fn one_seat_has_the_answers_of_a_store_of_its_own(rt: HostRuntime) -> Result<(), Fail> {
    let (store, mut seats) = Shared::open(rt.alloc(), 1030, 2, 8)?;
    let Some(mut seat) = seats.pop() else {
        unreachable!()
    };
    assert_eq!(rt; store.alloc(&mut seat, 4), Some(1026));
    assert_eq!(rt; store.alloc(&mut seat, 1), None);
    assert_eq!(rt; store.fork(&mut seat), Some(1));
    assert_eq!(rt; store.fork(&mut seat), None);
    assert_eq!(rt; store.get(&mut seat, 128).entry, None);
    store.put(&mut seat, 128, Entry::Code(3));
    assert_eq!(rt; store.get(&mut seat, 128).entry, Some(Entry::Code(3)));
    assert!(rt; store.free(&mut seat, 1026));
    assert!(rt; !store.free(&mut seat, 1026));
    assert!(rt; !store.look(&mut seat, 1026));
    assert!(rt; store.look(&mut seat, 2));
    Ok(())
}

#[test]
fn each_kind_of_entry_is_read_back(rt: HostRuntime) -> Result<(), Fail> {
    let (store, mut seats) = Shared::open(rt.alloc(), 16384, 1, 8)?;
    let Some(mut seat) = seats.pop() else {
        unreachable!()
    };
    let based = Entry::Based {
        value: 0xffff_ffff,
        lower: 0xffff_fffe,
        upper: 1_048_576,
        id: 16383,
    };
    store.put(&mut seat, 1_048_575, based);
    assert_eq!(rt; store.get(&mut seat, 1_048_575).entry, Some(based));
    store.put(&mut seat, 0, Entry::Bare(0xffff_ffff));
    assert_eq!(rt;
        store.get(&mut seat, 0).entry,
        Some(Entry::Bare(0xffff_ffff))
    );
    store.put(&mut seat, 0, Entry::Code(4095));
    assert_eq!(rt; store.get(&mut seat, 0).entry, Some(Entry::Code(4095)));
    Ok(())
}
