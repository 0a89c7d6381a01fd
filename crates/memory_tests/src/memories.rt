//! What the region and ordinary memory answer.

use meaning::Entry;
use plain_seq::Plain;
use region_seq::Region;
use std::test::Fail;

#[test]
fn slots_and_threads_are_given_once(rt: HostRuntime) -> Result<(), Fail> {
    let mut region = Region::open(rt.alloc(), 1030, 2)?;
    assert_eq!(rt; region.alloc(4), Some(1026));
    assert_eq!(rt; region.alloc(1), None);
    assert_eq!(rt; region.fork(), Some(1));
    assert_eq!(rt; region.fork(), None);
    Ok(())
}

#[test]
fn slots_that_are_refused_are_drawn(rt: HostRuntime) -> Result<(), Fail> {
    let mut region = Region::open(rt.alloc(), 1030, 1)?;
    assert_eq!(rt; region.alloc(5), None);
    assert_eq!(rt; region.alloc(1), None);
    assert_eq!(rt; region.fork(), None);
    Ok(())
}

#[test]
fn an_address_has_its_last_entry(rt: HostRuntime) -> Result<(), Fail> {
    let mut region = Region::open(rt.alloc(), 1030, 2)?;
    assert_eq!(rt; region.get(128), None);
    region.put(128, Entry::Code(3))?;
    assert_eq!(rt; region.get(128), Some(Entry::Code(3)));
    region.put(128, Entry::Bare(7))?;
    assert_eq!(rt; region.get(128), Some(Entry::Bare(7)));
    assert_eq!(rt; region.get(129), None);
    Ok(())
}

#[test]
fn an_id_ends_once(rt: HostRuntime) -> Result<(), Fail> {
    let mut region = Region::open(rt.alloc(), 1030, 2)?;
    assert_eq!(rt; region.free(1026)?, true);
    assert_eq!(rt; region.free(1026)?, false);
    assert_eq!(rt; region.look(1026), false);
    assert_eq!(rt; region.look(2), true);
    Ok(())
}

#[test]
fn a_word_is_what_was_stored_last(rt: HostRuntime) -> Result<(), Fail> {
    let mut plain = Plain::open(rt.alloc())?;
    assert_eq!(rt; plain.load(5), 0);
    assert_eq!(rt; plain.try_lock(5)?, 0);
    assert_eq!(rt; plain.try_lock(5)?, 1);
    plain.store(5, 0)?;
    assert_eq!(rt; plain.load(5), 0);
    plain.store(5, -7)?;
    assert_eq!(rt; plain.try_lock(5)?, -7);
    assert_eq!(rt; plain.load(5), -7);
    assert_eq!(rt; plain.load(4_294_967_295), 0);
    Ok(())
}
