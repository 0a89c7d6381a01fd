//! Threads that call one store beside one another.
ghost use Rattle.std.specs.Prelude.{◌≡◌, ◌*◌, ◌^◌, ◌≤◌, ◌<◌, All};
ghost use Rattle.safe_table.specs.Seat.{puts_left};

use meaning::Entry;
use shared_region::{Shared, ThreadSeat};
use std::alloc::AllocError;
use std::sync::Wait;
use std::test::Fail;
use std::thread;
use std::thread::Threads;

/// A hundred calls at one address, put and get by turns. Each put is the number that it has, and
/// each get answers the number of the put that it names.
fn put_and_get(store: &Shared, seat: ThreadSeat, quota: u64) -> bool
    requires own { seat.store ≡ store.now }
    requires inside { 128 < 64 * store.now.size.slots }
    requires room { 50 ≤ puts_left seat }
    requires small { quota < 2 ^ 16 }
{
    let mut seat = seat;
    let first = quota * seat.number() as u64 + 1;
    let mut good = true;
    for n in 0u64..50 {
        let number = first + n;
        let written = store.put(&mut seat, 128, Entry::Bare(number as u32));
        let read = store.get(&mut seat, 128);
        good &= written.put == number;
        good &= match read.entry {
            Some(Entry::Bare(value)) => value as u64 == read.put,
            _ => false,
        };
    }
    good
}

fn both<R: Threads + Wait>(rt: &R, store: &Shared, zero: ThreadSeat, one: ThreadSeat) -> bool
    requires own { (zero.store ≡ store.now) × (one.store ≡ store.now) }
    requires inside { 128 < 64 * store.now.size.slots }
    requires room { (50 ≤ puts_left zero) × (50 ≤ puts_left one) }
{
    thread::scope(
        thread::scope_env(),
        rt,
        move |scope| -> bool
            requires { (zero.store ≡ store.now) × (one.store ≡ store.now)
                × (128 < 64 * store.now.size.slots)
                × (50 ≤ puts_left zero) × (50 ≤ puts_left one) }
        {
            let first = scope.spawn(move || put_and_get(store, zero, 50));
            let second = scope.spawn(move || put_and_get(store, one, 50));
            match (first, second) {
                (Ok(first), Ok(second)) => first.join(rt) && second.join(rt),
                _ => false,
            }
        },
    )
}

#[test]
fn two_threads_read_each_other_s_puts(rt: HostRuntime) -> Result<(), Fail> {
    let (store, mut seats) = Shared::open(rt.alloc(), 1026, 2, 100)?;
    let (Some(one), Some(zero)) = (seats.pop(), seats.pop()) else {
        unreachable!()
    };
    assert!(rt; both(&rt, &store, zero, one));
    Ok(())
}

/// What a thread was told: two slots, whether its free of each id was the first, and whether a look
/// behind it found the id ended.
#[derive(Drop)]
struct Told {
    slots: [Option<u32>; 2],
    freed: [bool; 8],
    ended: [bool; 8],
}

/// Two allocs, then a free of each of eight ids and a look at it.
fn alloc_free_and_look(store: &Shared, seat: ThreadSeat) -> Told
    requires own { seat.store ≡ store.now }
    requires inside { 1034 ≤ store.now.size.slots }
{
    let mut seat = seat;
    let slots = [store.alloc(&mut seat, 1), store.alloc(&mut seat, 1)];
    let mut told = Told {
        slots,
        freed: [false; 8],
        ended: [false; 8],
    };
    for i in 0..8 {
        let id = 1026 + i as u32;
        told.freed[i] = store.free(&mut seat, id);
        told.ended[i] = !store.look(&mut seat, id);
    }
    told
}

fn all_at_once<R: Threads + Sync>(
    rt: &R,
    store: &Shared,
    seats: Vec<ThreadSeat>,
) -> Result<Vec<Told>, AllocError>
    requires inside { 1034 ≤ store.now.size.slots }
    requires own { All (λ s. s.store ≡ store.now) seats.items }
{
    thread::map_vec(
        rt,
        seats,
        &|seat: ThreadSeat| -> Told
            requires { (1034 ≤ store.now.size.slots) × (seat.store ≡ store.now) }
        { alloc_free_and_look(store, seat) },
    )
}

#[test]
fn each_slot_is_drawn_once_and_each_id_ends_once(rt: HostRuntime) -> Result<(), Fail> {
    let (store, seats) = Shared::open(rt.alloc(), 1034, 4, 8)?;
    let told = all_at_once(&rt, &store, seats)?;
    assert_eq!(rt; told.len(), 4);
    for i in 0..8 {
        let mut drawn = 0u32;
        let mut freed = 0u32;
        for t in told.as_slice() {
            drawn = drawn.saturating_add((t.slots[0] == Some(1026 + i as u32)) as u32);
            drawn = drawn.saturating_add((t.slots[1] == Some(1026 + i as u32)) as u32);
            freed = freed.saturating_add(t.freed[i] as u32);
            assert!(rt; t.ended[i]);
        }
        assert_eq!(rt; (drawn, freed), (1, 1), "at {i}");
    }
    Ok(())
}
