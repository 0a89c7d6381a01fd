//! The store, its seats, and a seat's calls.
ghost use Rattle.std.specs.Prelude.{◌≡◌, ◌+◌, ◌*◌, ◌/◌, ◌<◌, ◌≤◌, IfOk, IfSome, vec_len};
ghost use Rattle.meaning.specs.declared.action.Action.TheVariants.{Get, Put, Alloc, Free, Look, Fork};
ghost use Rattle.meaning.specs.declared.action.Reply.TheVariants.{Nothing, Found, Slot, Flag, Thread};
ghost use Rattle.safe_table.specs.declared.view.Draft.TheVariants.{Blank};
ghost use Rattle.safe_table.specs.Entries.{IsEntry};
ghost use Rattle.safe_table.specs.Seat.{Meets, AreFresh, SeatCall, next_number, puts_left};

use crate::entry::{entry_of, high_word, low_word};
use meaning::Entry;
use safe_table::{Opener, SafeSeat, SafeTable, StoreSize};
use std::alloc::{AllocError, Global};
use std::marker::Model;

/// A safe store that threads share: entries at addresses, slots, ids and thread numbers. No call of
/// it waits, and none but `open` takes memory.
#[derive(Drop)]
pub struct Shared {
    pub(crate) table: SafeTable,
}

impl Model for Shared {
    ghost use Rattle.safe_table.specs.Seat.{StoreName};

    ghost Value = { StoreName };

    ghost view = { λ s. s.table };
}

/// One thread's right to call a store. The thread's calls have its number.
#[derive(Drop)]
pub struct ThreadSeat {
    pub(crate) seat: SafeSeat,
}

impl Model for ThreadSeat {
    ghost use Rattle.std.specs.Prelude.{◌≡◌};
    ghost use Rattle.safe_table.specs.declared.view.Draft.TheVariants.{Blank};
    ghost use Rattle.safe_table.specs.Seat.{SeatState};

    ghost Value = { SeatState };

    ghost view = { λ s. s.seat.seat };

    ghost invariant = { λ s. s.seat.draft ≡ Blank };
}

/// What a `get` answers: the entry, and the number of its put, 0 where there is none.
#[derive(Clone, Copy, Debug, PartialEq, Eq, Drop)]
pub struct Read {
    pub entry: Option<Entry>,
    pub put: u64,
}

/// What a `put` answers: its number, and that of the put that it replaced, 0 where there was none.
#[derive(Clone, Copy, Debug, PartialEq, Eq, Drop)]
pub struct Written {
    pub put: u64,
    pub before: u64,
}

// Gives each number to a seat of its own.
fn deal(
    alloc: Global,
    table: &SafeTable,
    opener: Opener,
    threads: u8,
) -> Result<Vec<ThreadSeat>, AllocError>
    requires own { opener.store ≡ table.now }
    requires none { opener.given ≡ 0 }
    requires all { threads ≡ table.now.size.threads }
    ensures count { IfOk result (λ v. vec_len v ≡ threads) }
    ensures seats { IfOk result (λ v. AreFresh table.now threads v.items) }
{
    let mut opener = opener;
    let mut seats = Vec::new(alloc);
    for _number in 0..threads {
        let seat = table.deal(&mut opener);
        seats.push(ThreadSeat { seat })?;
    }
    Ok(seats)
}

impl Shared {
    /// A store with this many slots and threads, in which each seat may make `turns / 2` puts, and
    /// its seats in order of their numbers.
    pub fn open(
        alloc: Global,
        slots: u32,
        threads: u8,
        turns: u64,
    ) -> Result<(Shared, Vec<ThreadSeat>), AllocError>
        requires slots { (1026 ≤ slots) × (slots ≤ 16384) }
        requires threads { (1 ≤ threads) × (threads ≤ 16) }
        requires turns { threads * turns ≤ 262144 }
        ensures size { IfOk result (λ r.
            r.0.size ≡ record { slots = slots; threads = threads; quota = turns / 2 }) }
        ensures count { IfOk result (λ r. vec_len r.1 ≡ threads) }
        ensures seats { IfOk result (λ r. AreFresh r.0 threads r.1.items) }
    {
        let size = StoreSize {
            slots,
            threads,
            quota: turns / 2,
        };
        let (table, opener) = SafeTable::open(alloc, size)?;
        let seats = deal(alloc, &table, opener, threads)?;
        Ok((Shared { table }, seats))
    }

    /// The first of `k` slots behind all that were asked for, or none where they would pass the
    /// limit.
    pub fn alloc(&self, seat: &mut ThreadSeat, k: u32) -> Option<u32>
        requires own { seat.old.store ≡ self.now }
        requires amount { (1 ≤ k) × (k ≤ 256) }
        ensures called { SeatCall seat.old seat.new (Alloc k) (Slot result) 0 0 }
        ensures own { seat.new.store ≡ self.now }
        ensures left { puts_left seat.new ≡ puts_left seat.old }
    {
        self.table.alloc(&mut seat.seat, k)
    }

    /// Ends an id, and answers whether it wasn't ended.
    pub fn free(&self, seat: &mut ThreadSeat, id: u32) -> bool
        requires own { seat.old.store ≡ self.now }
        requires inside { id < self.now.size.slots }
        ensures called { SeatCall seat.old seat.new (Free id) (Flag result) 0 0 }
        ensures own { seat.new.store ≡ self.now }
        ensures left { puts_left seat.new ≡ puts_left seat.old }
    {
        self.table.free(&mut seat.seat, id)
    }

    /// Whether an id isn't ended.
    pub fn look(&self, seat: &mut ThreadSeat, id: u32) -> bool
        requires own { seat.old.store ≡ self.now }
        requires inside { id < self.now.size.slots }
        ensures called { SeatCall seat.old seat.new (Look id) (Flag result) 0 0 }
        ensures own { seat.new.store ≡ self.now }
        ensures left { puts_left seat.new ≡ puts_left seat.old }
    {
        self.table.look(&mut seat.seat, id)
    }

    /// The next thread number, or none at the limit.
    pub fn fork(&self, seat: &mut ThreadSeat) -> Option<u8>
        requires own { seat.old.store ≡ self.now }
        ensures called { SeatCall seat.old seat.new Fork (Thread result) 0 0 }
        ensures own { seat.new.store ≡ self.now }
        ensures left { puts_left seat.new ≡ puts_left seat.old }
    {
        self.table.fork(&mut seat.seat)
    }

    /// The entry that was put last at an address, none where nothing was put.
    pub fn get(&self, seat: &mut ThreadSeat, a: u32) -> Read
        requires own { seat.old.store ≡ self.now }
        requires inside { a < 64 * self.now.size.slots }
        ensures called { SeatCall seat.old seat.new (Get a) (Found result.entry) result.put 0 }
        ensures own { seat.new.store ≡ self.now }
        ensures entry { IfSome result.entry (IsEntry self.now.size) }
        ensures left { puts_left seat.new ≡ puts_left seat.old }
    {
        let put = self.table.get(&mut seat.seat, a);
        if put == 0 {
            return Read { entry: None, put };
        }
        let low = self.table.read_low(&mut seat.seat, put);
        let high = self.table.read_high(&mut seat.seat, put);
        let entry = Some(entry_of(self.table.size(), low, high));
        Read { entry, put }
    }

    /// Puts an entry at an address.
    pub fn put(&self, seat: &mut ThreadSeat, a: u32, e: Entry) -> Written
        requires own { seat.old.store ≡ self.now }
        requires inside { a < 64 * self.now.size.slots }
        requires entry { IsEntry self.now.size e }
        requires room { 0 < puts_left seat.old }
        ensures called { SeatCall seat.old seat.new (Put a e) Nothing result.put result.before }
        ensures own { seat.new.store ≡ self.now }
        ensures number { result.put ≡ next_number seat.old }
        ensures left { puts_left seat.new + 1 ≡ puts_left seat.old }
    {
        let size = self.table.size();
        let low = low_word(size, &e);
        let high = high_word(size, &e);
        self.table.write_low(&mut seat.seat, low);
        self.table.write_high(&mut seat.seat, low, high);
        let (put, before) = self.table.put(&mut seat.seat, a, &e);
        Written { put, before }
    }

    /// The seat learns all that the other has seen.
    pub fn meet(&self, seat: &mut ThreadSeat, other: &mut ThreadSeat)
        requires own { seat.old.store ≡ self.now }
        requires others { other.old.store ≡ self.now }
        ensures learnt { Meets seat.old other.old seat.new }
        ensures own { seat.new.store ≡ self.now }
        ensures same { other.new ≡ other.old }
    {
        self.table.meet(&mut seat.seat, &mut other.seat);
    }
}

impl ThreadSeat {
    /// Its number, from 0.
    pub fn number(&self) -> u8
        ensures { result ≡ self.now.number }
    {
        self.seat.number()
    }

    /// How many puts it may still make.
    pub fn puts_left(&self) -> u64
        ensures { result ≡ puts_left self.now }
    {
        self.seat.puts_left()
    }
}
