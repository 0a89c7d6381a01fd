//! Steps on the slot word, the thread word and the end words.
ghost use Rattle.std.specs.Prelude.{◌≡◌, ◌^◌, ◌<◌, ◌≤◌, cond};
ghost use Rattle.meaning.specs.declared.action.Action.TheVariants.{Alloc, Free, Look, Fork};
ghost use Rattle.meaning.specs.declared.action.Reply.TheVariants.{Slot, Flag, Thread};
ghost use Rattle.safe_table.specs.declared.view.Draft.TheVariants.{Blank};
ghost use Rattle.safe_table.specs.Seat.{SeatCall, puts_left};
ghost use Rattle.safe_table.specs.inner.Plays.{SlotIs, ThreadIs};

use crate::history::StoreSize;
use crate::place::{SLOT_WORD, THREAD_WORD, end_at};
use crate::plays::{About, DrawPlay, EndPlay, ForkPlay, LookPlay};
use crate::table::{SafeSeat, SafeTable};
use std::marker::Brand;

/// The first slot of an object.
const FIRST_SLOT: u64 = 1026;

// What a seat adds to a word: nothing from when it was told that no more is left.
fn added(none_left: bool, amount: u32) -> u64
    ensures { result ≡ cond none_left 0 amount }
{
    if none_left { 0 } else { amount as u64 }
}

// What a seat is told that asks for `k` slots, at the slot word found.
fn slot_found(size: StoreSize, late: bool, found: u64, k: u32) -> Option<u32>
    requires { found < 2 ^ 32 }
    ensures { SlotIs size late k found result }
{
    let first = FIRST_SLOT + found;
    if late || first + k as u64 > size.slots as u64 {
        None
    } else {
        Some(first as u32)
    }
}

// What a seat is told that asks for a thread number, at the thread word found.
fn thread_found(size: StoreSize, crowded: bool, found: u64) -> Option<u8>
    requires { found < 2 ^ 32 }
    ensures { ThreadIs size crowded found result }
{
    let next = 1 + found;
    if crowded || next >= size.threads as u64 {
        None
    } else {
        Some(next as u8)
    }
}

impl SafeTable {
    // A seat that was told that there are too few slots adds nothing from then on.
    fn draw<B: About>(&self, seat: &mut SafeSeat, k: u32) -> Option<u32>
        requires about { B.number ≡ k }
        requires own { seat.old.seat.store ≡ self.now }
        requires amount { (1 ≤ k) × (k ≤ 256) }
        ensures called { SeatCall seat.old.seat seat.new.seat (Alloc k) (Slot result) 0 0 }
        ensures blank { seat.new.draft ≡ Blank }
        ensures left { puts_left seat.new.seat ≡ puts_left seat.old.seat }
    {
        let found = self
            .table
            .shared
            .fetch_add::<DrawPlay<B>>(&mut seat.seat, SLOT_WORD, added(seat.late, k));
        let slot = slot_found(self.size, seat.late, found, k);
        seat.late = slot.is_none();
        slot
    }

    /// The first of `k` slots behind all that were asked for, or none where they would pass the
    /// limit.
    pub fn alloc(&self, seat: &mut SafeSeat, k: u32) -> Option<u32>
        requires own { seat.old.seat.store ≡ self.now }
        requires amount { (1 ≤ k) × (k ≤ 256) }
        ensures called { SeatCall seat.old.seat seat.new.seat (Alloc k) (Slot result) 0 0 }
        ensures blank { seat.new.draft ≡ Blank }
        ensures left { puts_left seat.new.seat ≡ puts_left seat.old.seat }
    {
        self.draw::<Brand>(seat, k)
    }

    fn end<B: About>(&self, seat: &mut SafeSeat, id: u32) -> bool
        requires about { B.number ≡ id }
        requires own { seat.old.seat.store ≡ self.now }
        requires inside { id < self.now.size.slots }
        ensures called { SeatCall seat.old.seat seat.new.seat (Free id) (Flag result) 0 0 }
        ensures blank { seat.new.draft ≡ Blank }
        ensures left { puts_left seat.new.seat ≡ puts_left seat.old.seat }
    {
        let at = end_at(self.size, id);
        self.table
            .shared
            .compare_exchange::<EndPlay<B>>(&mut seat.seat, at, 0, 1)
            == 0
    }

    /// Ends an id, and answers whether it wasn't ended.
    pub fn free(&self, seat: &mut SafeSeat, id: u32) -> bool
        requires own { seat.old.seat.store ≡ self.now }
        requires inside { id < self.now.size.slots }
        ensures called { SeatCall seat.old.seat seat.new.seat (Free id) (Flag result) 0 0 }
        ensures blank { seat.new.draft ≡ Blank }
        ensures left { puts_left seat.new.seat ≡ puts_left seat.old.seat }
    {
        self.end::<Brand>(seat, id)
    }

    fn load_end<B: About>(&self, seat: &mut SafeSeat, id: u32) -> bool
        requires about { B.number ≡ id }
        requires own { seat.old.seat.store ≡ self.now }
        requires inside { id < self.now.size.slots }
        ensures called { SeatCall seat.old.seat seat.new.seat (Look id) (Flag result) 0 0 }
        ensures blank { seat.new.draft ≡ Blank }
        ensures left { puts_left seat.new.seat ≡ puts_left seat.old.seat }
    {
        let at = end_at(self.size, id);
        self.table.shared.load::<LookPlay<B>>(&mut seat.seat, at) == 0
    }

    /// Whether an id isn't ended.
    pub fn look(&self, seat: &mut SafeSeat, id: u32) -> bool
        requires own { seat.old.seat.store ≡ self.now }
        requires inside { id < self.now.size.slots }
        ensures called { SeatCall seat.old.seat seat.new.seat (Look id) (Flag result) 0 0 }
        ensures blank { seat.new.draft ≡ Blank }
        ensures left { puts_left seat.new.seat ≡ puts_left seat.old.seat }
    {
        self.load_end::<Brand>(seat, id)
    }

    /// The next thread number, or none at the limit. A seat that was told of none adds nothing from
    /// then on.
    pub fn fork(&self, seat: &mut SafeSeat) -> Option<u8>
        requires own { seat.old.seat.store ≡ self.now }
        ensures called { SeatCall seat.old.seat seat.new.seat Fork (Thread result) 0 0 }
        ensures blank { seat.new.draft ≡ Blank }
        ensures left { puts_left seat.new.seat ≡ puts_left seat.old.seat }
    {
        let found = self
            .table
            .shared
            .fetch_add::<ForkPlay>(&mut seat.seat, THREAD_WORD, added(seat.crowded, 1));
        let thread = thread_found(self.size, seat.crowded, found);
        seat.crowded = thread.is_none();
        thread
    }
}
