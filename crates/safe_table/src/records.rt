//! Steps on cells and records.
ghost use Rattle.std.specs.Prelude.{◌≡◌, ℕ, ◌+◌, ◌*◌, ◌^◌, ◌<◌, ◌≤◌};
ghost use Rattle.meaning.specs.declared.value.Entry.{Entry};
ghost use Rattle.meaning.specs.declared.action.Action.TheVariants.{Get, Put};
ghost use Rattle.meaning.specs.declared.action.Reply.TheVariants.{Nothing, Found};
ghost use Rattle.safe_table.specs.declared.view.Draft.TheVariants.{Blank, Low, Both};
ghost use Rattle.safe_table.specs.Entries.{IsEntry, low_word, high_word};
ghost use Rattle.safe_table.specs.Seat.{SeatCall, HasGot, LastNames, next_number, puts_left};

use crate::place::{cell_at, low_at};
use crate::plays::{About, GetPlay, HighPlay, LowPlay, PutPlay, ReadPlay};
use crate::table::{SafeSeat, SafeTable};
use meaning::Entry;
use std::marker::Brand;

impl SafeTable {
    // The seat's next record.
    fn next_record(&self, seat: &SafeSeat) -> u64
        requires own { seat.now.seat.store ≡ self.now }
        requires room { 0 < puts_left seat.now.seat }
        ensures number { result + 1 ≡ next_number seat.now.seat }
        ensures within { result < self.now.size.quota * self.now.size.threads }
        ensures small { result < 2 ^ 32 }
    {
        let quota = self.size.quota;
        quota * seat.number as u64 + (quota - seat.left)
    }

    /// Writes the low word of the seat's next record.
    pub fn write_low(&self, seat: &mut SafeSeat, word: u64)
        requires own { seat.old.seat.store ≡ self.now }
        requires room { 0 < puts_left seat.old.seat }
        ensures { seat.new ≡ record { seat = seat.old.seat; draft = Low word } }
    {
        let at = low_at(self.size, self.next_record(seat));
        self.table.shared.store::<LowPlay>(&mut seat.seat, at, word);
    }

    /// Writes the high word behind a low one.
    pub fn write_high(&self, seat: &mut SafeSeat, low: u64, word: u64)
        requires own { seat.old.seat.store ≡ self.now }
        requires room { 0 < puts_left seat.old.seat }
        requires half { seat.old.draft ≡ Low low }
        ensures { seat.new ≡ record { seat = seat.old.seat; draft = Both low word } }
    {
        let at = low_at(self.size, self.next_record(seat)) + 1;
        self.table
            .shared
            .store::<HighPlay>(&mut seat.seat, at, word);
    }

    // The one step of a put: the number that the cell had. The entry is for the proof alone.
    fn swap_cell<B: About>(&self, seat: &mut SafeSeat, a: u32, _entry: &Entry, put: u64) -> u64
        requires about { B.number ≡ a }
        requires entry_is { B.entry ≡ _entry.now }
        requires entry { IsEntry self.now.size B.entry }
        requires own { seat.old.seat.store ≡ self.now }
        requires inside { a < 64 * self.now.size.slots }
        requires room { 0 < puts_left seat.old.seat }
        requires written { seat.old.draft ≡ Both (low_word B.entry) (high_word B.entry) }
        requires number { put ≡ next_number seat.old.seat }
        ensures called { SeatCall seat.old.seat seat.new.seat (Put a B.entry) Nothing put result }
        ensures blank { seat.new.draft ≡ Blank }
        ensures left { puts_left seat.new.seat + 1 ≡ puts_left seat.old.seat }
    {
        let before = self
            .table
            .shared
            .swap::<PutPlay<B>>(&mut seat.seat, cell_at(a), put);
        seat.left -= 1;
        before
    }

    /// Puts the entry, whose words stand in the seat's next record, at an address. The number of
    /// this put, and that of the one that it replaced.
    pub fn put(&self, seat: &mut SafeSeat, a: u32, entry: &Entry) -> (u64, u64)
        requires entry { IsEntry self.now.size entry.now }
        requires own { seat.old.seat.store ≡ self.now }
        requires inside { a < 64 * self.now.size.slots }
        requires room { 0 < puts_left seat.old.seat }
        requires written { seat.old.draft ≡ Both (low_word entry.now) (high_word entry.now) }
        ensures called { SeatCall seat.old.seat seat.new.seat (Put a entry.now) Nothing
            result.0 result.1 }
        ensures number { result.0 ≡ next_number seat.old.seat }
        ensures blank { seat.new.draft ≡ Blank }
        ensures left { puts_left seat.new.seat + 1 ≡ puts_left seat.old.seat }
    {
        let _entry = *entry;
        let put = self.next_record(seat) + 1;
        let before = self.swap_cell::<Brand>(seat, a, entry, put);
        (put, before)
    }

    fn load_cell<B: About>(&self, seat: &mut SafeSeat, a: u32) -> u64
        requires about { B.number ≡ a }
        requires own { seat.old.seat.store ≡ self.now }
        requires inside { a < 64 * self.now.size.slots }
        ensures called { HasGot seat.old.seat seat.new.seat a result }
        ensures blank { seat.new.draft ≡ Blank }
        ensures left { puts_left seat.new.seat ≡ puts_left seat.old.seat }
    {
        self.table
            .shared
            .load::<GetPlay<B>>(&mut seat.seat, cell_at(a))
    }

    /// The number of an address's last put, 0 where there is none.
    pub fn get(&self, seat: &mut SafeSeat, a: u32) -> u64
        requires own { seat.old.seat.store ≡ self.now }
        requires inside { a < 64 * self.now.size.slots }
        ensures called { HasGot seat.old.seat seat.new.seat a result }
        ensures blank { seat.new.draft ≡ Blank }
        ensures left { puts_left seat.new.seat ≡ puts_left seat.old.seat }
    {
        self.load_cell::<Brand>(seat, a)
    }

    /// The low word of the record of a put that the seat's last call names.
    pub fn read_low(&self, seat: &mut SafeSeat, put: u64) -> u64
        requires own { seat.old.seat.store ≡ self.now }
        requires named { (0 < put) × (put ≤ self.now.size.quota * self.now.size.threads) }
        ensures same { seat.new ≡ seat.old }
        ensures word { (e : Entry) → LastNames seat.old.seat.seen put e → result ≡ low_word e }
    {
        let at = low_at(self.size, put - 1);
        self.table.shared.load::<ReadPlay>(&mut seat.seat, at)
    }

    /// The high word of the record of a put that the seat's last call names.
    pub fn read_high(&self, seat: &mut SafeSeat, put: u64) -> u64
        requires own { seat.old.seat.store ≡ self.now }
        requires named { (0 < put) × (put ≤ self.now.size.quota * self.now.size.threads) }
        ensures same { seat.new ≡ seat.old }
        ensures word { (e : Entry) → LastNames seat.old.seat.seen put e → result ≡ high_word e }
    {
        let at = low_at(self.size, put - 1) + 1;
        self.table.shared.load::<ReadPlay>(&mut seat.seat, at)
    }
}
