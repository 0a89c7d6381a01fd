//! The table, its seats, and how seats are numbered.
ghost use Rattle.std.specs.Prelude.{◌≡◌, ℕ, ◌+◌, ◌<◌, IfOk, replicate};
ghost use Rattle.safe_table.specs.declared.view.Draft.TheVariants.{Blank};
ghost use Rattle.safe_table.specs.Rule.{IsSize};
ghost use Rattle.safe_table.specs.Seat.{Opening, fresh_seat, puts_left};

use crate::history::StoreSize;
use crate::place::{NUMBER_WORD, word_count};
use crate::plays::{Deal, NumberPlay};
use crate::view::{StoreRule, View};
use atomic_table::{Seat, Table};
use std::alloc::{AllocError, Global};
use std::marker::Model;

/// A table whose words keep the rule of the shared store.
#[derive(Drop)]
pub struct SafeTable {
    pub(crate) table: Table<u8, View, StoreSize, StoreRule, Global>,
    pub(crate) size: StoreSize,
}

impl Model for SafeTable {
    ghost use Rattle.std.specs.Prelude.{◌≡◌};
    ghost use Rattle.safe_table.specs.Rule.{IsSize, word_count};
    ghost use Rattle.safe_table.specs.Seat.{StoreName};

    ghost Value = { StoreName };

    ghost view = { λ s. record { table_id = s.table.shared.table_id; size = s.size } };

    ghost invariant = { λ s. (s.table.shared.key ≡ s.size)
        × (s.table.shared.table_id.words ≡ word_count s.size) × IsSize s.size };
}

/// What a thread makes its steps with: its number, how many puts it may still make, and whether it
/// was told that there are no more slots or no more thread numbers.
#[derive(Drop)]
pub struct SafeSeat {
    pub(crate) seat: Seat<u8, View>,
    pub(crate) number: u8,
    pub(crate) left: u64,
    pub(crate) late: bool,
    pub(crate) crowded: bool,
}

impl Model for SafeSeat {
    ghost use Rattle.safe_table.specs.Seat.{Drafting};
    ghost use Rattle.safe_table.specs.inner.Seats.{drafting, IsWhole};

    ghost Value = { Drafting };

    ghost view = { λ s. drafting s.seat.table_id s.number s.seat.me };

    ghost invariant = { λ s. IsWhole s.number s.left s.late s.crowded s.seat.me };
}

/// What gives the seats their numbers.
#[derive(Drop)]
pub struct Opener {
    seat: Seat<u8, View>,
    given: u8,
}

impl Model for Opener {
    ghost use Rattle.std.specs.Prelude.{◌≡◌, []};
    ghost use Rattle.safe_table.specs.Seat.{Opening};
    ghost use Rattle.safe_table.specs.inner.Views.{opened};

    ghost Value = { Opening };

    ghost view = { λ o. record {
      store = record { table_id = o.seat.table_id; size = o.seat.me.0.size };
      given = o.given;
    } };

    ghost invariant = { λ o. o.seat.me ≡ (opened o.seat.me.0.size o.given, []) };
}

fn zeros(alloc: Global, count: usize) -> Result<Vec<u64>, AllocError>
    ensures { IfOk result (λ v. v.items ≡ replicate count 0) }
{
    Vec::from_elem(alloc, 0u64, count)
}

impl SafeTable {
    /// Its size.
    pub fn size(&self) -> StoreSize
        ensures is { result ≡ self.now.size }
        ensures fits { IsSize result }
    {
        self.size
    }

    /// A table with no calls, and its opener.
    pub fn open(alloc: Global, size: StoreSize) -> Result<(SafeTable, Opener), AllocError>
        requires size { IsSize size }
        ensures size { IfOk result (λ r. r.0.size ≡ size) }
        ensures opener { IfOk result (λ r. r.1 ≡ record { store = r.0; given = 0 }) }
    {
        let words = zeros(alloc, word_count(size))?;
        let (table, seat) = Table::of_words(alloc, words.as_slice(), &size)?;
        Ok((SafeTable { table, size }, Opener { seat, given: 0 }))
    }

    /// A seat with the next number.
    pub fn deal(&self, opener: &mut Opener) -> SafeSeat
        requires own { opener.old.store ≡ self.now }
        requires few { opener.old.given < self.now.size.threads }
        ensures next { opener.new ≡ record { store = self.now; given = opener.old.given + 1 } }
        ensures fresh { result
            ≡ record { seat = fresh_seat self.now opener.old.given; draft = Blank } }
    {
        let shared = &self.table.shared;
        shared.fetch_add::<NumberPlay>(&mut opener.seat, NUMBER_WORD, 1);
        let seat = shared.split_seat::<Deal>(&mut opener.seat);
        let number = opener.given;
        opener.given += 1;
        SafeSeat {
            seat,
            number,
            left: self.size.quota,
            late: false,
            crowded: false,
        }
    }
}

impl SafeSeat {
    /// Its number.
    pub fn number(&self) -> u8
        ensures { result ≡ self.now.seat.number }
    {
        self.number
    }

    /// How many puts it may still make.
    pub fn puts_left(&self) -> u64
        ensures { result ≡ puts_left self.now.seat }
    {
        self.left
    }
}
