//! The calls of several seats in one history.
ghost use Rattle.std.specs.Prelude.{◌≡◌, ℕ, ◌<◌, All, Some, slice_get, vec_len};
ghost use Rattle.safe_table.specs.declared.history.StoreCall.{StoreCall};
ghost use Rattle.safe_table.specs.History.{IsHistory};
ghost use Rattle.safe_table.specs.Seat.{Covers, HasAllSeats, IsMadeBy};

use crate::shared::{Shared, ThreadSeat};
use safe_table::Gathering;
use std::marker::Model;

/// A history that has every call of the seats that were gathered.
#[derive(Drop)]
pub struct Front {
    all: Gathering,
}

impl Model for Front {
    ghost use Rattle.std.specs.Prelude.{List};
    ghost use Rattle.safe_table.specs.declared.history.StoreCall.{StoreCall};

    ghost Value = { List StoreCall };

    ghost view = { λ f. f.all.seen };
}

impl Shared {
    /// A history with each call of each seat, in its order, behind all that the seats had seen.
    pub fn gather(&self, seats: Vec<ThreadSeat>) -> Front
        requires some { 0 < vec_len seats }
        requires own { All (λ s. s.store ≡ self.now) seats.items }
        ensures legal { IsHistory self.now.size result }
        ensures covers { All (Covers result) seats.items }
        ensures named { (k : ℕ) (c : StoreCall) → slice_get result k ≡ Some c
            → c.by < self.now.size.threads }
        ensures whole { HasAllSeats self.now.size seats.items → IsMadeBy seats.items result }
    {
        let mut seats = seats;
        let last = match seats.pop() {
            Some(last) => last,
            None => unreachable!(),
        };
        let mut all = self.table.gather_first(last.seat);
        while let Some(next) = seats.pop() {
            all = self.table.gather_next(all, next.seat);
        }
        Front { all }
    }
}
