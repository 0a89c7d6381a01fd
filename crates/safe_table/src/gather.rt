//! How seats learn from one another, and how they are gathered.
ghost use Rattle.std.specs.Prelude.{◌≡◌, ℕ};
ghost use mathlib.Core.List.{IsPrefix};
ghost use mathlib.Core.Option.{some};
ghost use lib.ListN.{get_elem?};
ghost use Rattle.safe_table.specs.declared.view.Held.{Held};
ghost use Rattle.safe_table.specs.Seat.{Gathered, IsGathering, Meets};

use crate::place::NUMBER_WORD;
use crate::plays::{LearnPlay, TakeIn, Tell};
use crate::table::{SafeSeat, SafeTable};
use crate::view::View;
use atomic_table::Seat;
use std::marker::Model;

/// Seats that are gathered into one.
#[derive(Drop)]
pub struct Gathering {
    seat: Seat<u8, View>,
}

impl Model for Gathering {
    ghost use Rattle.safe_table.specs.Seat.{GatherState};
    ghost use Rattle.safe_table.specs.inner.Seats.{gather_state, IsGathered};

    ghost Value = { GatherState };

    ghost view = { λ g. gather_state g.seat.table_id g.seat.me };

    ghost invariant = { λ g. IsGathered g.seat.table_id g.seat.me };
}

impl SafeTable {
    /// The seat learns all that the other has seen.
    pub fn meet(&self, seat: &mut SafeSeat, other: &mut SafeSeat)
        requires own { seat.old.seat.store ≡ self.now }
        requires others { other.old.seat.store ≡ self.now }
        ensures learnt { Meets seat.old.seat other.old.seat seat.new.seat }
        ensures draft { seat.new.draft ≡ seat.old.draft }
        ensures same { other.new ≡ other.old }
    {
        let shared = &self.table.shared;
        let note = shared.split_seat::<Tell>(&mut other.seat);
        shared.join_seat::<TakeIn>(&mut seat.seat, note);
        shared.load::<LearnPlay>(&mut seat.seat, NUMBER_WORD);
    }

    /// A seat alone.
    pub fn gather_first(&self, seat: SafeSeat) -> Gathering
        requires { seat.seat.store ≡ self.now }
        ensures store { result.store ≡ self.now }
        ensures whole { IsGathering result }
        ensures has { Gathered result seat }
    {
        let mut seat = seat.seat;
        self.table.shared.load::<LearnPlay>(&mut seat, NUMBER_WORD);
        Gathering { seat }
    }

    /// One seat more.
    pub fn gather_next(&self, all: Gathering, seat: SafeSeat) -> Gathering
        requires own { all.store ≡ self.now }
        requires others { seat.seat.store ≡ self.now }
        ensures store { result.store ≡ self.now }
        ensures whole { IsGathering result }
        ensures has { Gathered result seat }
        ensures seen { IsPrefix all.seen result.seen }
        ensures held { (k : ℕ) (x : Held) → get_elem? all.held k ≡ some x
            → get_elem? result.held k ≡ some x }
    {
        let mut all = all.seat;
        let shared = &self.table.shared;
        shared.join_seat::<TakeIn>(&mut all, seat.seat);
        shared.load::<LearnPlay>(&mut all, NUMBER_WORD);
        Gathering { seat: all }
    }
}
