//! What a seat knows, and the rule. No value of these types is made.
use crate::history::{StoreCall, StoreSize};
use atomic_table::TableRule;
use std::collections::LinkedList;

/// What a seat has stored of its next record.
pub enum Draft {
    Blank,
    Low(u64),
    Both(u64, u64),
}

/// A number, the calls made under it, and its next record.
pub struct Held {
    pub number: u8,
    pub mine: LinkedList<StoreCall>,
    pub draft: Draft,
}

/// What a seat knows.
pub struct View {
    /// False where another seat has taken this one in.
    pub live: bool,
    pub size: StoreSize,
    /// How many numbers the opener has given; nothing in other seats.
    pub given: Option<u8>,
    /// A beginning of the history, which this seat has seen.
    pub seen: LinkedList<StoreCall>,
    /// A second beginning, which a seat that was taken in had seen.
    pub told: LinkedList<StoreCall>,
    pub held: LinkedList<Held>,
}

/// One history, with which the words and the views agree.
pub struct StoreRule;

impl TableRule<u8, View, StoreSize> for StoreRule {
    ghost use Rattle.safe_table.specs.Rule.{IsKept};
    ghost use Rattle.safe_table.specs.inner.Views.{opener};

    ghost holds = { IsKept };

    ghost first = { opener };
}
