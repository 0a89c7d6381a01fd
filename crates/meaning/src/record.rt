//! Records of a run.

use super::action::{Action, Reply};
use super::note::Note;
use sqlite_items::Items;

/// One line of a trace.
#[derive(Clone, Copy, Debug, PartialEq, Eq)]
pub enum Record {
    /// `n` consecutive turns of thread `t` without another record. `n` stays at its greatest number
    /// where a sum would pass it.
    Steps { t: u8, n: u64 },
    /// An action of thread `t`, other than `Own` and `Halt`, with its reply.
    Did { t: u8, action: Action, reply: Reply },
    Noted { t: u8, note: Note },
    /// A corruption: word `v` at address `a`.
    Wrote { a: u32, v: i64 },
}

/// Records, in order.
pub type Records = Items<Record>;
