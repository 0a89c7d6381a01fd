//! A store's size, and the calls of its history. No value of a call is made: histories stand in
//! clauses alone.
use meaning::{Action, Reply};

/// How many slots and threads a store has, and how many puts each of its seats may make.
#[derive(Clone, Copy, Debug, Drop)]
pub struct StoreSize {
    pub slots: u32,
    pub threads: u8,
    pub quota: u64,
}

/// A call of a store: the number of its seat, what it asked, its reply, the number of the put that
/// it made or read, and that of the put that it replaced; 0 where there is none.
pub struct StoreCall {
    pub by: u8,
    pub action: Action,
    pub reply: Reply,
    pub put: u64,
    pub before: u64,
}
