//! The laws of threads that run alone.

ghost use Rattle.thread_laws.specs.Theorems.{ThreadsAskWhatFits};

/// In each run of a thread of valid code alone that is answered by a store, its actions fit the store,
/// and its puts are at most half of its counted turns.
pub fn threads_ask_what_fits()
    ensures { ThreadsAskWhatFits }
{}
