ghost use Rattle.std.specs.Prelude.{IsTrue, ◌↔◌};
ghost use Rattle.meaning.specs.Action.{Fits};

use super::value::{Entry, Stop};

/// What a turn asks of the memories, the inputs or the outside.
#[derive(Clone, Copy, Debug, PartialEq, Eq)]
pub enum Action {
    /// Nothing: the turn concerns the thread's own registers and slots alone.
    Own,
    /// The ordinary word at an address.
    Load(u32),
    /// To set the ordinary word at an address.
    Store(u32, i64),
    /// To set the ordinary word at an address to 1 where it is 0.
    TryLock(u32),
    /// The safe store's entry at an address.
    Get(u32),
    /// To set the safe store's entry at an address.
    Put(u32, Entry),
    /// This many consecutive slots.
    Alloc(u32),
    /// To end an id.
    Free(u32),
    /// Whether an id isn't ended.
    Look(u32),
    /// A thread number.
    Fork,
    /// To print a number.
    Print(i64),
    /// The input of this number, from 0.
    Input(i64),
    /// To stop.
    Halt(Stop),
}

/// What answers an action.
#[derive(Clone, Copy, Debug, PartialEq, Eq)]
pub enum Reply {
    Nothing,
    /// A word: that of a load, the one found by a try-lock, or an input.
    Word(i64),
    Found(Option<Entry>),
    /// The first of the slots, or none where there are too few.
    Slot(Option<u32>),
    Flag(bool),
    Thread(Option<u8>),
}

/// Whether the reply has the action's form.
pub fn fits(action: &Action, reply: &Reply) -> bool
    ensures { IsTrue result ↔ Fits action.now reply.now }
{
    match (action, reply) {
        (Action::Load(_) | Action::TryLock(_) | Action::Input(_), Reply::Word(_)) => true,
        (Action::Get(_), Reply::Found(_)) => true,
        (Action::Alloc(_), Reply::Slot(_)) => true,
        (Action::Free(_) | Action::Look(_), Reply::Flag(_)) => true,
        (Action::Fork, Reply::Thread(_)) => true,
        (
            Action::Own | Action::Store(..) | Action::Put(..) | Action::Print(_) | Action::Halt(_),
            Reply::Nothing,
        ) => true,
        _ => false,
    }
}
