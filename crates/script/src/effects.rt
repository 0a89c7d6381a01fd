//! What the lines of a script give.
ghost use Rattle.std.specs.Prelude.{◌≡◌, ◌<◌, ◌^◌, ◌++◌, replicate, IsTrue, ◌↔◌, IfOk, OnOk};
ghost use Rattle.script.specs.Script.{IsLine, IsInputLine, line_events, line_inputs, line_turns, round, rounds_of};
ghost use Rattle.script.specs.inner.Reading.{line_of};

use super::grammar::Line;
use meaning::{Event, Events, Inputs};
use sqlite_items::Items;
use std::alloc::{AllocError, Global};

/// Adds so many turns of a thread at the end.
fn push_turns(events: &mut Events, thread: u8, turns: u32) -> Result<(), AllocError>
    ensures { OnOk result (events.new ≡ events.old ++ replicate turns (Event.Turn thread)) }
{
    if turns == 1 {
        return events.push(Event::Turn(thread));
    }
    events.push_repeated(&[Event::Turn(thread)], turns as usize)
}

/// One turn of each of so many threads.
fn round(alloc: Global, threads: u8) -> Result<Items<Event>, AllocError>
    ensures { IfOk result (λ turns. turns ≡ round threads) }
{
    let mut turns = Items::new(alloc);
    for thread in 0..threads {
        turns.push(Event::Turn(thread))?;
    }
    Ok(turns)
}

/// Adds so many rounds of so many threads at the end.
fn push_rounds(
    alloc: Global,
    events: &mut Events,
    threads: u8,
    rounds: u32,
) -> Result<(), AllocError>
    ensures { OnOk result (events.new ≡ events.old ++ rounds_of threads rounds) }
{
    let round = round(alloc, threads)?;
    events.push_repeated(round.as_slice(), rounds as usize)
}

impl<'a> Line<'a> {
    /// The number of turns.
    pub(super) fn turns(self) -> u64
        ensures { result ≡ line_turns (line_of self.entry) }
    {
        match self {
            Line::Turns(_, turns) => u64::from(turns),
            Line::Rounds(threads, rounds) => u64::from(threads) * u64::from(rounds),
            Line::Empty | Line::Comment(_) | Line::Write(..) | Line::Input(_) => 0,
        }
    }

    /// Whether it may stand where there are inputs alone.
    pub(super) fn is_input(self) -> bool
        requires { IsLine (line_of self) }
        ensures { IsTrue result ↔ IsInputLine (line_of self.entry) }
    {
        match self {
            Line::Empty | Line::Comment(_) | Line::Input(_) => true,
            Line::Turns(..) | Line::Rounds(..) | Line::Write(..) => false,
        }
    }

    /// Adds the input at the end.
    pub(super) fn push_input(self, inputs: &mut Inputs) -> Result<(), AllocError>
        ensures { OnOk result (inputs.new ≡ inputs.old ++ line_inputs (line_of self.entry)) }
    {
        match self {
            Line::Input(word) => inputs.push(word),
            Line::Empty | Line::Comment(_) | Line::Turns(..) | Line::Rounds(..) | Line::Write(..) =>
                Ok(()),
        }
    }

    /// Adds the events at the end.
    pub(super) fn push_events(self, alloc: Global, events: &mut Events) -> Result<(), AllocError>
        ensures { OnOk result (events.new ≡ events.old ++ line_events (line_of self.entry)) }
    {
        match self {
            Line::Turns(thread, turns) => push_turns(events, thread, turns),
            Line::Rounds(threads, rounds) => push_rounds(alloc, events, threads, rounds),
            Line::Write(address, word) => events.push(Event::Corrupt(address, word)),
            Line::Empty | Line::Comment(_) | Line::Input(_) => Ok(()),
        }
    }
}
