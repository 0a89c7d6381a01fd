//! Lists of events.
ghost use Rattle.std.specs.Prelude.{◌≡◌, ◌+◌, ◌*◌, ◌∷◌, ◌++◌, [], length, slice_get, Option, IfOk, IfErr, IfSome, MatchOption, OnOk, OnErr};
ghost use Rattle.meaning.specs.Blocks.{events_of, listed, repeated};

use super::event::Event;
use sqlite_items::Items;
use std::alloc::{AllocError, Global};
use std::marker::Model;

/// Some events, and how often they come, one time behind the other.
#[derive(Drop)]
pub struct Block {
    /// The events, in order.
    pub events: Items<Event>,
    /// How often they come.
    pub times: usize,
}

impl Block {
    /// The event of this number, from 0, or by how much the number is above that of the last one.
    fn find(&self, i: usize) -> Result<&Event, usize>
        ensures found { IfOk result (λ event. slice_get (events_of self.now) i ≡ Option.Some event.now) }
        ensures behind { IfErr result (λ rest. i ≡ length (events_of self.now) + rest) }
    {
        let long = self.events.len();
        if long == 0 {
            return Err(i);
        }
        if i / long < self.times {
            Ok(&self.events.as_slice()[i % long])
        } else {
            Err(i - self.times * long)
        }
    }
}

/// A list of events. Events that come several times are kept once, with how often they come.
#[derive(Drop)]
pub struct Events {
    alloc: Global,
    blocks: Vec<Block>,
    len: usize,
}

impl Model for Events {
    ghost use Rattle.std.specs.Prelude.{◌≡◌, List, length};
    ghost use Rattle.std.specs.Coded.{coded_list};
    ghost use Rattle.meaning.specs.Blocks.{listed};
    ghost use Rattle.meaning.specs.contracts.event.Event as event_contract;
    ghost use Rattle.meaning.specs.declared.event.Event.{Event};

    ghost Value = { List Event };

    ghost coded = { coded_list event_contract.the_row.coded };

    ghost view = { λ e. listed e.blocks.items };

    ghost invariant = { λ e. e.len ≡ length (listed e.blocks.items) };
}

impl Events {
    /// No events.
    pub fn new(alloc: Global) -> Events
        ensures { result ≡ [] }
    {
        Events {
            alloc,
            blocks: Vec::new(alloc),
            len: 0,
        }
    }

    /// Adds an event at the end.
    ///
    /// # Errors
    ///
    /// `AllocError`, which leaves the list as it was.
    pub fn push(&mut self, item: Event) -> Result<(), AllocError>
        ensures ok { OnOk result (self.new ≡ self.old ++ item ∷ []) }
        ensures err { OnErr result (self.new ≡ self.old) }
    {
        let Some(len) = self.len.checked_add(1) else {
            return Err(AllocError);
        };
        push_event(self.alloc, &mut self.blocks, item)?;
        self.len = len;
        Ok(())
    }

    /// Adds these events at the end so many times.
    ///
    /// # Errors
    ///
    /// `AllocError`, which leaves the list as it was.
    pub fn push_repeated(&mut self, events: &[Event], times: usize) -> Result<(), AllocError>
        ensures ok { OnOk result (self.new ≡ self.old ++ repeated times events.now) }
        ensures err { OnErr result (self.new ≡ self.old) }
    {
        let Some(len) = lengthened(self.len, events, times) else {
            return Err(AllocError);
        };
        push_block(self.alloc, &mut self.blocks, events, times)?;
        self.len = len;
        Ok(())
    }

    /// How many events there are.
    pub fn len(&self) -> usize
        ensures { result ≡ length self.now }
    {
        self.len
    }

    /// The event of this number, from 0, and None where there are no more than so many. This takes a step for each block; who
    /// goes over all events takes `blocks`.
    pub fn get(&self, i: usize) -> Option<&Event>
        ensures { MatchOption result (slice_get self.now i ≡ Option.None) (λ event. slice_get self.now i ≡ Option.Some event.now) }
    {
        find(self.blocks.as_slice(), i)
    }

    /// The events in blocks, in order.
    pub fn blocks(&self) -> &[Block]
        ensures { listed result.now ≡ self.now }
    {
        self.blocks.as_slice()
    }
}

/// The event of this number in these blocks.
fn find(blocks: &[Block], i: usize) -> Option<&Event>
    ensures { MatchOption result (slice_get (listed blocks.now) i ≡ Option.None) (λ event. slice_get (listed blocks.now) i ≡ Option.Some event.now) }
{
    let mut rest = i;
    for block in blocks {
        match block.find(rest) {
            Ok(event) => return Some(event),
            Err(behind) => rest = behind,
        }
    }
    None
}

/// A length and that of so many times these events, if that is a number.
fn lengthened(len: usize, events: &[Event], times: usize) -> Option<usize>
    ensures { IfSome result (λ sum. sum ≡ len + times * length events.now) }
{
    let more = times.checked_mul(events.len())?;
    len.checked_add(more)
}

/// Adds a block of these events at the end.
fn push_block(
    alloc: Global,
    blocks: &mut Vec<Block>,
    events: &[Event],
    times: usize,
) -> Result<(), AllocError>
    ensures ok { OnOk result (listed blocks.new.items ≡ listed blocks.old.items ++ repeated times events.now) }
    ensures err { OnErr result (blocks.new.items ≡ blocks.old.items) }
{
    let events = Items::from_slice(alloc, events)?;
    blocks.push(Block { events, times })?;
    Ok(())
}

/// Adds an event to the last block, where that comes once, and as a block else.
fn push_event(alloc: Global, blocks: &mut Vec<Block>, item: Event) -> Result<(), AllocError>
    ensures ok { OnOk result (listed blocks.new.items ≡ listed blocks.old.items ++ item ∷ []) }
    ensures err { OnErr result (blocks.new.items ≡ blocks.old.items) }
{
    match blocks.last_mut() {
        Some(last) if last.times == 1 => last.events.push(item)?,
        _ => push_block(alloc, blocks, &[item], 1)?,
    }
    Ok(())
}
