//! The records of actions with their replies.
ghost use Rattle.std.specs.Prelude.{◌≡◌, ◌<◌, [], ◌∷◌, codes, decimal, IfSome};
ghost use Rattle.trace.specs.Text.{option_field};
ghost use Rattle.trace_reader.specs.FullText.{IsRecord};
ghost use Rattle.fields.specs.Reading.{Reads};
ghost use Rattle.trace_reader.specs.inner.Items.{Finds, ForkIs, record_fields};
ghost use Rattle.trace_reader.specs.inner.Reading as reader;

use super::notes::read_transfer;
use super::parts::{read_flag, read_found, read_optional};
use fields::{Fields, is_word};
use meaning::{Action, Record, Reply};

/// Reads the record that this word begins, first of all an access of memory.
#[tactic(auto, unfolding(crate::specs::inner::Reading::memory))]
pub(super) fn read_memory(t: u8, word: &[u8], fields: &mut Fields<'_>) -> Option<Record>
    requires { t < 16 }
    ensures reads { Reads (reader.memory t word.now fields.old) result fields.new }
    ensures finds { Finds t word.now fields.old result fields.new }
{
    if is_word(word, b"get") {
        return read_get(t, fields);
    }
    if is_word(word, b"put") {
        return read_put(t, fields);
    }
    if is_word(word, b"load") {
        return read_load(t, fields);
    }
    if is_word(word, b"store") {
        return read_store(t, fields);
    }
    if is_word(word, b"lock") {
        return read_lock(t, fields);
    }
    read_region(t, word, fields)
}

/// Reads the record that this word begins, first of all a call of the region.
#[tactic(auto, unfolding(crate::specs::inner::Reading::region))]
fn read_region(t: u8, word: &[u8], fields: &mut Fields<'_>) -> Option<Record>
    requires { t < 16 }
    ensures reads { Reads (reader.region t word.now fields.old) result fields.new }
    ensures finds { Finds t word.now fields.old result fields.new }
{
    if is_word(word, b"alloc") {
        return read_alloc(t, fields);
    }
    if is_word(word, b"free") {
        return read_free(t, fields);
    }
    if is_word(word, b"look") {
        return read_look(t, fields);
    }
    if is_word(word, b"fork") {
        return read_fork(t, fields);
    }
    read_outside(t, word, fields)
}

/// Reads the record that this word begins, first of all an input, an output or steps.
#[tactic(auto, unfolding(crate::specs::inner::Reading::outside))]
fn read_outside(t: u8, word: &[u8], fields: &mut Fields<'_>) -> Option<Record>
    requires { t < 16 }
    ensures reads { Reads (reader.outside t word.now fields.old) result fields.new }
    ensures finds { Finds t word.now fields.old result fields.new }
{
    if is_word(word, b"input") {
        return read_input(t, fields);
    }
    if is_word(word, b"print") {
        return read_print(t, fields);
    }
    if is_word(word, b"steps") {
        return read_steps(t, fields);
    }
    read_transfer(t, word, fields)
}

/// Reads the address and what was found.
#[tactic(auto, unfolding(crate::specs::inner::Reading::get))]
fn read_get(t: u8, fields: &mut Fields<'_>) -> Option<Record>
    requires { t < 16 }
    ensures reads { Reads (reader.get t fields.old) result fields.new }
    ensures finds { Finds t (codes "get") fields.old result fields.new }
{
    let address = fields.small()?;
    let entry = read_found(fields)?;
    Some(Record::Did {
        t,
        action: Action::Get(address),
        reply: Reply::Found(entry),
    })
}

/// Reads the address and what is put.
#[tactic(auto, unfolding(crate::specs::inner::Reading::put))]
fn read_put(t: u8, fields: &mut Fields<'_>) -> Option<Record>
    requires { t < 16 }
    ensures reads { Reads (reader.put t fields.old) result fields.new }
    ensures finds { Finds t (codes "put") fields.old result fields.new }
{
    let address = fields.small()?;
    let entry = read_found(fields)?;
    match entry {
        None => None,
        Some(entry) => Some(Record::Did {
            t,
            action: Action::Put(address, entry),
            reply: Reply::Nothing,
        }),
    }
}

/// Reads the address and the word.
#[tactic(auto, unfolding(crate::specs::inner::Reading::load))]
fn read_load(t: u8, fields: &mut Fields<'_>) -> Option<Record>
    requires { t < 16 }
    ensures reads { Reads (reader.load t fields.old) result fields.new }
    ensures finds { Finds t (codes "load") fields.old result fields.new }
{
    let address = fields.small()?;
    let word = fields.word()?;
    Some(Record::Did {
        t,
        action: Action::Load(address),
        reply: Reply::Word(word),
    })
}

/// Reads the address and the word that is stored.
#[tactic(auto, unfolding(crate::specs::inner::Reading::store))]
fn read_store(t: u8, fields: &mut Fields<'_>) -> Option<Record>
    requires { t < 16 }
    ensures reads { Reads (reader.store t fields.old) result fields.new }
    ensures finds { Finds t (codes "store") fields.old result fields.new }
{
    let address = fields.small()?;
    let word = fields.word()?;
    Some(Record::Did {
        t,
        action: Action::Store(address, word),
        reply: Reply::Nothing,
    })
}

/// Reads the address and the word that was found.
#[tactic(auto, unfolding(crate::specs::inner::Reading::lock))]
fn read_lock(t: u8, fields: &mut Fields<'_>) -> Option<Record>
    requires { t < 16 }
    ensures reads { Reads (reader.lock t fields.old) result fields.new }
    ensures finds { Finds t (codes "lock") fields.old result fields.new }
{
    let address = fields.small()?;
    let word = fields.word()?;
    Some(Record::Did {
        t,
        action: Action::TryLock(address),
        reply: Reply::Word(word),
    })
}

/// Reads the number of slots and the first of them.
#[tactic(auto, unfolding(crate::specs::inner::Reading::alloc))]
fn read_alloc(t: u8, fields: &mut Fields<'_>) -> Option<Record>
    requires { t < 16 }
    ensures reads { Reads (reader.alloc t fields.old) result fields.new }
    ensures finds { Finds t (codes "alloc") fields.old result fields.new }
{
    let count = fields.small()?;
    let slot = read_optional(fields)?;
    Some(Record::Did {
        t,
        action: Action::Alloc(count),
        reply: Reply::Slot(slot),
    })
}

/// Reads the id and whether it was ended.
#[tactic(auto, unfolding(crate::specs::inner::Reading::free))]
fn read_free(t: u8, fields: &mut Fields<'_>) -> Option<Record>
    requires { t < 16 }
    ensures reads { Reads (reader.free t fields.old) result fields.new }
    ensures finds { Finds t (codes "free") fields.old result fields.new }
{
    let id = fields.small()?;
    let flag = read_flag(fields)?;
    Some(Record::Did {
        t,
        action: Action::Free(id),
        reply: Reply::Flag(flag),
    })
}

/// Reads the id and whether it isn't ended.
#[tactic(auto, unfolding(crate::specs::inner::Reading::look))]
fn read_look(t: u8, fields: &mut Fields<'_>) -> Option<Record>
    requires { t < 16 }
    ensures reads { Reads (reader.look t fields.old) result fields.new }
    ensures finds { Finds t (codes "look") fields.old result fields.new }
{
    let id = fields.small()?;
    let flag = read_flag(fields)?;
    Some(Record::Did {
        t,
        action: Action::Look(id),
        reply: Reply::Flag(flag),
    })
}

/// Reads the thread that was drawn.
#[tactic(auto, unfolding(crate::specs::inner::Reading::fork))]
fn read_fork(t: u8, fields: &mut Fields<'_>) -> Option<Record>
    requires { t < 16 }
    ensures reads { Reads (reader.fork t fields.old) result fields.new }
    ensures finds { Finds t (codes "fork") fields.old result fields.new }
{
    let thread = read_optional(fields)?;
    forked(t, thread)
}

/// The record of a thread that was drawn, if its number is one of 8 bits.
fn forked(t: u8, thread: Option<u32>) -> Option<Record>
    requires { t < 16 }
    ensures is { ForkIs t thread result }
    ensures finds { IfSome result (λ r. IsRecord r × (record_fields r ≡ decimal t ∷ codes "fork" ∷ option_field thread ∷ [])) }
{
    match thread {
        None => Some(Record::Did {
            t,
            action: Action::Fork,
            reply: Reply::Thread(None),
        }),
        Some(thread) => {
            if thread < 256 {
                Some(Record::Did {
                    t,
                    action: Action::Fork,
                    reply: Reply::Thread(Some(thread as u8)),
                })
            } else {
                None
            }
        }
    }
}

/// Reads the input's number and the word that it is.
#[tactic(auto, unfolding(crate::specs::inner::Reading::input))]
fn read_input(t: u8, fields: &mut Fields<'_>) -> Option<Record>
    requires { t < 16 }
    ensures reads { Reads (reader.input t fields.old) result fields.new }
    ensures finds { Finds t (codes "input") fields.old result fields.new }
{
    let number = fields.word()?;
    let word = fields.word()?;
    Some(Record::Did {
        t,
        action: Action::Input(number),
        reply: Reply::Word(word),
    })
}

/// Reads the number that is printed.
#[tactic(auto, unfolding(crate::specs::inner::Reading::print))]
fn read_print(t: u8, fields: &mut Fields<'_>) -> Option<Record>
    requires { t < 16 }
    ensures reads { Reads (reader.print t fields.old) result fields.new }
    ensures finds { Finds t (codes "print") fields.old result fields.new }
{
    let number = fields.word()?;
    Some(Record::Did {
        t,
        action: Action::Print(number),
        reply: Reply::Nothing,
    })
}

/// Reads the number of steps.
#[tactic(auto, unfolding(crate::specs::inner::Reading::steps))]
fn read_steps(t: u8, fields: &mut Fields<'_>) -> Option<Record>
    requires { t < 16 }
    ensures reads { Reads (reader.steps t fields.old) result fields.new }
    ensures finds { Finds t (codes "steps") fields.old result fields.new }
{
    let n = fields.number()?;
    if 0 < n {
        Some(Record::Steps { t, n })
    } else {
        None
    }
}
