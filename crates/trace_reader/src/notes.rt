//! The records of transfers of control, of code values in safe places, and of stops.
ghost use Rattle.std.specs.Prelude.{◌<◌, ◌∷◌, codes, decimal};
ghost use Rattle.fields.specs.Reading.{Reads};
ghost use Rattle.trace_reader.specs.inner.Items.{Finds};
ghost use Rattle.trace_reader.specs.inner.Reading as reader;

use super::parts::{read_place, stop_of};
use fields::{Fields, is_word};
use meaning::{Note, Record};

/// Reads the record that this word begins, first of all a transfer of control.
#[tactic(auto, unfolding(crate::specs::inner::Reading::transfer))]
pub(super) fn read_transfer(t: u8, word: &[u8], fields: &mut Fields<'_>) -> Option<Record>
    requires { t < 16 }
    ensures reads { Reads (reader.transfer t word.now fields.old) result fields.new }
    ensures finds { Finds t word.now fields.old result fields.new }
{
    if is_word(word, b"call") {
        return read_call(t, fields);
    }
    if is_word(word, b"icall") {
        return read_indirect(t, fields);
    }
    if is_word(word, b"start") {
        return read_start(t, fields);
    }
    if is_word(word, b"return") {
        return read_return(t, fields);
    }
    if is_word(word, b"end") {
        return Some(Record::Noted { t, note: Note::End });
    }
    read_inner(t, word, fields)
}

/// Reads the record that this word begins, if it is a code value or a stop.
#[tactic(auto, unfolding(crate::specs::inner::Reading::inner_note))]
fn read_inner(t: u8, word: &[u8], fields: &mut Fields<'_>) -> Option<Record>
    requires { t < 16 }
    ensures reads { Reads (reader.inner_note t word.now fields.old) result fields.new }
    ensures finds { Finds t word.now fields.old result fields.new }
{
    if is_word(word, b"slot") {
        return read_code_slot(t, fields);
    }
    if is_word(word, b"own") {
        return read_code_own(t, fields);
    }
    if is_word(word, b"stop") {
        return read_stop(t, fields);
    }
    None
}

/// Reads a call's depth, function and place.
#[tactic(auto, unfolding(crate::specs::inner::Reading::call))]
fn read_call(t: u8, fields: &mut Fields<'_>) -> Option<Record>
    requires { t < 16 }
    ensures reads { Reads (reader.call t fields.old) result fields.new }
    ensures finds { Finds t (codes "call") fields.old result fields.new }
{
    let depth = fields.small()?;
    let f = fields.small()?;
    let from = fields.small()?;
    Some(Record::Noted {
        t,
        note: Note::Call { depth, f, from },
    })
}

/// Reads an indirect call's depth, function and place, and where its target was.
#[tactic(auto, unfolding(crate::specs::inner::Reading::icall))]
fn read_indirect(t: u8, fields: &mut Fields<'_>) -> Option<Record>
    requires { t < 16 }
    ensures reads { Reads (reader.icall t fields.old) result fields.new }
    ensures finds { Finds t (codes "icall") fields.old result fields.new }
{
    let depth = fields.small()?;
    let f = fields.small()?;
    let from = fields.small()?;
    let place = read_place(fields)?;
    Some(Record::Noted {
        t,
        note: Note::Indirect {
            depth,
            f,
            from,
            place,
        },
    })
}

/// Reads the function in which a thread starts.
#[tactic(auto, unfolding(crate::specs::inner::Reading::start))]
fn read_start(t: u8, fields: &mut Fields<'_>) -> Option<Record>
    requires { t < 16 }
    ensures reads { Reads (reader.start t fields.old) result fields.new }
    ensures finds { Finds t (codes "start") fields.old result fields.new }
{
    let f = fields.small()?;
    let tag = fields.field()?;
    read_start_at(t, f, tag, fields)
}

/// Reads the address at which the function was found, behind this field.
#[tactic(auto, unfolding(crate::specs::inner::Reading::start_at))]
fn read_start_at(t: u8, f: u32, tag: &[u8], fields: &mut Fields<'_>) -> Option<Record>
    requires { t < 16 }
    ensures reads { Reads (reader.start_at t f tag.now fields.old) result fields.new }
    ensures finds { Finds t (codes "start") (decimal f ∷ tag.now ∷ fields.old) result fields.new }
{
    if !is_word(tag, b"at") {
        return None;
    }
    let at = fields.small()?;
    Some(Record::Noted {
        t,
        note: Note::Start { f, at },
    })
}

/// Reads a return's depth, function and place.
#[tactic(auto, unfolding(crate::specs::inner::Reading::returned))]
fn read_return(t: u8, fields: &mut Fields<'_>) -> Option<Record>
    requires { t < 16 }
    ensures reads { Reads (reader.returned t fields.old) result fields.new }
    ensures finds { Finds t (codes "return") fields.old result fields.new }
{
    let depth = fields.small()?;
    let f = fields.small()?;
    let to = fields.small()?;
    Some(Record::Noted {
        t,
        note: Note::Return { depth, f, to },
    })
}

/// Reads the slot and the function that is written to it.
#[tactic(auto, unfolding(crate::specs::inner::Reading::code_slot))]
fn read_code_slot(t: u8, fields: &mut Fields<'_>) -> Option<Record>
    requires { t < 16 }
    ensures reads { Reads (reader.code_slot t fields.old) result fields.new }
    ensures finds { Finds t (codes "slot") fields.old result fields.new }
{
    let depth = fields.small()?;
    let slot = fields.small()?;
    let f = fields.small()?;
    Some(Record::Noted {
        t,
        note: Note::CodeSlot { depth, slot, f },
    })
}

/// Reads the address and the function that is written to it.
#[tactic(auto, unfolding(crate::specs::inner::Reading::code_own))]
fn read_code_own(t: u8, fields: &mut Fields<'_>) -> Option<Record>
    requires { t < 16 }
    ensures reads { Reads (reader.code_own t fields.old) result fields.new }
    ensures finds { Finds t (codes "own") fields.old result fields.new }
{
    let at = fields.small()?;
    let f = fields.small()?;
    Some(Record::Noted {
        t,
        note: Note::CodeOwn { at, f },
    })
}

/// Reads why the thread stopped.
#[tactic(auto, unfolding(crate::specs::inner::Reading::stopped))]
fn read_stop(t: u8, fields: &mut Fields<'_>) -> Option<Record>
    requires { t < 16 }
    ensures reads { Reads (reader.stopped t fields.old) result fields.new }
    ensures finds { Finds t (codes "stop") fields.old result fields.new }
{
    let word = fields.field()?;
    let stop = stop_of(word)?;
    Some(Record::Noted {
        t,
        note: Note::Stopped(stop),
    })
}
