//! What a turn tells beside its action.

ghost use Rattle.std.specs.Prelude.{◌≡◌, ◌<◌, ◌≤◌, ◌+◌, ◌∷◌, ◌++◌, [], length};
ghost use Rattle.machine.specs.Protected.{protected};
ghost use Rattle.machine.specs.Threads as spec;
ghost use Rattle.machine.specs.Values.{told_function};
ghost use Rattle.thread_engine.specs.inner.Turns.{write_of};

use crate::effect::Write;
use crate::frame::value_at;
use meaning::{Note, Place, Value};
use std::marker::Model;
use values::told_function;

/// A turn tells at most so many notes: a transfer, and a function for each parameter.
const MOST_NOTES: usize = 10;

/// The notes of a turn: a transfer, then the functions that it wrote to safe places.
#[derive(Debug, Drop)]
pub struct Notes {
    notes: [Note; 10],
    len: usize,
}

impl Model for Notes {
    ghost use Rattle.std.specs.Prelude.{List, ◌≤◌, take};
    ghost use Rattle.meaning.specs.declared.note.Note.{Note};

    ghost Value = { List Note };

    ghost view = { λ n. take n.len n.notes };

    ghost invariant = { λ n. n.len ≤ 10 };
}

impl Notes {
    /// No note.
    pub fn new() -> Notes
        ensures { result ≡ [] }
    {
        Notes {
            notes: [Note::End; MOST_NOTES],
            len: 0,
        }
    }

    /// No note any more.
    pub(crate) fn clear(&mut self)
        ensures { self.new ≡ [] }
    {
        self.len = 0;
    }

    /// How many there are.
    pub fn len(&self) -> usize
        ensures { result ≡ length self.now }
    {
        self.as_slice().len()
    }

    /// The notes in order, at most 10.
    pub fn as_slice(&self) -> &[Note]
        ensures notes { result.now ≡ self.now }
        ensures few { length result.now ≤ 10 }
    {
        &self.notes[..self.len]
    }

    /// One note more.
    pub(crate) fn push(&mut self, note: Note)
        requires { length self.old < 10 }
        ensures { self.new ≡ self.old ++ note ∷ [] }
    {
        self.notes[self.len] = note;
        self.len += 1;
    }

    /// A slot of a frame of this depth has this value: told where the value is a function.
    pub(crate) fn tell_slot(&mut self, depth: u32, slot: u32, value: Value)
        requires { length self.old < 10 }
        ensures told { self.new ≡ self.old ++ spec.slot_told protected depth slot (told_function value) }
        ensures few { length self.new ≤ length self.old + 1 }
    {
        if let Some(f) = told_function(value) {
            self.push(Note::CodeSlot { depth, slot, f });
        }
    }

    /// A unit of a safe local at this address has this value: told where the value is a function.
    fn tell_unit(&mut self, at: u32, value: Value)
        requires { length self.old < 10 }
        ensures { self.new ≡ self.old ++ spec.unit_told protected at (told_function value) }
    {
        if let Some(f) = told_function(value) {
            self.push(Note::CodeOwn { at, f });
        }
    }

    /// What is written in a frame of this depth: told where it is a function in a safe place.
    pub(crate) fn tell_write(&mut self, depth: u32, write: Write)
        requires { length self.old < 10 }
        ensures { self.new ≡ self.old ++ spec.write_told protected depth (write_of write) }
    {
        match write {
            Write::ToSlot { s, value } => self.tell_slot(depth, s, value),
            Write::ToUnit { at, value, .. } => self.tell_unit(at, value),
            Write::Nothing | Write::ToRegister { .. } | Write::ToObject { .. } => {}
        }
    }

    /// The arguments in the first slots of a frame of this depth: each told that is a function.
    #[tactic(auto, using(crate::proofs::Slots::all_told))]
    pub(crate) fn tell_slots(&mut self, depth: u32, values: &[Value])
        requires { length self.old + length values.now ≤ 9 }
        ensures { self.new ≡ self.old ++ spec.slots_told protected depth 0 values.now }
    {
        for slot in 0..values.len() as u32 {
            self.tell_slot(depth, slot, value_at(values, slot));
        }
    }
}
