//! One frame of a thread.

ghost use Rattle.std.specs.Prelude.{◌≡◌, ◌<◌, ◌+◌, ◌^◌, pos, [], ◌++◌, length, take, replicate, slice_index_or, slice_set, Some, None, IfOk};
ghost use Rattle.machine.specs.Protected.{protected};
ghost use Rattle.machine.specs.Shapes as shape;
ghost use Rattle.machine.specs.Threads as spec;
ghost use Rattle.thread_engine.specs.inner.Frames.{frame_of};
ghost use Rattle.thread_engine.specs.inner.Turns.{write_of};

use crate::effect::Write;
use machine::{CodeFunction, Origin};
use meaning::{Place, Value};
use std::alloc::{AllocError, Global};
use values::{low_word, number_of};

/// What a register, a slot or a unit has to which nothing was written.
const BLANK: Value = Value::Bare(0);

/// One frame of a thread.
#[derive(Debug, Drop)]
pub(crate) struct Frame {
    pub(crate) function: u32,
    pub(crate) place: u32,
    pub(crate) registers: Vec<Value>,
    pub(crate) slots: Vec<Value>,
    /// The units of its safe locals.
    pub(crate) units: Vec<Value>,
    /// The id of its object, once it was drawn.
    pub(crate) object: Option<u32>,
}

/// What stands at a place of a list, and 0 past its end.
pub(crate) fn value_at(values: &[Value], at: u32) -> Value
    ensures { result ≡ slice_index_or values.now at (Value.Bare (pos 0)) }
{
    match values.get(at as usize) {
        Some(value) => *value,
        None => BLANK,
    }
}

/// Writes at a place of a list, if it is one.
fn set_at(values: &mut Vec<Value>, at: u32, value: Value)
    ensures { values.new.items ≡ slice_set values.old.items at value }
{
    if (at as usize) < values.len() {
        values[at as usize] = value;
    }
}

/// So many values to which nothing was written.
fn blanks(alloc: Global, count: u32) -> Result<Vec<Value>, AllocError>
    ensures { IfOk result (λ values. values.items ≡ replicate count (shape.blank protected)) }
{
    let mut values = Vec::new(alloc);
    values.resize(count as usize, BLANK)?;
    Ok(values)
}

/// The slots of a frame that is opened: an argument for each parameter, and nothing in the others.
#[tactic(auto, using(crate::proofs::Slots::slots_filled))]
fn argument_slots(
    arguments: Vec<Value>,
    parameters: usize,
    slots: u32,
) -> Result<Vec<Value>, AllocError>
    ensures { IfOk result (λ values. values.items
        ≡ take slots (take parameters arguments.items ++ replicate slots (shape.blank protected))) }
{
    let mut values = arguments;
    values.truncate(parameters);
    values.resize(slots as usize, BLANK)?;
    Ok(values)
}

impl Frame {
    /// A frame of no function.
    pub(crate) fn empty(alloc: Global, function: u32) -> Frame
        ensures { frame_of result ≡ spec.opened_in protected None function [] }
    {
        Frame {
            function,
            place: 0,
            registers: Vec::new(alloc),
            slots: Vec::new(alloc),
            units: Vec::new(alloc),
            object: None,
        }
    }

    /// A new frame of a function.
    pub(crate) fn open(
        alloc: Global,
        code: &CodeFunction,
        function: u32,
        arguments: Vec<Value>,
    ) -> Result<Frame, AllocError>
        ensures { IfOk result (λ frame. frame_of frame
            ≡ spec.opened_in protected (Some code.now) function arguments.items) }
    {
        let registers = blanks(alloc, code.registers)?;
        let units = blanks(alloc, code.safe_units)?;
        let slots = argument_slots(arguments, code.ty.params.len(), code.slots)?;
        Ok(Frame {
            function,
            place: 0,
            registers,
            slots,
            units,
            object: None,
        })
    }

    /// What a register has.
    pub(crate) fn register(&self, at: u32) -> Value
        ensures { result ≡ shape.register protected (frame_of self.now) at }
    {
        value_at(self.registers.as_slice(), at)
    }

    /// What a slot has.
    pub(crate) fn slot(&self, at: u32) -> Value
        ensures { result ≡ shape.slot protected (frame_of self.now) at }
    {
        value_at(self.slots.as_slice(), at)
    }

    /// What a unit of a safe local has.
    pub(crate) fn unit(&self, at: u32) -> Value
        ensures { result ≡ slice_index_or (frame_of self.now).units at (Value.Bare (pos 0)) }
    {
        value_at(self.units.as_slice(), at)
    }

    /// The number of what a register has.
    pub(crate) fn number_in(&self, at: u32) -> i64
        ensures { result ≡ shape.number_in protected (frame_of self.now) at }
    {
        number_of(self.register(at))
    }

    /// The address that a register has.
    pub(crate) fn address_in(&self, at: u32) -> u32
        ensures { result ≡ shape.address_in protected (frame_of self.now) at }
    {
        low_word(self.number_in(at))
    }

    /// The id of the frame's object.
    pub(crate) fn object_id(&self) -> u32
        ensures { result ≡ shape.object_of protected (frame_of self.now) }
    {
        self.object.unwrap_or(0)
    }

    /// What a return gives.
    pub(crate) fn result_in(&self, register: Option<u32>) -> Value
        ensures { result ≡ shape.result_in protected (frame_of self.now) register }
    {
        match register {
            None => BLANK,
            Some(register) => self.register(register),
        }
    }

    /// Where an indirect call's pointer was read, in a frame of this depth.
    pub(crate) fn read_at(&self, depth: u32, origin: Origin) -> Place
        ensures { result ≡ shape.read_at protected depth (frame_of self.now) origin }
    {
        match origin {
            Origin::Register(register) => Place::At(self.address_in(register)),
            Origin::Slot(slot) => Place::Slot { depth, slot },
        }
    }

    /// Writes what an instruction writes in its frame.
    pub(crate) fn write(&mut self, write: Write)
        ensures { frame_of self.new ≡ spec.written protected (write_of write) (frame_of self.old) }
    {
        match write {
            Write::Nothing => {}
            Write::ToRegister { d, value } => set_at(&mut self.registers, d, value),
            Write::ToSlot { s, value } => set_at(&mut self.slots, s, value),
            Write::ToUnit { unit, value, .. } => set_at(&mut self.units, unit, value),
            Write::ToObject { id } => self.object = Some(id),
        }
    }

    /// How many values it has.
    pub(crate) fn len(&self) -> u64
        requires { length self.now.registers.items + length self.now.slots.items + length self.now.units.items < 2 ^ 32 }
        ensures { result ≡ length self.now.registers.items + length self.now.slots.items + length self.now.units.items }
    {
        (self.registers.len() + self.slots.len() + self.units.len()) as u64
    }
}
