//! What an instruction does once its action is answered.

ghost use Rattle.std.specs.Prelude.{◌≡◌, ◌<◌, ◌+◌, ◌*◌, ◌^◌, List, Some, None, if◌then◌else◌};
ghost use Rattle.meaning.specs.declared.action.Reply.{Reply};
ghost use Rattle.machine.specs.declared.code.Code.{Code};
ghost use Rattle.meaning.specs.declared.value.Value.{Value};
ghost use Rattle.machine.specs.Frames as model;
ghost use Rattle.machine.specs.Numbers.{computed, is_zero as is_zero_number, low_word};
ghost use Rattle.machine.specs.Protected as spec;
ghost use Rattle.machine.specs.Protected.{protected};
ghost use Rattle.machine.specs.Shapes as shape;
ghost use Rattle.machine.specs.Threads as thread;
ghost use Rattle.machine.specs.Values as value;
ghost use Rattle.thread_engine.specs.inner.Frames.{frame_of};
ghost use Rattle.thread_engine.specs.inner.Turns.{AddressesFit, LiesLow, arguments_of, callee_of, effect_of, write_of};

use crate::callee::Callee;
use crate::frame::Frame;
use core_ir::Operator;
use machine::{Code, CodePlace, ScalarKind};
use meaning::{Check, Place, Reply, Stop, Value};
use values::{
    address_of, cast_value, computed, computed_one, is_zero, loaded_entry, loaded_value, low_word,
    moved_value, object_address, span, truncated,
};

/// What an instruction writes in its frame.
#[derive(Clone, Copy, Debug)]
pub(crate) enum Write {
    Nothing,
    ToRegister { d: u32, value: Value },
    ToSlot { s: u32, value: Value },
    /// A unit of a safe local, and its address.
    ToUnit { unit: u32, at: u32, value: Value },
    ToObject { id: u32 },
}

/// What an answered instruction does. The arguments of a call stand in the registers that it names.
#[derive(Clone, Copy, Debug)]
pub(crate) enum Effect {
    Stops(Stop),
    Goes { to: u32, write: Write },
    /// A new frame of a function; an indirect call also says where its pointer was read.
    Enters { f: u32, through: Option<Place> },
    Leaves(Value),
}

/// What an instruction at which a frame of this depth stands does once its action is answered.
pub(crate) fn effect_at(
    code: &Code,
    depth: u32,
    top: &Frame,
    answer: Reply,
    place: &CodePlace,
) -> Effect
    requires low { top.now.place < 65536 }
    requires fit { AddressesFit (frame_of top.now) place.now answer }
    ensures { effect_of (arguments_of (frame_of top.now) place.now) result
        ≡ spec.effect_of code.now (frame_of top.now) answer (shape.shape_of protected depth (frame_of top.now) place.now) }
{
    match place {
        CodePlace::Const { d, v } => top.defines(*d, Value::Bare(*v)),
        CodePlace::AddrG {
            d,
            address,
            units,
            kept,
            ..
        } => top.defines(*d, object_address(*address, *units, 2, *kept)),
        CodePlace::AddrL {
            d,
            offset,
            units,
            kept,
            ..
        } => top.defines(*d, top.local_address(*offset, *units, *kept)),
        CodePlace::AddrF { d, f } => top.defines(*d, Value::Code(*f)),
        CodePlace::GetLocal { d, s } => top.defines(*d, top.slot(*s)),
        CodePlace::SetLocal { s, a } => top.sets(*s, top.register(*a)),
        CodePlace::Binary { d, op, a, b } => top.computes(*d, *op, *a, *b),
        CodePlace::Unary { d, op, a } => {
            top.defines(*d, Value::Bare(computed_one(*op, top.number_in(*a))))
        }
        CodePlace::PtrAdd { d, p, i, s } => {
            top.defines(
                *d,
                moved_value(top.register(*p), span(top.number_in(*i), *s)),
            )
        }
        CodePlace::PtrConst { d, p, k } => top.defines(*d, moved_value(top.register(*p), *k)),
        CodePlace::Cast { d, a, from, to } => {
            top.defines(*d, cast_value(*from, *to, top.register(*a)))
        }
        CodePlace::Touch { .. } => top.unless_no(Stop::Failed(Check::Dead), answer),
        CodePlace::Load { d, kind, unit, .. } => {
            top.defines(*d, top.load_value(*kind, *unit, answer))
        }
        CodePlace::Store { p, a, unit, .. } => {
            top.goes(unit_write(*unit, top.register(*p), top.register(*a)))
        }
        CodePlace::Jump { l } => goes_to(*l),
        CodePlace::Branch { a, l } => top.branches(*a, *l),
        CodePlace::Call { f, .. } => enters(*f),
        CodePlace::CallInd { c, ty, origin, .. } => {
            let callee = Callee::of_call(code, ty, top.register(*c));
            enters_through(callee, top.read_at(depth, *origin))
        }
        CodePlace::Return { a } => Effect::Leaves(top.result_in(*a)),
        CodePlace::Enter => top.drawn(answer),
        CodePlace::Malloc { d, a } => top.defines(*d, allocated(top.number_in(*a), answer)),
        CodePlace::Free { .. } => top.unless_no(Stop::Failed(Check::BadFree), answer),
        CodePlace::Fork { d } => top.defines(*d, new_thread(answer)),
        CodePlace::Lock { .. } => top.goes_on_where(finds_zero(answer)),
        CodePlace::Join { .. } => top.stays_where(finds_zero(answer)),
        CodePlace::Input { d, .. } => top.defines(*d, Value::Bare(word_of(answer))),
        CodePlace::Leave
        | CodePlace::StartArg { .. }
        | CodePlace::StartFn { .. }
        | CodePlace::Unlock { .. }
        | CodePlace::Print { .. } => top.goes(Write::Nothing),
    }
}

/// To another place.
fn goes_to(to: u32) -> Effect
    ensures { (arguments : List Value) → effect_of arguments result ≡ model.Goes to model.Nothing }
{
    Effect::Goes {
        to,
        write: Write::Nothing,
    }
}

/// Into a function.
fn enters(f: u32) -> Effect
    ensures { (arguments : List Value) → effect_of arguments result ≡ model.Enters f arguments None }
{
    Effect::Enters { f, through: None }
}

/// Into the function that an indirect call reaches, whose pointer was read there.
fn enters_through(callee: Callee, through: Place) -> Effect
    ensures { (arguments : List Value) → effect_of arguments result
        ≡ spec.callee_effect arguments (Some through) (callee_of callee) }
{
    match callee {
        Callee::Reaches(f) => Effect::Enters {
            f,
            through: Some(through),
        },
        Callee::Refused(why) => Effect::Stops(why),
    }
}

/// What a store of a safe local's unit writes.
fn unit_write(unit: Option<u32>, pointer: Value, value: Value) -> Write
    ensures { write_of result ≡ spec.unit_write unit pointer value }
{
    match unit {
        None => Write::Nothing,
        Some(unit) => Write::ToUnit {
            unit,
            at: address_of(pointer),
            value,
        },
    }
}

/// The object that was allocated, or the null pointer.
fn allocated(units: i64, answer: Reply) -> Value
    requires { LiesLow (low_word units) answer }
    ensures { result ≡ spec.allocated units answer }
{
    match answer {
        Reply::Slot(Some(slot)) => object_address(64 * slot, low_word(units), slot, true),
        _ => Value::Bare(0),
    }
}

/// The number of the new thread, or -1 where there is none.
fn new_thread(answer: Reply) -> Value
    ensures { result ≡ spec.new_thread answer }
{
    match answer {
        Reply::Thread(Some(number)) => Value::Bare(i64::from(number)),
        _ => Value::Bare(-1),
    }
}

/// The word that answers, or 0.
fn word_of(answer: Reply) -> i64
    ensures { result ≡ spec.word_of answer }
{
    match answer {
        Reply::Word(word) => word,
        _ => 0,
    }
}

/// Whether a word was found, and is 0.
fn finds_zero(answer: Reply) -> bool
    ensures { result ≡ spec.finds_zero answer }
{
    match answer {
        Reply::Word(word) => is_zero(word),
        _ => false,
    }
}

impl Frame {
    /// To the next instruction, with this written.
    fn goes(&self, write: Write) -> Effect
        requires { self.now.place < 65536 }
        ensures { (arguments : List Value) → effect_of arguments result ≡ model.Goes (self.now.place + 1) (write_of write) }
    {
        Effect::Goes {
            to: self.place + 1,
            write,
        }
    }

    /// To the next instruction, with a register set.
    fn defines(&self, d: u32, value: Value) -> Effect
        requires { self.now.place < 65536 }
        ensures { (arguments : List Value) → effect_of arguments result ≡ thread.defines protected (frame_of self.now) d value }
    {
        self.goes(Write::ToRegister { d, value })
    }

    /// To the next instruction, with a slot set.
    fn sets(&self, s: u32, value: Value) -> Effect
        requires { self.now.place < 65536 }
        ensures { (arguments : List Value) → effect_of arguments result ≡ thread.sets protected (frame_of self.now) s value }
    {
        self.goes(Write::ToSlot { s, value })
    }

    /// What an operator gives, or a stop where it divides by 0.
    fn computes(&self, d: u32, op: Operator, a: u32, b: u32) -> Effect
        requires { self.now.place < 65536 }
        ensures { (code : Code) (answer : Reply) (arguments : List Value) → effect_of arguments result
            ≡ spec.effect_of code (frame_of self.now) answer
            (shape.defines_number protected d (computed op (shape.number_in protected (frame_of self.now) a) (shape.number_in protected (frame_of self.now) b))) }
    {
        match computed(op, self.number_in(a), self.number_in(b)) {
            None => Effect::Stops(Stop::Divide),
            Some(number) => self.defines(d, Value::Bare(number)),
        }
    }

    /// To a place where a register's number is 0, else to the next instruction.
    fn branches(&self, a: u32, l: u32) -> Effect
        requires { self.now.place < 65536 }
        ensures { (arguments : List Value) → effect_of arguments result
            ≡ model.Goes (if is_zero_number (shape.number_in protected (frame_of self.now) a) then l else self.now.place + 1) model.Nothing }
    {
        if is_zero(self.number_in(a)) {
            goes_to(l)
        } else {
            self.goes(Write::Nothing)
        }
    }

    /// To the next instruction, unless the store answered no.
    fn unless_no(&self, why: Stop, answer: Reply) -> Effect
        requires { self.now.place < 65536 }
        ensures { (arguments : List Value) → effect_of arguments result ≡ spec.unless_no (frame_of self.now) why answer }
    {
        match answer {
            Reply::Flag(false) => Effect::Stops(why),
            _ => self.goes(Write::Nothing),
        }
    }

    /// To the next instruction, or not.
    fn goes_on_where(&self, on: bool) -> Effect
        requires { self.now.place < 65536 }
        ensures { (arguments : List Value) → effect_of arguments result
            ≡ (if on then thread.goes_on protected (frame_of self.now) else thread.stays protected (frame_of self.now)) }
    {
        if on {
            self.goes(Write::Nothing)
        } else {
            goes_to(self.place)
        }
    }

    /// The same the other way round.
    fn stays_where(&self, stays: bool) -> Effect
        requires { self.now.place < 65536 }
        ensures { (arguments : List Value) → effect_of arguments result
            ≡ (if stays then thread.stays protected (frame_of self.now) else thread.goes_on protected (frame_of self.now)) }
    {
        if stays {
            goes_to(self.place)
        } else {
            self.goes(Write::Nothing)
        }
    }

    /// With its object, or a stop where no slots are left for it.
    fn drawn(&self, answer: Reply) -> Effect
        requires { self.now.place < 65536 }
        ensures { (arguments : List Value) → effect_of arguments result ≡ spec.drawn (frame_of self.now) answer }
    {
        match answer {
            Reply::Slot(Some(id)) => self.goes(Write::ToObject { id }),
            _ => Effect::Stops(Stop::Slots),
        }
    }

    /// The address of a local of its object.
    pub(crate) fn local_address(&self, offset: u32, units: u32, kept: bool) -> Value
        requires { 64 * shape.object_of protected (frame_of self.now) + offset + units < 2 ^ 32 }
        ensures { let id = shape.object_of protected (frame_of self.now) in
            result ≡ value.object_address (64 * id + offset) units id kept }
    {
        let id = self.object_id();
        object_address(64 * id + offset, units, id, kept)
    }

    /// What a load gives: a word, an entry, or what a safe local's unit has.
    fn load_value(&self, kind: ScalarKind, unit: Option<u32>, answer: Reply) -> Value
        ensures { result ≡ spec.load_value (frame_of self.now) kind unit answer }
    {
        match answer {
            Reply::Word(word) => Value::Bare(truncated(kind, word)),
            Reply::Found(found) => loaded_entry(found),
            _ => loaded_value(kind, self.unit_value(unit)),
        }
    }

    /// What a safe local's unit has, where the access names one.
    fn unit_value(&self, unit: Option<u32>) -> Value
        ensures { result ≡ spec.unit_value (frame_of self.now) unit }
    {
        match unit {
            None => Value::Bare(0),
            Some(unit) => self.unit(unit),
        }
    }
}
