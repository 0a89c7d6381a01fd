//! Quiet turns: those that ask for nothing, tell nothing and stay in their frame, as most turns do. They are performed
//! at once: no action, effect or note is made of them.

ghost use Rattle.std.specs.Prelude.{◌≡◌, ◌<◌, ◌+◌, ℕ, List, length, Some, if◌then◌else◌};
ghost use Rattle.meaning.specs.declared.action.Reply.TheVariants as reply;
ghost use Rattle.meaning.specs.declared.value.Value.{Value};
ghost use Rattle.machine.specs.declared.code.Code.{Code};
ghost use Rattle.machine.specs.declared.code.ScalarKind.{ScalarKind};
ghost use Rattle.machine.specs.Frames as model;
ghost use Rattle.machine.specs.Numbers.{computed, is_zero as is_zero_number};
ghost use Rattle.machine.specs.Protected.{protected};
ghost use Rattle.machine.specs.Shapes as shape;
ghost use Rattle.machine.specs.Threads as threads;
ghost use Rattle.thread_engine.specs.Sound.{length_of};
ghost use Rattle.thread_engine.specs.inner.Frames.{frame_of};
ghost use Rattle.thread_engine.specs.inner.Quiet.{IsQuiet};
ghost use Rattle.thread_engine.specs.inner.Turns.{AddressesFit, write_of};

use crate::effect::Write;
use crate::frame::Frame;
use core_ir::Operator;
use machine::{CodePlace, ScalarKind};
use meaning::Value;
use sensitivity::Class;
use values::{
    address_of, cast_value, computed, computed_one, is_zero, loaded_value, moved_value,
    object_address, span, told_function,
};

/// Performs the instruction at which a frame stands, if its turn is quiet, and answers whether it is. Else nothing
/// changes.
pub(crate) fn take_quietly(top: &mut Frame, place: &CodePlace) -> bool
    requires low { top.old.place < 65536 }
    requires fit { AddressesFit (frame_of top.old) place.now reply.Nothing }
    ensures quiet { (code : Code) (t : ℕ) (below : List (model.Frame Value)) → IsQuiet result code t
        (frame_of top.old) (frame_of top.new) below (shape.shape_of protected (length below) (frame_of top.old) place.now) }
    ensures length { length_of (frame_of top.new) ≡ length_of (frame_of top.old) }
{
    match place {
        CodePlace::Const { d, v } => top.define(*d, Value::Bare(*v)),
        CodePlace::AddrG {
            d,
            address,
            units,
            kept,
            ..
        } => top.define(*d, object_address(*address, *units, 2, *kept)),
        CodePlace::AddrL {
            d,
            offset,
            units,
            kept,
            ..
        } => top.define(*d, top.local_address(*offset, *units, *kept)),
        CodePlace::AddrF { d, f } => top.define(*d, Value::Code(*f)),
        CodePlace::GetLocal { d, s } => top.define(*d, top.slot(*s)),
        CodePlace::SetLocal { s, a } => top.set(*s, top.register(*a)),
        CodePlace::Binary { d, op, a, b } => top.compute(*d, *op, *a, *b),
        CodePlace::Unary { d, op, a } => {
            top.define(*d, Value::Bare(computed_one(*op, top.number_in(*a))))
        }
        CodePlace::PtrAdd { d, p, i, s } => top.define(
            *d,
            moved_value(top.register(*p), span(top.number_in(*i), *s)),
        ),
        CodePlace::PtrConst { d, p, k } => top.define(*d, moved_value(top.register(*p), *k)),
        CodePlace::Cast { d, a, from, to } => {
            top.define(*d, cast_value(*from, *to, top.register(*a)))
        }
        CodePlace::Touch { class, marked, .. } => top.pass(*class, *marked),
        CodePlace::Load {
            d,
            kind,
            unit: Some(unit),
            ..
        } => top.load_unit(*d, *kind, *unit),
        CodePlace::Store {
            p,
            a,
            unit: Some(unit),
            ..
        } => top.store_unit(*unit, top.register(*p), top.register(*a)),
        CodePlace::Jump { l } => top.jump(*l),
        CodePlace::Branch { a, l } => top.branch(*a, *l),
        _ => false,
    }
}

impl Frame {
    /// To the next instruction, with this written.
    #[tactic(auto, using(crate::proofs::Counts::written_keeps_length))]
    fn advance(&mut self, write: Write)
        requires { self.old.place < 65536 }
        ensures written { frame_of self.new
            ≡ threads.written protected (write_of write) (record (frame_of self.old) { place = self.old.place + 1 }) }
        ensures length { length_of (frame_of self.new) ≡ length_of (frame_of self.old) }
    {
        self.place += 1;
        self.write(write);
    }

    /// To the next instruction, with a register set.
    fn define(&mut self, d: u32, value: Value) -> bool
        requires { self.old.place < 65536 }
        ensures quiet { (code : Code) (t : ℕ) (below : List (model.Frame Value)) → IsQuiet result code t
            (frame_of self.old) (frame_of self.new) below (shape.Defines d value) }
        ensures length { length_of (frame_of self.new) ≡ length_of (frame_of self.old) }
    {
        self.advance(Write::ToRegister { d, value });
        true
    }

    /// To the next instruction, with a register set to what a unit of a safe local has.
    fn load_unit(&mut self, d: u32, kind: ScalarKind, unit: u32) -> bool
        requires { self.old.place < 65536 }
        ensures quiet { (code : Code) (t : ℕ) (below : List (model.Frame Value)) (p : Value) → IsQuiet result code t
            (frame_of self.old) (frame_of self.new) below (shape.Loads d p kind (Some unit)) }
        ensures length { length_of (frame_of self.new) ≡ length_of (frame_of self.old) }
    {
        let value = loaded_value(kind, self.unit(unit));
        self.advance(Write::ToRegister { d, value });
        true
    }

    /// To the next instruction, with a unit of a safe local set, unless that has to be told.
    fn store_unit(&mut self, unit: u32, pointer: Value, value: Value) -> bool
        requires { self.old.place < 65536 }
        ensures quiet { (code : Code) (t : ℕ) (below : List (model.Frame Value)) (kind : ScalarKind) → IsQuiet result code t
            (frame_of self.old) (frame_of self.new) below (shape.Stores pointer value kind (Some unit)) }
        ensures length { length_of (frame_of self.new) ≡ length_of (frame_of self.old) }
    {
        if told_function(value).is_some() {
            return false;
        }
        let at = address_of(pointer);
        self.advance(Write::ToUnit { unit, at, value });
        true
    }

    /// To the next instruction, with a slot set, unless that has to be told.
    fn set(&mut self, s: u32, value: Value) -> bool
        requires { self.old.place < 65536 }
        ensures quiet { (code : Code) (t : ℕ) (below : List (model.Frame Value)) → IsQuiet result code t
            (frame_of self.old) (frame_of self.new) below (shape.Sets s value) }
        ensures length { length_of (frame_of self.new) ≡ length_of (frame_of self.old) }
    {
        if told_function(value).is_some() {
            return false;
        }
        self.advance(Write::ToSlot { s, value });
        true
    }

    /// To the next instruction, with a register set to what an operator gives, unless it divides by 0.
    fn compute(&mut self, d: u32, op: Operator, a: u32, b: u32) -> bool
        requires { self.old.place < 65536 }
        ensures quiet { (code : Code) (t : ℕ) (below : List (model.Frame Value)) → IsQuiet result code t
            (frame_of self.old) (frame_of self.new) below (shape.defines_number protected d
            (computed op (shape.number_in protected (frame_of self.old) a) (shape.number_in protected (frame_of self.old) b))) }
        ensures length { length_of (frame_of self.new) ≡ length_of (frame_of self.old) }
    {
        match computed(op, self.number_in(a), self.number_in(b)) {
            None => false,
            Some(number) => {
                self.advance(Write::ToRegister {
                    d,
                    value: Value::Bare(number),
                });
                true
            }
        }
    }

    /// To the next instruction behind a touch, if it tests nothing.
    fn pass(&mut self, class: Class, marked: bool) -> bool
        requires { self.old.place < 65536 }
        ensures quiet { (code : Code) (t : ℕ) (below : List (model.Frame Value)) (p : Value) → IsQuiet result code t
            (frame_of self.old) (frame_of self.new) below (shape.Touches p class marked) }
        ensures length { length_of (frame_of self.new) ≡ length_of (frame_of self.old) }
    {
        if !marked && matches!(class, Class::Sensitive | Class::Universal) {
            return false;
        }
        self.advance(Write::Nothing);
        true
    }

    /// To another place.
    fn jump(&mut self, l: u32) -> bool
        ensures quiet { (code : Code) (t : ℕ) (below : List (model.Frame Value)) → IsQuiet result code t
            (frame_of self.old) (frame_of self.new) below (shape.Goes l) }
        ensures length { length_of (frame_of self.new) ≡ length_of (frame_of self.old) }
    {
        self.place = l;
        true
    }

    /// To another place where a register's number is 0, else to the next instruction.
    fn branch(&mut self, a: u32, l: u32) -> bool
        requires { self.old.place < 65536 }
        ensures quiet { (code : Code) (t : ℕ) (below : List (model.Frame Value)) → IsQuiet result code t
            (frame_of self.old) (frame_of self.new) below
            (shape.Goes (if is_zero_number (shape.number_in protected (frame_of self.old) a) then l else self.old.place + 1)) }
        ensures length { length_of (frame_of self.new) ≡ length_of (frame_of self.old) }
    {
        self.place = if is_zero(self.number_in(a)) {
            l
        } else {
            self.place + 1
        };
        true
    }
}
