//! Turns that are one access and tell nothing: a touch inside its bounds, a load or a store.

ghost use Rattle.std.specs.Prelude.{◌≡◌, ℕ, List, false, length};
ghost use Rattle.meaning.specs.declared.value.Value.{Value};
ghost use Rattle.machine.specs.declared.code.Code.{Code};
ghost use Rattle.machine.specs.Frames as model;
ghost use Rattle.machine.specs.Protected.{protected};
ghost use Rattle.machine.specs.Shapes as shape;
ghost use Rattle.thread_engine.specs.inner.Accesses.{AccessesBy, IsInsideBy};
ghost use Rattle.thread_engine.specs.inner.Frames.{frame_of};

use crate::frame::Frame;
use machine::{CodePlace, ScalarKind};
use meaning::{Entry, Value};
use sensitivity::Class;
use values::{address_of, entry_of, is_kept, number_of};

/// What a turn asks for that is one access, and where its answer goes.
#[derive(Clone, Copy)]
pub enum Access {
    /// A load of the word at `a`, which register `d` receives as a scalar of this kind.
    Load { a: u32, kind: ScalarKind, d: u32 },
    /// A store of word `v` at `a`.
    Store { a: u32, v: i64 },
    /// A load of the entry at `a`, which register `d` receives.
    Get { a: u32, d: u32 },
    /// A store of entry `e` at `a`.
    Put { a: u32, e: Entry },
    /// The question whether the object of this id lives.
    Look { id: u32 },
}

/// The access for which a frame's instruction asks, if its turn is one.
pub(crate) fn access_at(top: &Frame, place: &CodePlace) -> Option<Access>
    ensures { (code : Code) (t : ℕ) (below : List (model.Frame Value)) → AccessesBy result code t
        (frame_of top.now) below (shape.shape_of protected (length below) (frame_of top.now) place.now) }
{
    match place {
        CodePlace::Touch {
            p,
            class,
            marked: false,
        } => touched(*class, top.register(*p)),
        CodePlace::Load { d, p, kind, unit } => loaded(*kind, *unit, top.register(*p), *d),
        CodePlace::Store { p, a, kind, unit } => {
            stored(*kind, *unit, top.register(*p), top.register(*a))
        }
        _ => None,
    }
}

/// A touch that asks whether its object lives: one inside the bounds, of a class that is tested.
fn touched(class: Class, pointer: Value) -> Option<Access>
    ensures { (code : Code) (t : ℕ) (top : model.Frame Value) (below : List (model.Frame Value)) → AccessesBy result code t
        top below (shape.Touches pointer class false) }
{
    match class {
        Class::Sensitive | Class::Universal => {
            let id = id_inside(pointer)?;
            Some(Access::Look { id })
        }
        Class::Code | Class::Regular => None,
    }
}

/// The id of a pointer's object, where it points into its bounds.
fn id_inside(pointer: Value) -> Option<u32>
    ensures { IsInsideBy result pointer }
{
    match pointer {
        Value::Based {
            value,
            lower,
            upper,
            id,
        } if lower <= value && value < upper => Some(id),
        _ => None,
    }
}

/// A load of a word, or of an entry where values of the kind stand in the safe store. One of a safe local's unit is
/// the thread's own.
fn loaded(kind: ScalarKind, unit: Option<u32>, pointer: Value, d: u32) -> Option<Access>
    ensures { (code : Code) (t : ℕ) (top : model.Frame Value) (below : List (model.Frame Value)) → AccessesBy result code t
        top below (shape.Loads d pointer kind unit) }
{
    match unit {
        Some(_) => None,
        None => {
            let a = address_of(pointer);
            Some(if is_kept(kind) {
                Access::Get { a, d }
            } else {
                Access::Load { a, kind, d }
            })
        }
    }
}

/// A store of a word, or of an entry where values of the kind stand in the safe store. One to a safe local's unit is
/// the thread's own.
fn stored(kind: ScalarKind, unit: Option<u32>, pointer: Value, value: Value) -> Option<Access>
    ensures { (code : Code) (t : ℕ) (top : model.Frame Value) (below : List (model.Frame Value)) → AccessesBy result code t
        top below (shape.Stores pointer value kind unit) }
{
    match unit {
        Some(_) => None,
        None => {
            let a = address_of(pointer);
            Some(if is_kept(kind) {
                Access::Put {
                    a,
                    e: entry_of(value),
                }
            } else {
                Access::Store {
                    a,
                    v: number_of(value),
                }
            })
        }
    }
}
