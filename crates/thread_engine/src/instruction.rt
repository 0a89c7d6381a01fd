//! What stands in code: instructions, and what calls of a function open.

ghost use Rattle.std.specs.Prelude.{◌≡◌, ◌<◌, ◌^◌, Some};
ghost use Rattle.std.specs.Option.{option_copied};
ghost use Rattle.machine.specs.Threads as spec;
ghost use Rattle.thread_engine.specs.inner.Frames.{frame_of};
ghost use Rattle.thread_engine.specs.inner.Turns.{arguments_at};

use crate::frame::Frame;
use machine::{Code, CodeFunction, CodePlace};

/// The instruction at a place of a function, if there is one.
pub(crate) fn place_at(code: &Code, f: u32, place: u32) -> Option<&CodePlace>
    ensures { option_copied result ≡ spec.place_at code.now f place }
{
    match code.functions.get(f as usize) {
        None => None,
        Some(function) => function.body.get(place as usize),
    }
}

/// The units of a function's frame object.
pub(crate) fn frame_units(code: &Code, f: u32) -> u32
    ensures { result ≡ spec.frame_units code.now f }
{
    match code.functions.get(f as usize) {
        None => 0,
        Some(function) => function.frame_units,
    }
}

/// The values of a frame of this function.
fn function_size(function: &CodeFunction) -> u64
    ensures value { result ≡ spec.size_in (Some function.now) }
    ensures low { result < 2 ^ 34 }
{
    let registers = u64::from(function.registers);
    let slots = u64::from(function.slots);
    let units = u64::from(function.safe_units);
    registers + slots + units
}

/// The values of a function's frames: registers, slots and units of safe locals.
pub(crate) fn size_of(code: &Code, f: u32) -> u64
    ensures value { result ≡ spec.size_of code.now f }
    ensures low { result < 2 ^ 34 }
{
    match code.functions.get(f as usize) {
        None => 0,
        Some(function) => function_size(function),
    }
}

/// The slot that receives the result of an instruction, if it is a call.
fn result_slot_of(place: &CodePlace) -> Option<u32>
    ensures { result ≡ spec.result_slot_in (Some place.now) }
{
    match place {
        CodePlace::Call { s, .. } => *s,
        CodePlace::CallInd { s, .. } => *s,
        _ => None,
    }
}

/// The slot that receives the result of the call before a frame's place.
pub(crate) fn result_slot(code: &Code, frame: &Frame) -> Option<u32>
    ensures { result ≡ spec.result_slot code.now (frame_of frame.now) }
{
    match place_at(code, frame.function, frame.place.saturating_sub(1)) {
        None => None,
        Some(place) => result_slot_of(place),
    }
}

/// The registers in which a call's arguments stand.
pub(crate) fn arguments_at(place: &CodePlace) -> &[u32]
    ensures { result.now ≡ arguments_at place.now }
{
    match place {
        CodePlace::Call { args, .. } => args.as_slice(),
        CodePlace::CallInd { args, .. } => args.as_slice(),
        _ => &[],
    }
}
