//! What an instruction asks for, with the tests before an access, a call and a `free`.

ghost use Rattle.std.specs.Prelude.{◌≡◌, ◌<◌, ◌^◌, ℕ, List, length};
ghost use Rattle.machine.specs.declared.code.Code.{Code};
ghost use Rattle.meaning.specs.declared.value.Value.{Value};
ghost use Rattle.machine.specs.Addresses as address;
ghost use Rattle.machine.specs.Frames as model;
ghost use Rattle.machine.specs.Protected as spec;
ghost use Rattle.machine.specs.Protected.{protected};
ghost use Rattle.machine.specs.Shapes as shape;
ghost use Rattle.machine.specs.Numbers as number;
ghost use Rattle.thread_engine.specs.Sound.{AreSound};
ghost use Rattle.thread_engine.specs.inner.Frames.{below_of, frame_of, frames_of, held, top_of};
ghost use Rattle.thread_engine.specs.inner.Turns.{callee_of, halt_of};

use crate::callee::Callee;
use crate::frame::Frame;
use crate::instruction::{frame_units, place_at};
use crate::stack::Stack;
use core_ir::Operator;
use machine::{Code, CodePlace, ScalarKind};
use meaning::{Action, Check, Stop, Value};
use sensitivity::Class;
use values::{address_of, computed, entry_of, is_kept, low_word, number_of};

/// The word at which the thread of this number finds its function.
pub(crate) fn start_address(thread: u8) -> u32
    ensures { result ≡ address.start_address thread }
{
    64 + 2 * u32::from(thread)
}

/// The word at which the thread of this number finds its argument.
pub(crate) fn argument_address(thread: u8) -> u32
    ensures { result ≡ address.argument_address thread }
{
    65 + 2 * u32::from(thread)
}

/// What the thread of this number asks for with these frames.
pub(crate) fn action_in(code: &Code, thread: u8, stack: &Stack) -> Action
    requires sound { AreSound code.now (frames_of stack.now) }
    requires counted { stack.now.used ≡ held (frames_of stack.now) }
    ensures { result ≡ spec.action_by code.now thread (top_of stack.now) (below_of stack.now)
        (spec.shape_in code.now (top_of stack.now) (below_of stack.now)) }
{
    match place_at(code, stack.top.function, stack.top.place) {
        None => Action::Own,
        Some(place) => action_at(code, thread, stack, place),
    }
}

/// What an instruction asks for in the top frame.
fn action_at(code: &Code, thread: u8, stack: &Stack, place: &CodePlace) -> Action
    requires sound { AreSound code.now (frames_of stack.now) }
    requires counted { stack.now.used ≡ held (frames_of stack.now) }
    ensures { let depth = length (below_of stack.now) in
        result ≡ spec.action_of code.now thread (top_of stack.now) (below_of stack.now)
        (shape.shape_of protected depth (top_of stack.now) place.now) }
{
    let top = &stack.top;
    match place {
        CodePlace::Binary { op, a, b, .. } => binary_action(top, *op, *a, *b),
        CodePlace::Touch { p, class, marked } => {
            if *marked {
                Action::Own
            } else {
                touch_action(*class, top.register(*p))
            }
        }
        CodePlace::Load { p, kind, unit, .. } => {
            unless_unit(*unit, load_action(*kind, top.register(*p)))
        }
        CodePlace::Store { p, a, kind, unit } => {
            unless_unit(
                *unit,
                store_action(*kind, top.register(*p), top.register(*a)),
            )
        }
        CodePlace::Call { f, .. } => call_action(code, stack, *f),
        CodePlace::CallInd { c, ty, .. } => {
            callee_action(code, stack, Callee::of_call(code, ty, top.register(*c)))
        }
        CodePlace::Return { .. } => return_action(thread, stack),
        CodePlace::Enter => Action::Alloc(slots_for(frame_units(code, top.function))),
        CodePlace::Leave => Action::Free(top.object_id()),
        CodePlace::Malloc { a, .. } => allocate_action(top.number_in(*a)),
        CodePlace::Free { p } => free_action(top.register(*p)),
        CodePlace::Fork { .. } => Action::Fork,
        CodePlace::StartArg { t, a } => start_action(65, top.number_in(*t), top.register(*a)),
        CodePlace::StartFn { t, f } => start_action(64, top.number_in(*t), top.register(*f)),
        CodePlace::Lock { p } => Action::TryLock(address_of(top.register(*p))),
        CodePlace::Unlock { p } => Action::Store(address_of(top.register(*p)), 0),
        CodePlace::Join { t } => join_action(top.number_in(*t)),
        CodePlace::Print { a } => Action::Print(top.number_in(*a)),
        CodePlace::Input { a, .. } => Action::Input(top.number_in(*a)),
        CodePlace::Const { .. }
        | CodePlace::AddrG { .. }
        | CodePlace::AddrL { .. }
        | CodePlace::AddrF { .. }
        | CodePlace::GetLocal { .. }
        | CodePlace::SetLocal { .. }
        | CodePlace::Unary { .. }
        | CodePlace::PtrAdd { .. }
        | CodePlace::PtrConst { .. }
        | CodePlace::Cast { .. }
        | CodePlace::Jump { .. }
        | CodePlace::Branch { .. } => Action::Own,
    }
}

/// Why an action stops the thread, if it does.
pub(crate) fn halt_of(action: Action) -> Option<Stop>
    ensures { result ≡ halt_of action }
{
    match action {
        Action::Halt(why) => Some(why),
        _ => None,
    }
}

/// A stop where an operator divides by 0.
fn binary_action(top: &Frame, op: Operator, a: u32, b: u32) -> Action
    ensures { (code : Code) (thread d : ℕ) (below : List (model.Frame Value)) → result
        ≡ spec.action_of code thread (frame_of top.now) below (shape.defines_number protected d
        (number.computed op (shape.number_in protected (frame_of top.now) a) (shape.number_in protected (frame_of top.now) b))) }
{
    match computed(op, top.number_in(a), top.number_in(b)) {
        None => Action::Halt(Stop::Divide),
        Some(_) => Action::Own,
    }
}

/// Inside the bounds, the store is asked whether the object's id is ended.
fn look_inside(value: u32, lower: u32, upper: u32, id: u32) -> Action
    ensures { result ≡ spec.look_inside value lower upper id }
{
    if lower <= value && value < upper {
        Action::Look(id)
    } else {
        Action::Halt(Stop::Failed(Check::Bounds))
    }
}

/// The test before an access: a pointer with bounds is tested where the object may hold what leads to
/// functions.
fn touch_action(class: Class, pointer: Value) -> Action
    ensures { result ≡ spec.touch_action class pointer }
{
    match class {
        Class::Sensitive => sensitive_touch(pointer),
        Class::Universal => universal_touch(pointer),
        Class::Code | Class::Regular => Action::Own,
    }
}

/// A touch of class Sensitive, whose address must have bounds.
fn sensitive_touch(pointer: Value) -> Action
    ensures { result ≡ spec.touch_action Class.Sensitive pointer }
{
    match pointer {
        Value::Based {
            value,
            lower,
            upper,
            id,
        } => look_inside(value, lower, upper, id),
        _ => Action::Halt(Stop::Failed(Check::NoBase)),
    }
}

/// A touch of class Universal, whose address may be a number.
fn universal_touch(pointer: Value) -> Action
    ensures { result ≡ spec.touch_action Class.Universal pointer }
{
    match pointer {
        Value::Based {
            value,
            lower,
            upper,
            id,
        } => look_inside(value, lower, upper, id),
        Value::Bare(_) => Action::Own,
        Value::Code(_) => Action::Halt(Stop::Failed(Check::NoBase)),
    }
}

/// A safe local's accesses are the thread's own.
fn unless_unit(unit: Option<u32>, action: Action) -> Action
    ensures { result ≡ spec.unless_unit unit action }
{
    match unit {
        None => action,
        Some(_) => Action::Own,
    }
}

/// A load of a word, or of an entry where values of the kind stand in the safe store.
fn load_action(kind: ScalarKind, pointer: Value) -> Action
    ensures { result ≡ spec.load_action kind pointer }
{
    if is_kept(kind) {
        Action::Get(address_of(pointer))
    } else {
        Action::Load(address_of(pointer))
    }
}

/// A store of a word, or of an entry where values of the kind stand in the safe store.
fn store_action(kind: ScalarKind, pointer: Value, value: Value) -> Action
    ensures { result ≡ spec.store_action kind pointer value }
{
    if is_kept(kind) {
        Action::Put(address_of(pointer), entry_of(value))
    } else {
        Action::Store(address_of(pointer), number_of(value))
    }
}

/// A call goes neither past the most frames nor past the most values.
fn call_action(code: &Code, stack: &Stack, f: u32) -> Action
    requires sound { AreSound code.now (frames_of stack.now) }
    requires counted { stack.now.used ≡ held (frames_of stack.now) }
    ensures { result ≡ spec.call_action code.now (frames_of stack.now) f }
{
    if stack.has_room(code, f) {
        Action::Own
    } else {
        Action::Halt(Stop::Depth)
    }
}

/// A call through a pointer goes to a function of its type, and then as every call.
fn callee_action(code: &Code, stack: &Stack, callee: Callee) -> Action
    requires sound { AreSound code.now (frames_of stack.now) }
    requires counted { stack.now.used ≡ held (frames_of stack.now) }
    ensures { result ≡ spec.callee_action code.now (frames_of stack.now) (callee_of callee) }
{
    match callee {
        Callee::Reaches(f) => call_action(code, stack, f),
        Callee::Refused(why) => Action::Halt(why),
    }
}

/// The bottom frame's return stores the done word.
fn return_action(thread: u8, stack: &Stack) -> Action
    ensures { result ≡ spec.return_action thread (below_of stack.now) }
{
    if stack.is_bottom() {
        Action::Store(done_address(u32::from(thread)), 1)
    } else {
        Action::Own
    }
}

/// The word at which a thread stores 1 as it ends.
fn done_address(thread: u32) -> u32
    requires { thread < 2 ^ 31 }
    ensures { result ≡ address.done_address thread }
{
    96 + thread
}

/// The slots of so many units.
fn slots_for(units: u32) -> u32
    ensures { result ≡ address.slots_for units }
{
    ((u64::from(units) + 63) / 64) as u32
}

/// An object has 1 to 16,384 units.
fn allocate_action(units: i64) -> Action
    ensures { result ≡ spec.allocate_action units }
{
    if 1 <= units && units <= 16384 {
        Action::Alloc(slots_for(low_word(units)))
    } else {
        Action::Own
    }
}

/// A `free` ends an object that was allocated, through a pointer to its first unit; the null pointer
/// is let pass.
fn free_action(pointer: Value) -> Action
    ensures { result ≡ spec.free_action pointer }
{
    match pointer {
        Value::Bare(_) => Action::Own,
        Value::Based {
            value,
            lower,
            id,
            ..
        } => free_based(value, lower, id),
        Value::Code(_) => Action::Halt(Stop::Failed(Check::BadFree)),
    }
}

/// A `free` through a pointer with bounds. Ids below 1,026 are no object's that was allocated.
fn free_based(value: u32, lower: u32, id: u32) -> Action
    ensures { (upper : ℕ) → result ≡ spec.free_action (Value.Based value lower upper id) }
{
    if value == lower && 1026 <= id {
        Action::Free(id)
    } else {
        Action::Halt(Stop::Failed(Check::BadFree))
    }
}

/// A start word of the thread of this number, unless there is none.
fn start_action(first: u32, thread: i64, value: Value) -> Action
    ensures { result ≡ spec.start_action first thread value }
{
    if thread == -1 {
        return Action::Own;
    }
    let address = (u64::from(first) + 2 * u64::from(low_word(thread))) % (1 << 32);
    Action::Put(address as u32, entry_of(value))
}

/// A thread that there can be is waited for at its done word.
fn join_action(thread: i64) -> Action
    ensures { result ≡ spec.join_action thread }
{
    if 0 <= thread && thread <= 15 {
        Action::Load(done_address(low_word(thread)))
    } else {
        Action::Own
    }
}
