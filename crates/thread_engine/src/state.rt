//! Where a thread stands, and where an answer leads it.

ghost use Rattle.std.specs.Prelude.{◌≡◌, ℕ, ◌<◌, ◌≤◌, ◌^◌, ◌++◌, [], length, map, take, Some, None, true, IfOk, IfSome, OnOk, OnErr};
ghost use Rattle.meaning.specs.Action.{Fits};
ghost use Rattle.meaning.specs.declared.value.Value.{Value};
ghost use Rattle.machine.specs.Frames as model;
ghost use Rattle.machine.specs.Logs.{first_thread};
ghost use Rattle.machine.specs.Protected as spec;
ghost use Rattle.machine.specs.Protected.{protected};
ghost use Rattle.machine.specs.Shapes as shape;
ghost use Rattle.machine.specs.Threads as thread;
ghost use Rattle.machine.specs.ValidCode.{ValidCode};
ghost use Rattle.machine.specs.Values as value;
ghost use Rattle.thread_engine.specs.Accesses.{IsAccess, StandsLow, gone_on};
ghost use Rattle.thread_engine.specs.Quiet.{TakesQuietTurn};
ghost use Rattle.thread_engine.specs.Sound.{IsSound, SlotsAreThere, length_of};
ghost use Rattle.thread_engine.specs.inner.Frames.{below_of, frame_of, frames_of, top_of};
ghost use Rattle.thread_engine.specs.inner.Turns.{EffectFits, StepFits, callee_of, effect_of, halt_of, write_of};
ghost use Rattle.thread_engine.specs.inner.Views.{Gives, IsKept, thread_of};

use crate::access::Access;
use crate::action::{action_in, argument_address, halt_of, start_address};
use crate::callee::Callee;
use crate::effect::{Effect, Write, effect_at};
use crate::frame::Frame;
use crate::instruction::{arguments_at, place_at, result_slot};
use crate::notes::Notes;
use crate::stack::Stack;
use machine::Code;
use meaning::{Action, Entry, Note, Place, Reply, Stop, Value};
use std::alloc::{AllocError, Global};
use values::loaded_entry;

/// How far a thread is.
#[derive(Clone, Copy, Debug)]
pub(crate) enum Phase {
    /// Its start word wasn't found yet.
    Waiting,
    /// It was found, and the argument's word wasn't.
    Starting(u32),
    Running,
    Ended,
    Stopped(Stop),
}

/// Where a thread stands: how far it is, and its frames where it runs.
#[derive(Debug, Drop)]
pub(crate) struct State {
    pub(crate) phase: Phase,
    pub(crate) stack: Stack,
}

/// The entry that answers, if one does.
fn found_entry(answer: Reply) -> Option<Entry>
    ensures { result ≡ spec.found_entry answer }
{
    match answer {
        Reply::Found(found) => found,
        _ => None,
    }
}

/// To a new frame of this depth.
fn transfer(depth: u32, f: u32, from: u32, through: Option<Place>) -> Note
    ensures { result ≡ thread.transfer protected depth f from through }
{
    match through {
        None => Note::Call { depth, f, from },
        Some(place) => Note::Indirect {
            depth,
            f,
            from,
            place,
        },
    }
}

/// What a return writes in the caller's frame.
fn result_write(slot: Option<u32>, value: Value) -> Write
    ensures { write_of result ≡ thread.result_write protected slot value }
{
    match slot {
        None => Write::Nothing,
        Some(s) => Write::ToSlot { s, value },
    }
}

/// The values of these registers.
fn values_in(alloc: Global, frame: &Frame, registers: &[u32]) -> Result<Vec<Value>, AllocError>
    ensures { IfOk result (λ values. values.items ≡ map (shape.register protected (frame_of frame.now)) registers.now) }
{
    registers
        .iter()
        .map(|register| frame.register(*register))
        .collect(alloc)
}

/// A new frame of a function.
fn open_frame(
    alloc: Global,
    code: &Code,
    f: u32,
    arguments: Vec<Value>,
) -> Result<Frame, AllocError>
    ensures { IfOk result (λ frame. frame_of frame ≡ thread.opened protected code.now f arguments.items) }
{
    match code.functions.get(f as usize) {
        None => Ok(Frame::empty(alloc, f)),
        Some(function) => Frame::open(alloc, function, f, arguments),
    }
}

/// The first so many of these values.
#[tactic(auto, using(crate::proofs::Slots::first_of))]
fn first(values: &[Value], count: usize) -> &[Value]
    ensures { result.now ≡ take count values.now }
{
    &values[..count.min(values.len())]
}

/// Tells the functions among the arguments of a new frame of a function, which has this depth.
#[tactic(auto, using(crate::proofs::Slots::told_are_arguments, crate::proofs::Slots::few_are_told, crate::proofs::Valid::parameters_are_few))]
fn tell_arguments(notes: &mut Notes, depth: u32, code: &Code, f: u32, arguments: &[Value])
    requires valid { ValidCode code.now }
    requires few { length notes.old ≤ 1 }
    ensures { notes.new ≡ notes.old ++ thread.slots_told protected depth 0 (thread.opened protected code.now f arguments.now).slots }
{
    if let Some(function) = code.functions.get(f as usize) {
        let told = first(
            first(arguments, function.ty.params.len()),
            function.slots as usize,
        );
        notes.tell_slots(depth, told);
    }
}

impl State {
    /// A thread that is this far, with one frame.
    fn with_frame(alloc: Global, phase: Phase, top: Frame) -> Result<State, AllocError>
        requires { length_of (frame_of top) < 2 ^ 32 }
        ensures thread { IfOk result (λ s. (top_of s.stack ≡ frame_of top) × (s.stack.below.items ≡ []) × (s.phase ≡ phase)) }
        ensures kept { IfOk result IsKept }
    {
        let stack = Stack::reserve(alloc, top)?;
        Ok(State { phase, stack })
    }

    /// Thread 0, which stands in the entry function.
    fn first(alloc: Global, code: &Code) -> Result<State, AllocError>
        requires { ValidCode code.now }
        ensures thread { IfOk result (λ s. thread_of s ≡ first_thread code.now 0) }
        ensures kept { IfOk result IsKept }
    {
        let top = open_frame(alloc, code, code.entry, Vec::new(alloc))?;
        State::with_frame(alloc, Phase::Running, top)
    }

    /// The thread of this number, before its first turn.
    pub(crate) fn open(alloc: Global, code: &Code, number: u8) -> Result<State, AllocError>
        requires { ValidCode code.now }
        ensures thread { IfOk result (λ s. thread_of s ≡ first_thread code.now number) }
        ensures kept { IfOk result IsKept }
    {
        if number == 0 {
            return State::first(alloc, code);
        }
        State::with_frame(alloc, Phase::Waiting, Frame::empty(alloc, 0))
    }

    /// Whether the thread has neither ended nor stopped.
    pub(crate) fn is_live(&self) -> bool
        ensures { result ≡ model.is_live (thread_of self.now) }
    {
        match self.phase {
            Phase::Waiting | Phase::Starting(_) | Phase::Running => true,
            Phase::Ended | Phase::Stopped(_) => false,
        }
    }

    /// Whether its start was found.
    pub(crate) fn has_begun(&self) -> bool
        ensures { result ≡ model.has_begun (thread_of self.now) }
    {
        match self.phase {
            Phase::Waiting => false,
            Phase::Starting(_) | Phase::Running | Phase::Ended | Phase::Stopped(_) => true,
        }
    }

    /// The thread stops.
    fn stop(&mut self, why: Stop, notes: &mut Notes)
        requires kept { IsKept self.old }
        requires empty { notes.old ≡ [] }
        ensures kept { IsKept self.new }
        ensures gives { Gives self.new notes.new (thread.stops why) }
    {
        self.phase = Phase::Stopped(why);
        notes.push(Note::Stopped(why));
    }

    /// A start word was read: the thread starts where a function of its type was found, and waits
    /// where nothing was.
    fn wait(&mut self, code: &Code, answer: Reply, notes: &mut Notes)
        requires waiting { self.old.phase ≡ Phase.Waiting }
        requires kept { IsKept self.old }
        requires empty { notes.old ≡ [] }
        ensures kept { IsKept self.new }
        ensures gives { Gives self.new notes.new (spec.started code.now (spec.found_entry answer)) }
    {
        if let Some(entry) = found_entry(answer) {
            self.start(Callee::of_start(code, loaded_entry(Some(entry))), notes);
        }
    }

    /// A start word was found that leads there.
    fn start(&mut self, callee: Callee, notes: &mut Notes)
        requires waiting { self.old.phase ≡ Phase.Waiting }
        requires kept { IsKept self.old }
        requires empty { notes.old ≡ [] }
        ensures kept { IsKept self.new }
        ensures gives { Gives self.new notes.new (spec.start_by (callee_of callee)) }
    {
        match callee {
            Callee::Reaches(f) => self.phase = Phase::Starting(f),
            Callee::Refused(why) => self.stop(why, notes),
        }
    }

    /// The argument's word was read: the thread begins.
    fn begin(
        &mut self,
        alloc: Global,
        code: &Code,
        number: u8,
        f: u32,
        answer: Reply,
        notes: &mut Notes,
    ) -> Result<(), AllocError>
        requires valid { ValidCode code.now }
        requires starting { self.old.phase ≡ Phase.Starting f }
        requires kept { IsKept self.old }
        requires empty { notes.old ≡ [] }
        ensures kept { IsKept self.new }
        ensures gives { OnOk result (Gives self.new notes.new
            (thread.begins protected code.now number f (value.loaded_entry (spec.found_entry answer)))) }
        ensures err { OnErr result (self.new ≡ self.old) }
    {
        let argument = loaded_entry(found_entry(answer));
        let arguments = Vec::from_slice(alloc, &[argument])?;
        notes.push(Note::Start {
            f,
            at: start_address(number),
        });
        tell_arguments(notes, 0, code, f, arguments.as_slice());
        let frame = open_frame(alloc, code, f, arguments)?;
        self.stack.begin(frame);
        self.phase = Phase::Running;
        Ok(())
    }

    /// To a place of the top frame.
    fn go(&mut self, to: u32, write: Write, notes: &mut Notes)
        requires running { self.old.phase ≡ Phase.Running }
        requires kept { IsKept self.old }
        requires few { length self.old.stack.below.items < 4096 }
        requires empty { notes.old ≡ [] }
        ensures kept { IsKept self.new }
        ensures gives { (code : Code) → Gives self.new notes.new
            (thread.applied protected code (top_of self.old.stack) (below_of self.old.stack) (model.Goes to (write_of write))) }
    {
        notes.tell_write(self.stack.depth(), write);
        self.stack.go(to, write);
    }

    /// Into a function, with what these registers have as arguments.
    #[tactic(auto, using(crate::proofs::Valid::opened_is_small))]
    fn enter(
        &mut self,
        alloc: Global,
        code: &Code,
        f: u32,
        through: Option<Place>,
        registers: &[u32],
        notes: &mut Notes,
    ) -> Result<(), AllocError>
        requires valid { ValidCode code.now }
        requires running { self.old.phase ≡ Phase.Running }
        requires place { self.old.stack.top.place < 65536 }
        requires kept { IsKept self.old }
        requires sound { IsSound code.now (thread_of self.old) }
        requires room { thread.has_room code.now (frames_of self.old.stack) f ≡ true }
        requires empty { notes.old ≡ [] }
        ensures kept { IsKept self.new }
        ensures gives { let arguments = map (shape.register protected (top_of self.old.stack)) registers.now in
            OnOk result (Gives self.new notes.new
            (thread.enters protected code.now (top_of self.old.stack) (below_of self.old.stack) f arguments through)) }
        ensures err { OnErr result (self.new ≡ self.old) }
    {
        let arguments = values_in(alloc, &self.stack.top, registers)?;
        let depth = self.stack.depth() + 1;
        notes.push(transfer(depth, f, self.stack.top.place, through));
        tell_arguments(notes, depth, code, f, arguments.as_slice());
        let frame = open_frame(alloc, code, f, arguments)?;
        self.stack.enter(frame);
        Ok(())
    }

    /// Out of the top frame, with a result. Out of the bottom one, the thread ends.
    fn leave(&mut self, code: &Code, value: Value, notes: &mut Notes)
        requires valid { ValidCode code.now }
        requires running { self.old.phase ≡ Phase.Running }
        requires kept { IsKept self.old }
        requires sound { IsSound code.now (thread_of self.old) }
        requires empty { notes.old ≡ [] }
        ensures kept { IsKept self.new }
        ensures gives { Gives self.new notes.new (thread.leaves protected code.now (below_of self.old.stack) value) }
    {
        if !self.stack.leave() {
            self.phase = Phase::Ended;
            notes.push(Note::End);
            return;
        }
        let place = self.stack.top.place;
        let depth = self.stack.depth();
        notes.push(Note::Return {
            depth: depth + 1,
            f: self.stack.top.function,
            to: place,
        });
        let write = result_write(result_slot(code, &self.stack.top), value);
        notes.tell_write(depth, write);
        self.stack.go(place, write);
    }

    /// What an effect does.
    fn apply(
        &mut self,
        alloc: Global,
        code: &Code,
        effect: Effect,
        registers: &[u32],
        notes: &mut Notes,
    ) -> Result<(), AllocError>
        requires valid { ValidCode code.now }
        requires running { self.old.phase ≡ Phase.Running }
        requires place { self.old.stack.top.place < 65536 }
        requires kept { IsKept self.old }
        requires sound { IsSound code.now (thread_of self.old) }
        requires fits { let arguments = map (shape.register protected (top_of self.old.stack)) registers.now in
            EffectFits code.now (frames_of self.old.stack) (effect_of arguments effect) }
        requires empty { notes.old ≡ [] }
        ensures kept { IsKept self.new }
        ensures gives { let arguments = map (shape.register protected (top_of self.old.stack)) registers.now in
            OnOk result (Gives self.new notes.new
            (thread.applied protected code.now (top_of self.old.stack) (below_of self.old.stack) (effect_of arguments effect))) }
        ensures err { OnErr result (self.new ≡ self.old) }
    {
        match effect {
            Effect::Stops(why) => self.stop(why, notes),
            Effect::Goes { to, write } => self.go(to, write, notes),
            Effect::Enters { f, through } => {
                return self.enter(alloc, code, f, through, registers, notes);
            }
            Effect::Leaves(value) => self.leave(code, value, notes),
        }
        Ok(())
    }

    /// The action of the top frame's instruction was answered.
    fn step(
        &mut self,
        alloc: Global,
        code: &Code,
        answer: Reply,
        notes: &mut Notes,
    ) -> Result<(), AllocError>
        requires valid { ValidCode code.now }
        requires running { self.old.phase ≡ Phase.Running }
        requires kept { IsKept self.old }
        requires sound { IsSound code.now (thread_of self.old) }
        requires fits { StepFits code.now (top_of self.old.stack) (below_of self.old.stack) answer }
        requires empty { notes.old ≡ [] }
        ensures kept { IsKept self.new }
        ensures gives { OnOk result (Gives self.new notes.new
            (spec.resumed_by code.now (top_of self.old.stack) (below_of self.old.stack) answer
            (spec.shape_in code.now (top_of self.old.stack) (below_of self.old.stack)))) }
        ensures err { OnErr result (self.new ≡ self.old) }
    {
        let depth = self.stack.depth();
        match place_at(code, self.stack.top.function, self.stack.top.place) {
            None => Ok(()),
            Some(place) => {
                let effect = effect_at(code, depth, &self.stack.top, answer, place);
                self.apply(alloc, code, effect, arguments_at(place), notes)
            }
        }
    }

    /// What the thread of this number asks for in its next turn.
    pub(crate) fn next(&self, code: &Code, number: u8) -> Action
        requires kept { IsKept self.now }
        requires sound { IsSound code.now (thread_of self.now) }
        ensures { result ≡ spec.next code.now number (thread_of self.now) }
    {
        match self.phase {
            Phase::Waiting => Action::Get(start_address(number)),
            Phase::Starting(_) => Action::Get(argument_address(number)),
            Phase::Running => action_in(code, number, &self.stack),
            Phase::Ended | Phase::Stopped(_) => Action::Own,
        }
    }

    /// Takes the thread's next turn, if it is quiet, and answers whether it is. Else nothing changes.
    pub(crate) fn take_quiet_turn(&mut self, code: &Code) -> bool
        requires valid { ValidCode code.now }
        requires kept { IsKept self.old }
        requires sound { IsSound code.now (thread_of self.old) }
        ensures kept { IsKept self.new }
        ensures turn { (t : ℕ) → TakesQuietTurn result code.now t (thread_of self.old) (thread_of self.new) }
    {
        match self.phase {
            Phase::Running => self.stack.take_quiet_turn(code),
            Phase::Waiting | Phase::Starting(_) | Phase::Ended | Phase::Stopped(_) => false,
        }
    }

    /// The access that the thread's next turn is, if it is one.
    pub(crate) fn access(&self, code: &Code) -> Option<Access>
        requires valid { ValidCode code.now }
        requires kept { IsKept self.now }
        requires sound { IsSound code.now (thread_of self.now) }
        ensures { (t : ℕ) → IfSome result (IsAccess code.now t (thread_of self.now)) }
    {
        match self.phase {
            Phase::Running => self.stack.access(code),
            Phase::Waiting | Phase::Starting(_) | Phase::Ended | Phase::Stopped(_) => None,
        }
    }

    /// To the thread's next place, with this value in this register, if one is given.
    pub(crate) fn go_on(&mut self, defined: Option<(u32, Value)>)
        requires kept { IsKept self.old }
        requires low { StandsLow (thread_of self.old) }
        ensures kept { IsKept self.new }
        ensures gone { thread_of self.new ≡ gone_on defined (thread_of self.old) }
    {
        match self.phase {
            Phase::Running => self.stack.go_on(defined),
            Phase::Waiting | Phase::Starting(_) | Phase::Ended | Phase::Stopped(_) => {}
        }
    }

    /// Where the answer of an action that doesn't stop the thread leads it.
    fn answered(
        &mut self,
        alloc: Global,
        code: &Code,
        number: u8,
        answer: Reply,
        notes: &mut Notes,
    ) -> Result<(), AllocError>
        requires valid { ValidCode code.now }
        requires kept { IsKept self.old }
        requires sound { IsSound code.now (thread_of self.old) }
        requires goes { halt_of (spec.next code.now number (thread_of self.old)) ≡ None }
        requires fits { Fits (spec.next code.now number (thread_of self.old)) answer }
        requires there { SlotsAreThere (spec.next code.now number (thread_of self.old)) answer }
        requires empty { notes.old ≡ [] }
        ensures kept { IsKept self.new }
        ensures gives { OnOk result (Gives self.new notes.new
            (spec.answered code.now number (thread_of self.old) answer)) }
        ensures err { OnErr result (self.new ≡ self.old) }
    {
        match self.phase {
            Phase::Waiting => {
                self.wait(code, answer, notes);
                Ok(())
            }
            Phase::Starting(f) => self.begin(alloc, code, number, f, answer, notes),
            Phase::Running => self.step(alloc, code, answer, notes),
            Phase::Ended | Phase::Stopped(_) => Ok(()),
        }
    }

    /// Where the answer of its action leads the thread of this number. A halt stops it.
    #[tactic(auto, using(crate::proofs::Effects::resume_by, crate::proofs::Effects::resume_halted))]
    pub(crate) fn resume(
        &mut self,
        alloc: Global,
        code: &Code,
        number: u8,
        action: Action,
        answer: Reply,
        notes: &mut Notes,
    ) -> Result<(), AllocError>
        requires valid { ValidCode code.now }
        requires kept { IsKept self.old }
        requires sound { IsSound code.now (thread_of self.old) }
        requires asked { action ≡ spec.next code.now number (thread_of self.old) }
        requires fits { Fits (spec.next code.now number (thread_of self.old)) answer }
        requires there { SlotsAreThere (spec.next code.now number (thread_of self.old)) answer }
        requires empty { notes.old ≡ [] }
        ensures kept { IsKept self.new }
        ensures gives { let action = spec.next code.now number (thread_of self.old) in
            OnOk result (Gives self.new notes.new (spec.resume code.now number (thread_of self.old) action answer)) }
        ensures err { OnErr result (self.new ≡ self.old) }
    {
        match halt_of(action) {
            Some(why) => {
                self.stop(why, notes);
                Ok(())
            }
            None => self.answered(alloc, code, number, answer, notes),
        }
    }
}
