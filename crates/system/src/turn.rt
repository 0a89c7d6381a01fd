//! What an event does to one thread.
ghost use Rattle.std.specs.Prelude.{◌≡◌, ◌≤◌, ◌<◌, [], ◌∷◌, List, length, slice_get, slice_set, Option, IfOk, OnOk, OnErr};
ghost use Rattle.machine.specs.declared.code.Code.{Code};
ghost use Rattle.meaning.specs.declared.action.Action.TheVariants as act;
ghost use Rattle.meaning.specs.declared.action.Reply.TheVariants as reply;
ghost use Rattle.meaning.specs.declared.value.Value.{Value};
ghost use Rattle.meaning.specs.Action.{Fits};
ghost use Rattle.meaning.specs.Blocks.{repeated};
ghost use Rattle.meaning.specs.Records.{added, added_all};
ghost use Rattle.meaning.specs.declared.record.Record.{Record};
ghost use Rattle.machine.specs.Frames.{Thread as ModelThread};
ghost use Rattle.machine.specs.Protected.{next, resume};
ghost use Rattle.meaning.specs.declared.event.Event.TheVariants.{Turn};
ghost use Rattle.machine.specs.Run.{cuts, state_after, steps_from};
ghost use Rattle.machine.specs.Store.{remembered};
ghost use Rattle.machine.specs.Trace.{traced, turn_records};
ghost use Rattle.machine.specs.ValidCode.{ValidCode};
ghost use Rattle.region_seq.specs.Bounded.{behind};
ghost use Rattle.thread_engine.specs.Accesses.{IsAccess, StandsLow, gone_on};
ghost use Rattle.thread_engine.specs.Sound.{IsSound, most_slots};
ghost use Rattle.trace.specs.Records.{IsTold};
ghost use Rattle.system.specs.State.{IsSeat, thread_of};
ghost use Rattle.system.specs.inner.QuietTurns.{AreQuietTurns};
ghost use Rattle.system.specs.inner.Seats.{Keeps, TakesTurn, answer_of, is_running, setting_with, state_with, told_of};

use super::memories::Memories;
use super::record::record_turn;
use machine::Code;
use meaning::{Action, Note, Record, Reply, Stop, Value};
use std::alloc::AllocError;
use thread_engine::{Access, Notes, Thread};
use trace::Trace;
use values::{loaded_entry, truncated};

/// The most records of a turn: its action, a transfer, and a function for each parameter.
const MOST_RECORDS: usize = 11;

/// A turn of live thread `t`, which is recorded, with its notes put in place of these. It isn't inlined: most turns are
/// quiet, and their loop is faster without it.
///
/// # Errors
///
/// `AllocError`. The trace is as before.
#[tactic(auto, using(crate::proofs::AnswersFit::answers_fit, crate::proofs::AnswersFit::slots_are_there, crate::proofs::Turns::told_records))]
#[inline(never)]
fn take_turn(
    code: &Code,
    t: u8,
    thread: &mut Thread,
    memories: &mut Memories,
    notes: &mut Notes,
    trace: &mut Trace,
) -> Result<(), AllocError>
    requires valid { ValidCode code.now }
    requires sound { IsSound code.now thread.old.thread }
    requires number { thread.old.number ≡ t }
    requires few { t < 16 }
    requires slots { memories.old.region.slots ≤ most_slots }
    requires spare { 11 ≤ trace.old.spare }
    ensures ok { OnOk result (TakesTurn code.now t thread.old.thread thread.new.thread memories.old memories.new
        trace.old.records trace.new.records) }
    ensures number { thread.new.number ≡ t }
    ensures sound { IsSound code.now thread.new.thread }
    ensures err { OnErr result (trace.new.records ≡ trace.old.records) }
    ensures kept { Keeps memories.old memories.new }
    ensures inputs { trace.new.inputs ≡ trace.old.inputs }
{
    let action = thread.next(code);
    let reply = memories.answer(action)?;
    thread.resume_into(code, action, reply, notes)?;
    record_turn(trace, t, action, reply, notes.as_slice());
    Ok(())
}

/// Thread `t` goes on behind an answered action, which is recorded: its turn tells nothing else.
fn finish(
    t: u8,
    thread: &mut Thread,
    trace: &mut Trace,
    action: Action,
    reply: Reply,
    defined: Option<(u32, Value)>,
)
    requires low { StandsLow thread.old.thread }
    requires few { t < 16 }
    requires told { IsTold action }
    requires fits { Fits action reply }
    requires spare { 1 ≤ trace.old.spare }
    ensures thread { thread.new ≡ record thread.old { thread = gone_on defined thread.old.thread } }
    ensures sound { (code : Code) → IsSound code thread.old.thread → IsSound code thread.new.thread }
    ensures records { trace.new.records ≡ added trace.old.records (Record.Did t action reply) }
    ensures inputs { trace.new.inputs ≡ trace.old.inputs }
{
    thread.go_on(defined);
    trace.push(Record::Did { t, action, reply });
}

/// The same as `take_turn` of a turn that is an access.
///
/// # Errors
///
/// `AllocError`. The trace is as before.
fn take_access(
    code: &Code,
    t: u8,
    thread: &mut Thread,
    memories: &mut Memories,
    notes: &mut Notes,
    trace: &mut Trace,
    access: Access,
) -> Result<(), AllocError>
    requires valid { ValidCode code.now }
    requires sound { IsSound code.now thread.old.thread }
    requires number { thread.old.number ≡ t }
    requires few { t < 16 }
    requires slots { memories.old.region.slots ≤ most_slots }
    requires spare { 11 ≤ trace.old.spare }
    requires access { IsAccess code.now t thread.old.thread access }
    ensures ok { OnOk result (TakesTurn code.now t thread.old.thread thread.new.thread memories.old memories.new
        trace.old.records trace.new.records) }
    ensures number { thread.new.number ≡ t }
    ensures sound { IsSound code.now thread.new.thread }
    ensures err { OnErr result (trace.new.records ≡ trace.old.records) }
    ensures kept { Keeps memories.old memories.new }
    ensures inputs { trace.new.inputs ≡ trace.old.inputs }
{
    match access {
        Access::Load { a, kind, d } => {
            let word = memories.plain.load(a);
            let defined = Some((d, Value::Bare(truncated(kind, word))));
            finish(
                t,
                thread,
                trace,
                Action::Load(a),
                Reply::Word(word),
                defined,
            );
        }
        Access::Store { a, v } => {
            memories.plain.store(a, v)?;
            finish(t, thread, trace, Action::Store(a, v), Reply::Nothing, None);
        }
        Access::Get { a, d } => {
            let found = memories.region.get(a);
            let defined = Some((d, loaded_entry(found)));
            finish(
                t,
                thread,
                trace,
                Action::Get(a),
                Reply::Found(found),
                defined,
            );
        }
        Access::Put { a, e } => {
            memories.region.put(a, e)?;
            finish(t, thread, trace, Action::Put(a, e), Reply::Nothing, None);
        }
        Access::Look { id } => {
            if !memories.region.look(id) {
                return take_turn(code, t, thread, memories, notes, trace);
            }
            finish(t, thread, trace, Action::Look(id), Reply::Flag(true), None);
        }
    }
    Ok(())
}

/// Takes turns of a thread while they are quiet, at most so many, and tells how many.
fn take_quiet_turns(code: &Code, thread: &mut Thread, most: usize) -> usize
    requires valid { ValidCode code.now }
    requires sound { IsSound code.now thread.old.thread }
    ensures few { result ≤ most }
    ensures turns { AreQuietTurns code.now thread.old.number result thread.old.thread thread.new.thread }
    ensures number { thread.new.number ≡ thread.old.number }
    ensures sound { IsSound code.now thread.new.thread }
{
    for taken in 0..most {
        if !thread.is_live() || !thread.take_quiet_turn(code) {
            return taken;
        }
    }
    most
}

/// Turns of thread `t`, at least one and at most so many: those that are quiet, or the next one, whose notes are put in place of
/// these. A thread that isn't live does nothing in a turn. Tells how many turns they are.
///
/// # Errors
///
/// `AllocError`. The trace is as before.
#[tactic(auto, using(crate::proofs::Turns::taken_once, crate::proofs::Turns::recorded_once, crate::proofs::Turns::stays_once, crate::proofs::Turns::unrecorded_once, crate::proofs::QuietTurns::quietly_taken, crate::proofs::QuietTurns::quietly_recorded))]
pub fn turns_of_seat(
    code: &Code,
    t: u8,
    seat: &mut Option<Thread>,
    memories: &mut Memories,
    notes: &mut Notes,
    trace: &mut Trace,
    most: usize,
) -> Result<usize, AllocError>
    requires valid { ValidCode code.now }
    requires seat { IsSeat code.now t seat.old }
    requires few { t < 16 }
    requires slots { memories.old.region.slots ≤ most_slots }
    requires some { 1 ≤ most }
    ensures least { IfOk result (λ n. 1 ≤ n) }
    ensures most { IfOk result (λ n. n ≤ most) }
    ensures after { IfOk result (λ n. (threads : List (ModelThread Value)) → length threads ≡ memories.old.region.threads
        → slice_get threads t ≡ Option.Some (thread_of seat.old)
        → state_after (setting_with code.now memories.old) (state_with memories.old threads) (repeated n (Turn t ∷ []))
        ≡ state_with memories.new (slice_set threads t (thread_of seat.new))) }
    ensures recorded { IfOk result (λ n. (threads : List (ModelThread Value)) → length threads ≡ memories.old.region.threads
        → slice_get threads t ≡ Option.Some (thread_of seat.old)
        → trace.new.records ≡ traced trace.old.records
        (steps_from (setting_with code.now memories.old) (state_with memories.old threads) (repeated n (Turn t ∷ [])))) }
    ensures err { OnErr result (trace.new.records ≡ trace.old.records) }
    ensures seat { IsSeat code.now t seat.new }
    ensures kept { Keeps memories.old memories.new }
    ensures inputs { trace.new.inputs ≡ trace.old.inputs }
{
    match seat {
        Some(thread) if thread.is_live() => {
            trace.reserve(MOST_RECORDS)?;
            let quiet = take_quiet_turns(code, thread, most);
            if quiet > 0 {
                trace.push(Record::Steps { t, n: quiet as u64 });
                return Ok(quiet);
            }
            match thread.access(code) {
                Some(access) => take_access(code, t, thread, memories, notes, trace, access)?,
                None => take_turn(code, t, thread, memories, notes, trace)?,
            }
            Ok(1)
        }
        _ => Ok(1),
    }
}

/// Stops thread `t` with `Budget`, if it is live and has begun.
///
/// # Errors
///
/// `AllocError`, which leaves it and the trace as they were.
pub fn cut_seat(t: u8, seat: &mut Option<Thread>, trace: &mut Trace) -> Result<(), AllocError>
    requires few { t < 16 }
    ensures after { OnOk result ((memories : Memories) (threads : List (ModelThread Value))
        → slice_get threads t ≡ Option.Some (thread_of seat.old)
        → (cuts (state_with memories threads) t (Option.Some (thread_of seat.old))).after
        ≡ state_with memories (slice_set threads t (thread_of seat.new))) }
    ensures recorded { OnOk result ((memories : Memories) (threads : List (ModelThread Value))
        → trace.new.records ≡ traced trace.old.records
        ((cuts (state_with memories threads) t (Option.Some (thread_of seat.old))).step ∷ [])) }
    ensures err { OnErr result ((seat.new ≡ seat.old) × (trace.new.records ≡ trace.old.records)) }
    ensures seat { (code : Code) → IsSeat code t seat.old → IsSeat code t seat.new }
    ensures inputs { trace.new.inputs ≡ trace.old.inputs }
{
    if !can_be_cut(seat) {
        return Ok(());
    }
    trace.reserve(1)?;
    let note = Note::Stopped(Stop::Budget);
    trace.push(Record::Noted { t, note });
    *seat = None;
    Ok(())
}

/// Whether a thread is live and has begun.
fn can_be_cut(seat: &Option<Thread>) -> bool
    ensures { result ≡ is_running (thread_of seat.now) }
{
    match seat {
        Some(thread) => thread.is_live() && thread.has_begun(),
        None => false,
    }
}
