//! The system, and what each event does to it.
ghost use Rattle.std.specs.Prelude.{◌≡◌, ℕ, ◌≤◌, ◌<◌, [], ◌∷◌, length, map, slice_get, take, Option, OnOk, OnErr, IfOk};
ghost use Rattle.machine.specs.declared.code.Code.{Code};
ghost use Rattle.machine.specs.ValidCode.{ValidCode};
ghost use Rattle.system.specs.State.{IsSeat, thread_of};
ghost use Rattle.system.specs.inner.Seats.{first_threads};
ghost use Rattle.thread_engine.specs.State.{ThreadState};

use super::memories::Memories;
use super::turn::{cut_seat, turns_of_seat};
use machine::Code;
use meaning::{Block, Event, Events, Inputs, Record};
use plain_seq::Plain;
use region_seq::Region;
use std::alloc::{AllocError, Global};
use thread_engine::{Notes, Thread};
use trace::Trace;

/// The state of a run: the safe store, ordinary memory and the threads. A thread that was cut off is none.
#[derive(Drop)]
pub struct System {
    memories: Memories,
    threads: Vec<Option<Thread>>,
    /// What the last turn told: one list for all turns.
    notes: Notes,
}

/// The threads of a run, before their first turns.
fn open_threads(alloc: Global, code: &Code, threads: u8) -> Result<Vec<Option<Thread>>, AllocError>
    requires valid { ValidCode code.now }
    ensures threads { IfOk result (λ seats. map thread_of seats.items ≡ first_threads code.now threads) }
    ensures count { IfOk result (λ seats. length seats.items ≡ threads) }
    ensures each { IfOk result (λ seats. (n : ℕ) (seat : Option ThreadState)
        → slice_get seats.items n ≡ Option.Some seat → IsSeat code.now n seat) }
{
    let mut seats = Vec::new(alloc);
    for n in 0..threads {
        seats.push(Some(Thread::open(alloc, code, n)?))?;
    }
    Ok(seats)
}

impl System {
    ghost use Rattle.std.specs.Prelude.{◌≡◌, ℕ, ◌≤◌, [], ◌∷◌, take, OnOk, OnErr, IfOk};
    ghost use Rattle.meaning.specs.declared.event.Event.TheVariants.{Turn, Corrupt, Cut};
    ghost use Rattle.machine.specs.declared.code.Code.{Code};
    ghost use Rattle.machine.specs.ValidCode.{ValidCode};
    ghost use Rattle.machine.specs.Run.{opening, happens, steps_from, state_after};
    ghost use Rattle.machine.specs.Trace.{traced};
    ghost use Rattle.meaning.specs.Blocks.{events_of, repeated};
    ghost use Rattle.system.specs.State.{state_of, setting_of, threads_of, IsSystem, IsSystemOf};
    ghost use Rattle.system.specs.inner.Runs.{IsBehind, IsKept, IsWithin};

    /// The system that begins a run of code, with these inputs, at most this many threads, 1 to 16, and this many slots,
    /// 1,026 to 1,048,576.
    ///
    /// # Errors
    ///
    /// `AllocError`, where no memory is left.
    pub fn open(
        alloc: Global,
        code: &Code,
        inputs: &Inputs,
        threads: u8,
        slots: u32,
    ) -> Result<System, AllocError>
        requires valid { ValidCode code.now }
        requires some_thread { 1 ≤ threads }
        requires few_threads { threads ≤ 16 }
        requires least_slots { 1026 ≤ slots }
        requires most_slots { slots ≤ 1048576 }
        ensures state { IfOk result (λ s. state_of s ≡ opening (setting_of code.now s) threads) }
        ensures setting { IfOk result (λ s. setting_of code.now s
            ≡ record { code = code.now; inputs = inputs.now; slots = slots }) }
        ensures threads { IfOk result (λ s. threads_of s ≡ threads) }
        ensures same { IfOk result (IsSystemOf code.now) }
    {
        let memories = Memories {
            region: Region::open(alloc, slots, threads)?,
            plain: Plain::open(alloc)?,
            inputs: Inputs::from_slice(alloc, inputs.as_slice())?,
        };
        let threads = open_threads(alloc, code, threads)?;
        Ok(System {
            memories,
            threads,
            notes: Notes::new(),
        })
    }

    /// A turn of a thread, which is recorded. It does nothing where the thread has ended or stopped, or there is no
    /// such thread.
    ///
    /// # Errors
    ///
    /// `AllocError`, which leaves the trace as it was. The memories may have changed where the turn opened a frame, so the
    /// run can't go on behind it; the system is still one of its code.
    pub fn turn(&mut self, code: &Code, t: u8, trace: &mut Trace) -> Result<(), AllocError>
        requires valid { ValidCode code.now }
        requires same { IsSystemOf code.now self.old }
        ensures ok { OnOk result (state_of self.new
            ≡ (happens (setting_of code.now self.old) (state_of self.old) (Turn t)).after) }
        ensures recorded { OnOk result (trace.new.records
            ≡ traced trace.old.records ((happens (setting_of code.now self.old) (state_of self.old) (Turn t)).step ∷ [])) }
        ensures err { OnErr result (trace.new.records ≡ trace.old.records) }
        ensures same { IsSystemOf code.now self.new }
        ensures setting { setting_of code.now self.new ≡ setting_of code.now self.old }
        ensures threads { threads_of self.new ≡ threads_of self.old }
        ensures inputs { trace.new.inputs ≡ trace.old.inputs }
    {
        self.turns(code, t, 1, trace)?;
        Ok(())
    }

    /// Turns of a thread, at least one and at most so many, which are recorded: how many they are. They do nothing where the thread has
    /// ended or stopped, or there is no such thread.
    ///
    /// # Errors
    ///
    /// `AllocError`, which leaves the trace as it was.
    fn turns(
        &mut self,
        code: &Code,
        t: u8,
        most: usize,
        trace: &mut Trace,
    ) -> Result<usize, AllocError>
        requires valid { ValidCode code.now }
        requires same { IsSystemOf code.now self.old }
        requires some { 1 ≤ most }
        ensures least { IfOk result (λ n. 1 ≤ n) }
        ensures most { IfOk result (λ n. n ≤ most) }
        ensures ok { IfOk result (λ n. IsBehind code.now (repeated n (Turn t ∷ [])) self.old self.new trace.old.records trace.new.records) }
        ensures err { OnErr result (trace.new.records ≡ trace.old.records) }
        ensures kept { IsKept code.now self.old self.new }
        ensures inputs { trace.new.inputs ≡ trace.old.inputs }
    {
        let Some(seat) = self.threads.get_mut(usize::from(t)) else {
            return Ok(1);
        };
        let taken = turns_of_seat(
            code,
            t,
            seat,
            &mut self.memories,
            &mut self.notes,
            trace,
            most,
        )?;
        Ok(taken)
    }

    /// A corruption: word `v` is written at address `a` of ordinary memory.
    ///
    /// # Errors
    ///
    /// `AllocError`, which leaves the system and the trace as they were.
    pub fn corrupt(&mut self, a: u32, v: i64, trace: &mut Trace) -> Result<(), AllocError>
        ensures ok { (code : Code) → OnOk result (state_of self.new
            ≡ (happens (setting_of code self.old) (state_of self.old) (Corrupt a v)).after) }
        ensures recorded { (code : Code) → OnOk result (trace.new.records
            ≡ traced trace.old.records ((happens (setting_of code self.old) (state_of self.old) (Corrupt a v)).step ∷ [])) }
        ensures err { OnErr result ((state_of self.new ≡ state_of self.old) × (trace.new.records ≡ trace.old.records)) }
        ensures same { (code : Code) → IsSystemOf code self.old → IsSystemOf code self.new }
        ensures setting { (code : Code) → setting_of code self.new ≡ setting_of code self.old }
        ensures threads { threads_of self.new ≡ threads_of self.old }
        ensures inputs { trace.new.inputs ≡ trace.old.inputs }
    {
        trace.reserve(1)?;
        self.memories.plain.store(a, v)?;
        trace.push(Record::Wrote { a, v });
        Ok(())
    }

    /// Stops a thread that is live and has begun with `Budget`.
    ///
    /// # Errors
    ///
    /// `AllocError`, which leaves the system and the trace as they were.
    pub fn cut(&mut self, t: u8, trace: &mut Trace) -> Result<(), AllocError>
        requires within { IsSystem self.old }
        ensures ok { (code : Code) → OnOk result (state_of self.new
            ≡ (happens (setting_of code self.old) (state_of self.old) (Cut t)).after) }
        ensures recorded { (code : Code) → OnOk result (trace.new.records
            ≡ traced trace.old.records ((happens (setting_of code self.old) (state_of self.old) (Cut t)).step ∷ [])) }
        ensures err { OnErr result ((state_of self.new ≡ state_of self.old) × (trace.new.records ≡ trace.old.records)) }
        ensures same { (code : Code) → IsSystemOf code self.old → IsSystemOf code self.new }
        ensures setting { (code : Code) → setting_of code self.new ≡ setting_of code self.old }
        ensures threads { threads_of self.new ≡ threads_of self.old }
        ensures inputs { trace.new.inputs ≡ trace.old.inputs }
    {
        let Some(seat) = self.threads.get_mut(usize::from(t)) else {
            return Ok(());
        };
        cut_seat(t, seat, trace)?;
        Ok(())
    }

    /// The events of a run, one after another.
    ///
    /// # Errors
    ///
    /// `AllocError`. The trace then has the records of the events before it.
    pub fn run(&mut self, code: &Code, events: &Events, trace: &mut Trace) -> Result<(), AllocError>
        requires valid { ValidCode code.now }
        requires same { IsSystemOf code.now self.old }
        ensures ok { OnOk result (state_of self.new
            ≡ state_after (setting_of code.now self.old) (state_of self.old) events.now) }
        ensures recorded { OnOk result (trace.new.records
            ≡ traced trace.old.records (steps_from (setting_of code.now self.old) (state_of self.old) events.now)) }
        ensures err { OnErr result ((n : ℕ) × (trace.new.records
            ≡ traced trace.old.records (steps_from (setting_of code.now self.old) (state_of self.old) (take n events.now)))) }
        ensures same { IsSystemOf code.now self.new }
        ensures setting { setting_of code.now self.new ≡ setting_of code.now self.old }
        ensures threads { threads_of self.new ≡ threads_of self.old }
        ensures inputs { trace.new.inputs ≡ trace.old.inputs }
    {
        for block in events.blocks() {
            self.run_block(code, block, trace)?;
        }
        Ok(())
    }

    /// The events of a block, one after another, as often as they come.
    ///
    /// # Errors
    ///
    /// `AllocError`. The trace then has the records of the events before it.
    fn run_block(&mut self, code: &Code, block: &Block, trace: &mut Trace) -> Result<(), AllocError>
        requires valid { ValidCode code.now }
        requires same { IsSystemOf code.now self.old }
        ensures ok { OnOk result (IsBehind code.now (events_of block.now) self.old self.new trace.old.records trace.new.records) }
        ensures err { OnErr result (IsWithin code.now (events_of block.now) self.old trace.old.records trace.new.records) }
        ensures kept { IsKept code.now self.old self.new }
        ensures inputs { trace.new.inputs ≡ trace.old.inputs }
    {
        match block.events.as_slice() {
            [Event::Turn(t)] => self.run_turns(code, *t, block.times, trace),
            events => self.run_rounds(code, events, block.times, trace),
        }
    }

    /// So many turns of a thread.
    ///
    /// # Errors
    ///
    /// `AllocError`. The trace then has the records of the turns before it.
    fn run_turns(
        &mut self,
        code: &Code,
        t: u8,
        times: usize,
        trace: &mut Trace,
    ) -> Result<(), AllocError>
        requires valid { ValidCode code.now }
        requires same { IsSystemOf code.now self.old }
        ensures ok { OnOk result (IsBehind code.now (repeated times (Turn t ∷ [])) self.old self.new trace.old.records trace.new.records) }
        ensures err { OnErr result (IsWithin code.now (repeated times (Turn t ∷ [])) self.old trace.old.records trace.new.records) }
        ensures kept { IsKept code.now self.old self.new }
        ensures inputs { trace.new.inputs ≡ trace.old.inputs }
    {
        let mut left = times;
        while left > 0 {
            left -= self.turns(code, t, left, trace)?;
        }
        Ok(())
    }

    /// These events, one after another, so many times.
    ///
    /// # Errors
    ///
    /// `AllocError`. The trace then has the records of the events before it.
    fn run_rounds(
        &mut self,
        code: &Code,
        events: &[Event],
        times: usize,
        trace: &mut Trace,
    ) -> Result<(), AllocError>
        requires valid { ValidCode code.now }
        requires same { IsSystemOf code.now self.old }
        ensures ok { OnOk result (IsBehind code.now (repeated times events.now) self.old self.new trace.old.records trace.new.records) }
        ensures err { OnErr result (IsWithin code.now (repeated times events.now) self.old trace.old.records trace.new.records) }
        ensures kept { IsKept code.now self.old self.new }
        ensures inputs { trace.new.inputs ≡ trace.old.inputs }
    {
        for _ in 0..times {
            self.run_events(code, events, trace)?;
        }
        Ok(())
    }

    /// These events, one after another.
    ///
    /// # Errors
    ///
    /// `AllocError`. The trace then has the records of the events before it.
    fn run_events(
        &mut self,
        code: &Code,
        events: &[Event],
        trace: &mut Trace,
    ) -> Result<(), AllocError>
        requires valid { ValidCode code.now }
        requires same { IsSystemOf code.now self.old }
        ensures ok { OnOk result (IsBehind code.now events.now self.old self.new trace.old.records trace.new.records) }
        ensures err { OnErr result (IsWithin code.now events.now self.old trace.old.records trace.new.records) }
        ensures kept { IsKept code.now self.old self.new }
        ensures inputs { trace.new.inputs ≡ trace.old.inputs }
    {
        for event in events {
            self.step(code, *event, trace)?;
        }
        Ok(())
    }

    /// One event.
    fn step(&mut self, code: &Code, event: Event, trace: &mut Trace) -> Result<(), AllocError>
        requires valid { ValidCode code.now }
        requires same { IsSystemOf code.now self.old }
        ensures ok { OnOk result (state_of self.new
            ≡ (happens (setting_of code.now self.old) (state_of self.old) event).after) }
        ensures recorded { OnOk result (trace.new.records
            ≡ traced trace.old.records ((happens (setting_of code.now self.old) (state_of self.old) event).step ∷ [])) }
        ensures err { OnErr result (trace.new.records ≡ trace.old.records) }
        ensures same { IsSystemOf code.now self.new }
        ensures setting { setting_of code.now self.new ≡ setting_of code.now self.old }
        ensures threads { threads_of self.new ≡ threads_of self.old }
        ensures inputs { trace.new.inputs ≡ trace.old.inputs }
    {
        match event {
            Event::Turn(t) => self.turn(code, t, trace),
            Event::Corrupt(a, v) => self.corrupt(a, v, trace),
            Event::Cut(t) => self.cut(t, trace),
        }
    }
}
