//! A thread as callers see it.

ghost use Rattle.std.specs.Prelude.{◌≡◌, ◌↔◌, IfOk, IfSome, OnOk, OnErr, IsTrue};
ghost use Rattle.meaning.specs.Action.{Fits};
ghost use Rattle.machine.specs.Frames as model;
ghost use Rattle.machine.specs.Logs.{first_thread};
ghost use Rattle.machine.specs.Protected as spec;
ghost use Rattle.machine.specs.ValidCode.{ValidCode};
ghost use Rattle.machine.specs.declared.code.Code.{Code};
ghost use Rattle.thread_engine.specs.Accesses.{IsAccess, StandsLow, gone_on};
ghost use Rattle.thread_engine.specs.Quiet.{TakesQuietTurn};
ghost use Rattle.thread_engine.specs.Sound.{IsSound, SlotsAreThere};

use crate::access::Access;
use crate::notes::Notes;
use crate::state::State;
use machine::Code;
use meaning::{Action, Reply, Value};
use std::alloc::{AllocError, Global};
use std::marker::Model;

/// A thread of the protected machine, by its number: thread 0 begins in the entry function, and each
/// other waits for its start.
#[derive(Debug, Drop)]
pub struct Thread {
    alloc: Global,
    number: u8,
    state: State,
}

impl Model for Thread {
    ghost use Rattle.thread_engine.specs.State.{ThreadState};

    ghost Value = { ThreadState };

    ghost use Rattle.thread_engine.specs.inner.Views.{IsKept, thread_of};

    ghost view = { λ t. record { number = t.number; thread = thread_of t.state } };

    ghost invariant = { λ t. IsKept t.state };
}

impl Thread {
    /// The thread of this number, before its first turn.
    ///
    /// # Errors
    ///
    /// `AllocError`, where no memory is left.
    #[tactic(auto, using(crate::proofs::Preserved::opened_is_sound))]
    pub fn open(alloc: Global, code: &Code, number: u8) -> Result<Thread, AllocError>
        requires { ValidCode code.now }
        ensures opened { IfOk result (λ t. t ≡ record { number = number; thread = first_thread code.now number }) }
        ensures sound { IfOk result (λ t. IsSound code.now t.thread) }
    {
        let state = State::open(alloc, code, number)?;
        Ok(Thread {
            alloc,
            number,
            state,
        })
    }

    /// Whether it has neither ended nor stopped.
    pub fn is_live(&self) -> bool
        ensures { result ≡ model.is_live self.now.thread }
    {
        self.state.is_live()
    }

    /// Whether its start was found; thread 0 has always begun.
    pub fn has_begun(&self) -> bool
        ensures { result ≡ model.has_begun self.now.thread }
    {
        self.state.has_begun()
    }

    /// Takes its next turn, if that asks for nothing and tells nothing, as most turns do, and answers whether it did. Else
    /// nothing changes.
    pub fn take_quiet_turn(&mut self, code: &Code) -> bool
        requires valid { ValidCode code.now }
        requires sound { IsSound code.now self.old.thread }
        ensures number { self.new.number ≡ self.old.number }
        ensures turn { TakesQuietTurn result code.now self.old.number self.old.thread self.new.thread }
        ensures sound { IsSound code.now self.new.thread }
    {
        self.state.take_quiet_turn(code)
    }

    /// An access that its next turn is, or none. Whoever answers it has the thread go on.
    pub fn access(&self, code: &Code) -> Option<Access>
        requires valid { ValidCode code.now }
        requires sound { IsSound code.now self.now.thread }
        ensures { IfSome result (IsAccess code.now self.now.number self.now.thread) }
    {
        self.state.access(code)
    }

    /// To its next place, with this value in this register, if one is given: what the answer of an access does.
    #[tactic(auto, using(crate::proofs::Accesses::going_on_keeps_sound))]
    pub fn go_on(&mut self, defined: Option<(u32, Value)>)
        requires low { StandsLow self.old.thread }
        ensures gone { self.new ≡ record self.old { thread = gone_on defined self.old.thread } }
        ensures sound { (code : Code) → IsSound code self.old.thread → IsSound code self.new.thread }
    {
        self.state.go_on(defined);
    }

    /// What it asks for in its next turn.
    pub fn next(&self, code: &Code) -> Action
        requires { IsSound code.now self.now.thread }
        ensures { result ≡ spec.next code.now self.now.number self.now.thread }
    {
        self.state.next(code, self.number)
    }

    /// Where the answer of its next action leads it, and what the turn tells.
    ///
    /// # Errors
    ///
    /// `AllocError`, where no memory is left for a new frame. The thread is as it was.
    pub fn resume(&mut self, code: &Code, answer: Reply) -> Result<Notes, AllocError>
        requires valid { ValidCode code.now }
        requires sound { IsSound code.now self.old.thread }
        requires fits { Fits (spec.next code.now self.old.number self.old.thread) answer }
        requires there { SlotsAreThere (spec.next code.now self.old.number self.old.thread) answer }
        ensures resumed { let action = spec.next code.now self.old.number self.old.thread in
            let told = spec.resume code.now self.old.number self.old.thread action answer in
            IfOk result (λ notes. (self.new ≡ record self.old { thread = told.thread }) × (notes ≡ told.notes)) }
        ensures err { OnErr result (self.new ≡ self.old) }
        ensures sound { IsSound code.now self.new.thread }
    {
        let mut notes = Notes::new();
        self.resume_into(code, self.next(code), answer, &mut notes)?;
        Ok(notes)
    }

    /// The same of the action that it asked for, with what the turn tells put in place of these notes: whoever takes many
    /// turns keeps one list for all, and has asked for the action.
    ///
    /// # Errors
    ///
    /// `AllocError`, where no memory is left for a new frame. The thread is as it was; the notes may not be.
    pub fn resume_into(
        &mut self,
        code: &Code,
        action: Action,
        answer: Reply,
        notes: &mut Notes,
    ) -> Result<(), AllocError>
        requires valid { ValidCode code.now }
        requires sound { IsSound code.now self.old.thread }
        requires asked { action ≡ spec.next code.now self.old.number self.old.thread }
        requires fits { Fits (spec.next code.now self.old.number self.old.thread) answer }
        requires there { SlotsAreThere (spec.next code.now self.old.number self.old.thread) answer }
        ensures resumed { let action = spec.next code.now self.old.number self.old.thread in
            let told = spec.resume code.now self.old.number self.old.thread action answer in
            OnOk result ((self.new ≡ record self.old { thread = told.thread }) × (notes.new ≡ told.notes)) }
        ensures err { OnErr result (self.new ≡ self.old) }
        ensures sound { IsSound code.now self.new.thread }
    {
        notes.clear();
        self.state
            .resume(self.alloc, code, self.number, action, answer, notes)
    }
}
