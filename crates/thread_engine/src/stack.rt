//! The frames of a thread. Nothing else knows how they lie.

ghost use Rattle.std.specs.Prelude.{◌≡◌, ◌<◌, ◌+◌, ◌^◌, ◌∷◌, ℕ, [], length, IfOk, IfSome};
ghost use Rattle.machine.specs.Frames.{Running};
ghost use Rattle.machine.specs.Threads as spec;
ghost use Rattle.machine.specs.Protected.{protected};
ghost use Rattle.machine.specs.ValidCode.{ValidCode};
ghost use Rattle.thread_engine.specs.Accesses.{IsAccess, moved_on, write_by};
ghost use Rattle.thread_engine.specs.Quiet.{TakesQuietTurn};
ghost use Rattle.thread_engine.specs.Sound.{AreSound, length_of};
ghost use Rattle.thread_engine.specs.inner.Frames.{HasRoom, IsBottomBy, LeavesBy, below_of, frame_of, frames_of, held, top_of};
ghost use Rattle.thread_engine.specs.inner.Turns.{write_of};

use crate::access::{Access, access_at};
use crate::effect::Write;
use crate::frame::Frame;
use crate::instruction::{place_at, size_of};
use crate::quiet::take_quietly;
use machine::Code;
use meaning::Value;
use std::alloc::{AllocError, Global};
use std::mem::replace;

/// A thread has at most this many frames.
const MOST_FRAMES: usize = 4096;

/// The frames of a thread have at most this many values.
const MOST_VALUES: u64 = 65536;

/// The frames of a thread that runs: the top one, and those below it with the bottom one first.
#[derive(Debug, Drop)]
pub(crate) struct Stack {
    pub(crate) top: Frame,
    pub(crate) below: Vec<Frame>,
    /// The values of all frames.
    pub(crate) used: u64,
}

impl Stack {
    /// A stack with room for all frames that a thread can have.
    pub(crate) fn reserve(alloc: Global, top: Frame) -> Result<Stack, AllocError>
        requires { length_of (frame_of top) < 2 ^ 32 }
        ensures top { IfOk result (λ s. top_of s ≡ frame_of top) }
        ensures below { IfOk result (λ s. s.below.items ≡ []) }
        ensures room { IfOk result HasRoom }
        ensures counts { IfOk result (λ s. s.used ≡ held (frames_of s)) }
    {
        let used = top.len();
        let below = Vec::with_capacity(alloc, MOST_FRAMES)?;
        Ok(Stack { top, below, used })
    }

    /// The depth of the top frame.
    pub(crate) fn depth(&self) -> u32
        requires { length self.now.below.items < 4096 }
        ensures { result ≡ length (below_of self.now) }
    {
        self.below.len() as u32
    }

    /// Whether there is no frame below the top one.
    pub(crate) fn is_bottom(&self) -> bool
        ensures { IsBottomBy result (below_of self.now) }
    {
        self.below.is_empty()
    }

    /// Whether a call of a function goes neither past the most frames nor past the most values.
    pub(crate) fn has_room(&self, code: &Code, f: u32) -> bool
        requires sound { AreSound code.now (frames_of self.now) }
        requires counted { self.now.used ≡ held (frames_of self.now) }
        ensures { result ≡ spec.has_room code.now (frames_of self.now) f }
    {
        self.below.len() + 1 < MOST_FRAMES && self.used + size_of(code, f) <= MOST_VALUES
    }
}

/// What the answer of an access writes.
fn register_write(defined: Option<(u32, Value)>) -> Write
    ensures { write_of result ≡ write_by defined }
{
    match defined {
        None => Write::Nothing,
        Some((d, value)) => Write::ToRegister { d, value },
    }
}

impl Stack {
    /// The first frame of a thread that begins.
    pub(crate) fn begin(&mut self, first: Frame)
        requires empty { self.old.below.items ≡ [] }
        requires small { length_of (frame_of first) < 2 ^ 32 }
        ensures top { top_of self.new ≡ frame_of first }
        ensures below { self.new.below ≡ self.old.below }
        ensures counts { self.new.used ≡ held (frames_of self.new) }
    {
        self.used = first.len();
        self.top = first;
    }

    /// To a place of the top frame, with this written in it.
    #[tactic(auto, using(crate::proofs::Counts::written_keeps_length))]
    pub(crate) fn go(&mut self, to: u32, write: Write)
        ensures top { top_of self.new ≡ spec.written protected (write_of write) (record (top_of self.old) { place = to }) }
        ensures below { self.new.below ≡ self.old.below }
        ensures counts { self.old.used ≡ held (frames_of self.old) → self.new.used ≡ held (frames_of self.new) }
    {
        self.top.place = to;
        self.top.write(write);
    }

    /// Performs the instruction at which the top frame stands, if its turn is quiet, and answers whether it is. Else
    /// nothing changes.
    #[tactic(auto, using(crate::proofs::QuietTurns::place_is_low, crate::proofs::QuietTurns::addresses_are_low))]
    pub(crate) fn take_quiet_turn(&mut self, code: &Code) -> bool
        requires valid { ValidCode code.now }
        requires sound { AreSound code.now (frames_of self.old) }
        ensures turn { (t : ℕ) → TakesQuietTurn result code.now t
            (Running (top_of self.old) (below_of self.old)) (Running (top_of self.new) (below_of self.new)) }
        ensures below { self.new.below ≡ self.old.below }
        ensures counts { self.old.used ≡ held (frames_of self.old) → self.new.used ≡ held (frames_of self.new) }
    {
        match place_at(code, self.top.function, self.top.place) {
            None => false,
            Some(place) => take_quietly(&mut self.top, place),
        }
    }

    /// The access that the turn of the top frame's instruction is, if it is one.
    pub(crate) fn access(&self, code: &Code) -> Option<Access>
        requires valid { ValidCode code.now }
        ensures { (t : ℕ) → IfSome result (IsAccess code.now t (Running (top_of self.now) (below_of self.now))) }
    {
        match place_at(code, self.top.function, self.top.place) {
            None => None,
            Some(place) => access_at(&self.top, place),
        }
    }

    /// To the top frame's next place, with this value in this register, if one is given.
    pub(crate) fn go_on(&mut self, defined: Option<(u32, Value)>)
        requires low { self.old.top.place < 65536 }
        ensures top { top_of self.new ≡ moved_on defined (top_of self.old) }
        ensures below { self.new.below ≡ self.old.below }
        ensures counts { self.old.used ≡ held (frames_of self.old) → self.new.used ≡ held (frames_of self.new) }
    {
        self.go(self.top.place + 1, register_write(defined));
    }

    /// Into a new frame, from behind which the top one goes on.
    pub(crate) fn enter(&mut self, new: Frame)
        requires place { self.old.top.place < 65536 }
        requires room { HasRoom self.old }
        requires few { length self.old.below.items < 4096 }
        requires small { length_of (frame_of new) < 2 ^ 32 }
        requires used { self.old.used < 2 ^ 32 }
        ensures top { top_of self.new ≡ frame_of new }
        ensures below { below_of self.new ≡ record (top_of self.old) { place = self.old.top.place + 1 } ∷ below_of self.old }
        ensures room { HasRoom self.new }
        ensures counts { self.old.used ≡ held (frames_of self.old) → self.new.used ≡ held (frames_of self.new) }
    {
        self.used += new.len();
        let mut caller = replace(&mut self.top, new);
        caller.place += 1;
        self.below.push_reserved(caller);
    }

    /// Out of the top frame, if there is another below it.
    pub(crate) fn leave(&mut self) -> bool
        requires room { HasRoom self.old }
        requires small { length_of (top_of self.old) < 2 ^ 32 }
        requires counts { self.old.used ≡ held (frames_of self.old) }
        ensures left { LeavesBy result self.old self.new }
        ensures room { HasRoom self.new }
        ensures counts { self.new.used ≡ held (frames_of self.new) }
    {
        match self.below.pop() {
            None => false,
            Some(caller) => {
                let left = replace(&mut self.top, caller);
                self.used -= left.len();
                true
            }
        }
    }
}
