//! The safe store, ordinary memory and the inputs, and how they answer an action.
ghost use Rattle.std.specs.Prelude.{◌≡◌, IfOk, OnOk, OnErr};
ghost use Rattle.machine.specs.Store.{input_at, remembered};
ghost use Rattle.region_seq.specs.Bounded.{behind};
ghost use Rattle.system.specs.inner.Seats.{answer_of};

use meaning::{Action, Inputs, Reply};
use plain_seq::Plain;
use region_seq::Region;
use std::alloc::AllocError;

/// The safe store, ordinary memory and the inputs.
#[derive(Drop)]
pub struct Memories {
    pub region: Region,
    pub plain: Plain,
    pub inputs: Inputs,
}

impl Memories {
    /// The input of this number, from 0, and 0 where there is none.
    fn input(&self, n: i64) -> i64
        ensures { result ≡ input_at self.now.inputs n }
    {
        let Ok(n) = usize::try_from(n) else {
            return 0;
        };
        self.inputs.get(n).copied().unwrap_or(0)
    }

    /// What answers an action, which changes what it changes.
    ///
    /// # Errors
    ///
    /// `AllocError`, which leaves everything as it was.
    pub fn answer(&mut self, action: Action) -> Result<Reply, AllocError>
        ensures reply { IfOk result (λ r. r ≡ answer_of self.old action) }
        ensures region { OnOk result (self.new.region ≡ behind self.old.region action) }
        ensures plain { OnOk result (self.new.plain ≡ remembered self.old.plain action) }
        ensures inputs { self.new.inputs ≡ self.old.inputs }
        ensures err { OnErr result ((self.new.region ≡ self.old.region) × (self.new.plain ≡ self.old.plain)) }
    {
        match action {
            Action::Load(a) => Ok(Reply::Word(self.plain.load(a))),
            Action::Store(a, v) => {
                self.plain.store(a, v)?;
                Ok(Reply::Nothing)
            }
            Action::TryLock(a) => Ok(Reply::Word(self.plain.try_lock(a)?)),
            Action::Get(a) => Ok(Reply::Found(self.region.get(a))),
            Action::Put(a, e) => {
                self.region.put(a, e)?;
                Ok(Reply::Nothing)
            }
            Action::Alloc(k) => Ok(Reply::Slot(self.region.alloc(k))),
            Action::Free(id) => Ok(Reply::Flag(self.region.free(id)?)),
            Action::Look(id) => Ok(Reply::Flag(self.region.look(id))),
            Action::Fork => Ok(Reply::Thread(self.region.fork())),
            Action::Input(n) => Ok(Reply::Word(self.input(n))),
            Action::Own | Action::Print(_) | Action::Halt(_) => Ok(Reply::Nothing),
        }
    }
}
