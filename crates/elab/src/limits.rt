//! The limits of whole functions.

ghost use Rattle.std.specs.Prelude.{◌≡◌, []};
ghost use Rattle.elab.specs.declared.error.ElabRefusal.TheVariants as refusal;
ghost use Rattle.elab.specs.inner.Programs.{first_passed, noted, passed_by};

use crate::error::ElabRefusal;
use elab_pieces::LimitName;

/// The most functions, the entry function aside.
pub(crate) const MOST_FUNCTIONS: usize = 4_095;
/// The most registers of a full expression.
const MOST_REGISTERS: u32 = 1_024;
/// The most slots of a function.
const MOST_SLOTS: u32 = 1_024;

/// Which limits some function passes.
#[derive(Clone, Copy, Debug, PartialEq, Eq)]
pub(crate) struct Passed {
    pub(crate) registers: bool,
    pub(crate) slots: bool,
    pub(crate) frame: bool,
}

impl Passed {
    /// None.
    pub(crate) fn new() -> Passed
        ensures { result ≡ passed_by [] }
    {
        Passed {
            registers: false,
            slots: false,
            frame: false,
        }
    }

    /// One more function, of so many registers and slots; whether it has a frame that a function may have.
    pub(crate) fn note(&mut self, registers: u32, slots: u32, has_room: bool)
        ensures { self.new ≡ noted self.old registers slots has_room }
    {
        if registers > MOST_REGISTERS {
            self.registers = true;
        }
        if slots > MOST_SLOTS {
            self.slots = true;
        }
        if !has_room {
            self.frame = true;
        }
    }

    /// The first of them that is passed, if any is.
    pub(crate) fn first(&self) -> Option<LimitName>
        ensures { result ≡ first_passed self.now }
    {
        if self.registers {
            return Some(LimitName::Registers);
        }
        if self.slots {
            return Some(LimitName::Slots);
        }
        if self.frame {
            return Some(LimitName::Frame);
        }
        None
    }
}

/// The refusal of a limit.
pub(crate) fn limit(which: LimitName) -> ElabRefusal
    ensures { result ≡ refusal.Limit which }
{
    ElabRefusal::Limit { which }
}
