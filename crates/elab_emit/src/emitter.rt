//! The code so far.

ghost use Rattle.std.specs.Prelude.{◌≡◌, [], length};
ghost use Rattle.elab_emit.specs.Emits.{GiveOutcome, IsSound, PutOutcome};

use core_ir::{Instr, InstrList};
use sqlite_items::Items;
use std::alloc::{AllocError, Global};

/// Why there is no code.
#[derive(Debug, Drop)]
pub enum Trouble {
    /// There are more than 65,536 instructions.
    TooLong,
    /// No memory is left, or a number that typing bounds is above its bound.
    Memory,
}

impl From<AllocError> for Trouble {
    ghost use Rattle.std.specs.Prelude.{◌≡◌};
    ghost use Rattle.elab_emit.specs.declared.emitter.Trouble.TheVariants.{Memory};

    ghost from_gives = { λ _ trouble. trouble ≡ Memory };

    fn from(_error: AllocError) -> Trouble {
        Trouble::Memory
    }
}

/// The most instructions of a function.
const LONGEST: usize = 65_536;

/// The code so far, and the next register and slot.
#[derive(Debug, Drop)]
pub struct Emitter {
    pub alloc: Global,
    pub code: InstrList,
    pub register: u32,
    pub slot: u32,
}

impl Emitter {
    /// No code, where this is the first slot behind those of parameters and locals.
    pub fn new(alloc: Global, slot: u32) -> Emitter
        ensures code { result.code ≡ [] }
        ensures register { result.register ≡ 0 }
        ensures slot { result.slot ≡ slot }
    {
        Emitter {
            alloc,
            code: Items::new(alloc),
            register: 0,
            slot,
        }
    }
}

/// Adds an instruction that defines no register.
///
/// # Errors
///
/// `TooLong`, where the code has its most instructions. `Memory`, where no memory is left.
pub fn put(out: &mut Emitter, instr: Instr) -> Result<(), Trouble>
    requires { IsSound out.old }
    ensures made { PutOutcome out.old instr result out.new }
    ensures sound { IsSound out.new }
{
    if out.code.len() >= LONGEST {
        return Err(Trouble::TooLong);
    }
    match out.code.push(instr) {
        Ok(()) => Ok(()),
        Err(_) => Err(Trouble::Memory),
    }
}

/// Adds an instruction that defines the next register, and tells that.
///
/// # Errors
///
/// `TooLong`, where the code has its most instructions. `Memory`, where no memory is left.
pub(crate) fn give(out: &mut Emitter, instr: Instr) -> Result<u32, Trouble>
    requires { IsSound out.old }
    ensures made { GiveOutcome out.old instr result out.new }
    ensures sound { IsSound out.new }
{
    let register = out.register;
    put(out, instr)?;
    out.register += 1;
    Ok(register)
}
