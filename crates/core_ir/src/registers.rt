//! What is known of each register at a place of a body.

ghost use Rattle.std.specs.Prelude.{◌≡◌, ◌+◌, ◌<◌, ◌≤◌, ℕ, None, Some, IfSome, length, map, slice_set};
ghost use Rattle.core_ir.specs.Flow.{Stands};
ghost use Rattle.core_ir.specs.inner.Registers.{AreDefined, AreKnown, IsEntered, entry, linked};

use crate::outline::HasOutline;
use crate::role::Role;

/// As many as a function may have.
pub(crate) const MOST_REGISTERS: usize = 1_024;

/// Tables by register.
#[derive(Drop)]
pub(crate) struct Registers {
    /// The last place that defined it.
    last: [Option<u32>; MOST_REGISTERS],
    /// The first place of its chain: the load or the slot's value from which conversions alone make it.
    chain: [Option<u32>; MOST_REGISTERS],
    /// The last place that started a thread with the function in it.
    started: [Option<u32>; MOST_REGISTERS],
}

/// The entry of a register, and none behind the table's end.
fn entry_of(table: &[Option<u32>], register: u32) -> Option<u32>
    ensures { result ≡ entry table.now register }
{
    *table.get(register as usize)?
}

/// The register with the function that an instruction of this role starts a thread with, if the tables
/// have it.
fn started_by(role: Role) -> Option<u32>
    ensures some { IfSome result (λ f. (f < 1024) × ((t : ℕ) × (role ≡ Role.StartFn t f))) }
    ensures none { result ≡ None → (t f : ℕ) → role ≡ Role.StartFn t f → 1024 ≤ f }
{
    match role {
        Role::StartFn { f, .. } if (f as usize) < MOST_REGISTERS => Some(f),
        _ => None,
    }
}

impl Registers {
    /// Nothing is known before the first place.
    pub(crate) fn new() -> Registers
        ensures last { (r : ℕ) → entry result.last r ≡ None }
        ensures chain { (r : ℕ) → entry result.chain r ≡ None }
        ensures started { (r : ℕ) → entry result.started r ≡ None }
    {
        Registers {
            last: [None; MOST_REGISTERS],
            chain: [None; MOST_REGISTERS],
            started: [None; MOST_REGISTERS],
        }
    }

    /// The last place that defined the register.
    pub(crate) fn last(&self, register: u32) -> Option<u32>
        ensures { result ≡ entry self.now.last register }
    {
        entry_of(&self.last, register)
    }

    /// The first place of the register's chain.
    pub(crate) fn chain(&self, register: u32) -> Option<u32>
        ensures { result ≡ entry self.now.chain register }
    {
        entry_of(&self.chain, register)
    }

    /// The last place that started a thread with the function in the register.
    pub(crate) fn started(&self, register: u32) -> Option<u32>
        ensures { result ≡ entry self.now.started register }
    {
        entry_of(&self.started, register)
    }

    /// The first place of the chain of what an instruction of this role defines.
    fn linked(&self, place: u32, role: Role) -> Option<u32>
        ensures { result ≡ linked self.now.chain place role }
    {
        match role {
            Role::Load { .. } | Role::Slot { .. } => Some(place),
            Role::Cast { a } => self.chain(a),
            _ => None,
        }
    }

    /// Notes that an instruction of this role defines a register.
    fn define(&mut self, place: u32, role: Role, register: u32)
        requires { register < 1024 }
        ensures last { IsEntered self.old.last register (Some place) self.new.last }
        ensures chain { IsEntered self.old.chain register (linked self.old.chain place role) self.new.chain }
        ensures started { self.new.started ≡ self.old.started }
    {
        self.chain[register as usize] = self.linked(place, role);
        self.last[register as usize] = Some(place);
    }

    /// Notes that a thread is started with the function in a register.
    fn start(&mut self, place: u32, register: u32)
        requires { register < 1024 }
        ensures started { IsEntered self.old.started register (Some place) self.new.started }
        ensures last { self.new.last ≡ self.old.last }
        ensures chain { self.new.chain ≡ self.old.chain }
    {
        self.started[register as usize] = Some(place);
    }

    /// Notes what the instruction at a place defines.
    fn pass_definition<I: HasOutline>(&mut self, code: &[I], place: usize, instr: &I)
        requires few { place < 65536 }
        requires known { AreKnown (map I.outline code.now) place self.old }
        requires here { Stands (map I.outline code.now) 0 place (I.outline instr.now) }
        requires defined { IfSome (I.outline instr.now).defined (λ d. d < 1024) }
        ensures defined { AreDefined (map I.outline code.now) (place + 1) self.new }
        ensures started { self.new.started ≡ self.old.started }
    {
        if let Some(register) = instr.defined() {
            self.define(place as u32, instr.role(), register);
        }
    }

    /// Goes past the instruction at a place.
    pub(crate) fn pass<I: HasOutline>(&mut self, code: &[I], place: usize, instr: &I)
        requires few { place < 65536 }
        requires known { AreKnown (map I.outline code.now) place self.old }
        requires here { Stands (map I.outline code.now) 0 place (I.outline instr.now) }
        requires defined { IfSome (I.outline instr.now).defined (λ d. d < 1024) }
        ensures { AreKnown (map I.outline code.now) (place + 1) self.new }
    {
        self.pass_definition(code, place, instr);
        if let Some(register) = started_by(instr.role()) {
            self.start(place as u32, register);
        }
    }
}
