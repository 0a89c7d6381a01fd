//! The marks of registers.

ghost use Rattle.std.specs.Prelude.{◌≡◌, ◌↔◌, ◌+◌, ◌<◌, ◌≤◌, ◌^◌, ℕ, ℤ, IfSome, List, Some, length, map, unsigned_abs};
ghost use Rattle.core_ir.specs.Flow.{Chain, Stands};
ghost use Rattle.core_ir.specs.Outline.{Outline};
ghost use Rattle.safe_locals.specs.Known.{HasAddress, IsAddressOf, Knows};
ghost use Rattle.safe_locals.specs.inner.Marks as spec;
ghost use Rattle.safe_locals.specs.inner.Marks.{AreMarks, IsWithin, most_offset};

use crate::mark::Mark;
use core_ir::{HasOutline, Role};

/// As many as a function may have.
pub(crate) const MOST_REGISTERS: usize = 1_024;

/// The address of a frame local and so many units.
#[derive(Clone, Copy, Debug, PartialEq, Eq)]
pub struct LocalAddress {
    pub local: u32,
    pub offset: i128,
}

/// What is known of each register at a place of a body. It takes some 50 kilobytes.
#[derive(Drop)]
pub struct Marks {
    pub(crate) marks: [Mark; MOST_REGISTERS],
}

/// The mark of a register.
pub(crate) fn mark_at(marks: &[Mark], register: u32) -> Mark
    ensures { result ≡ spec.mark_at marks.now register }
{
    match marks.get(register as usize) {
        Some(mark) => *mark,
        None => Mark::Other,
    }
}

/// The mark of an address and so many units.
fn moved(mark: Mark, units: i128, most: u64) -> Mark
    requires within { IsWithin (most_offset most) mark }
    requires few { most < 65536 }
    requires units { unsigned_abs units ≤ 2 ^ 96 }
    ensures value { result ≡ spec.moved mark units }
    ensures within { IsWithin (most_offset (most + 1)) result }
{
    match mark {
        Mark::Address { local, offset } => Mark::Address {
            local,
            offset: offset + units,
        },
        _ => Mark::Other,
    }
}

/// The mark of an address and a number times so many units.
fn moved_by(mark: Mark, number: Mark, units: u32, most: u64) -> Mark
    requires within { IsWithin (most_offset most) mark }
    requires few { most < 65536 }
    ensures value { result ≡ spec.moved_by mark number units }
    ensures within { IsWithin (most_offset (most + 1)) result }
{
    match number {
        Mark::Number(number) => moved(mark, i128::from(number) * i128::from(units), most),
        _ => Mark::Other,
    }
}

/// The mark of what was converted.
fn converted(mark: Mark, most: u64) -> Mark
    ensures value { result ≡ spec.converted mark }
    ensures within { IsWithin (most_offset most) result }
{
    match mark {
        Mark::Read(first) => Mark::Read(first),
        _ => Mark::Other,
    }
}

/// The mark of what an instruction of this role defines at a place.
pub(crate) fn made(marks: &[Mark], role: Role, place: u64) -> Mark
    requires within { (r : ℕ) → IsWithin (most_offset place) (spec.mark_at marks.now r) }
    requires few { place < 65536 }
    ensures value { result ≡ spec.made marks.now place role }
    ensures within { IsWithin (most_offset (place + 1)) result }
{
    match role {
        Role::Const { v } => Mark::Number(v),
        Role::Local { v } => Mark::Address {
            local: v,
            offset: 0,
        },
        Role::Shifted { p, k } => moved(mark_at(marks, p), i128::from(k), place),
        Role::Indexed { p, i, s } => moved_by(mark_at(marks, p), mark_at(marks, i), s, place),
        Role::Load { .. } | Role::Slot { .. } => Mark::Read(place as u32),
        Role::Cast { a } => converted(mark_at(marks, a), place + 1),
        _ => Mark::Other,
    }
}

impl Marks {
    /// Nothing is known before the first place.
    pub fn new() -> Marks
        ensures { (code : List Outline) → Knows code 0 result }
    {
        Marks {
            marks: [Mark::Other; MOST_REGISTERS],
        }
    }

    /// The address of a local that serves a register.
    pub fn address(&self, register: u32) -> Option<LocalAddress>
        ensures { (code : List Outline) (u v : ℕ) (o : ℤ) → Knows code u self.now
            → HasAddress code u register v o ↔ IsAddressOf result v o }
    {
        match mark_at(&self.marks, register) {
            Mark::Address { local, offset } => Some(LocalAddress { local, offset }),
            _ => None,
        }
    }

    /// The first place of the chain that gives a register.
    pub fn first(&self, register: u32) -> Option<u32>
        ensures { (code : List Outline) (u k : ℕ) → Knows code u self.now
            → Chain code 0 u register k ↔ (result ≡ Some k) }
    {
        match mark_at(&self.marks, register) {
            Mark::Read(first) => Some(first),
            _ => None,
        }
    }

    /// Goes past the instruction at a place.
    pub fn pass<I: HasOutline>(&mut self, code: &[I], place: usize, instr: &I)
        requires few { place < 65536 }
        requires known { Knows (map I.outline code.now) place self.old }
        requires here { Stands (map I.outline code.now) 0 place (I.outline instr.now) }
        requires defined { IfSome (I.outline instr.now).defined (λ d. d < 1024) }
        ensures { Knows (map I.outline code.now) (place + 1) self.new }
    {
        if let Some(register) = instr.defined() {
            self.marks[register as usize] = made(&self.marks, instr.role(), place as u64);
        }
    }
}
