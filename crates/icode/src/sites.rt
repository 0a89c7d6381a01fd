//! What is known at a place of a function's body.

ghost use Rattle.std.specs.Prelude.{◌≡◌, ◌+◌, ◌<◌, ◌≤◌, ℕ, IfSome, IsTrue, List, length, map, None, Some};
ghost use Rattle.core_ir.specs.Flow.{Stands};
ghost use Rattle.core_ir.specs.Order.{RoleFits};
ghost use Rattle.core_ir.specs.Outline.{Outline};
ghost use Rattle.machine.specs.Stands.{IsOriginOf, IsUnitOf};
ghost use Rattle.machine.specs.Stands as stands;
ghost use Rattle.machine.specs.ValidCode.{CodeLocalsLie, code_local_units};
ghost use Rattle.icode.specs.Sites.{AreLocals, IsSite, KnowsSites, NamesAddress};
ghost use Rattle.icode.specs.inner.Sites.{AreSites, StaysInside};
ghost use Rattle.icode.specs.inner.Sites as spec;

use crate::locals::{MOST_LOCALS, write_units_before};
use crate::site::Site;
use crate::where_read::origin_of;
use core_ir::{HasOutline, Role};
use machine::CodeLocal;
use safe_locals::{LocalAddress, Marks};
use sqlite_items::at;

/// What is known at a place of a function's body. It takes some 120 kilobytes.
#[derive(Drop)]
pub struct Sites {
    pub(crate) marks: Marks,
    /// The units of the safe locals before each local.
    before: [u32; MOST_LOCALS],
}

/// The register with the address of a touch, a load or a store.
fn accessed(role: Role) -> Option<u32>
    ensures { result ≡ stands.accessed role }
{
    match role {
        Role::Touch { p } | Role::Load { p } | Role::Store { p } => Some(p),
        _ => None,
    }
}

/// The unit at an address in a local with so many units before it, if the local is safe.
fn unit_in(local: &CodeLocal, before: u32, address: LocalAddress) -> Option<u32>
    requires few { before ≤ 16384 }
    requires small { local.now.units ≤ 16384 }
    requires inside { spec.IsInsideOf address local.now }
    ensures { result ≡ spec.unit_in address before (Some local.now) }
{
    if !local.safe {
        return None;
    }
    Some(before + address.offset as u32)
}

impl Sites {
    /// What is known at the first place of the body of a function with these locals.
    pub fn new(locals: &[CodeLocal]) -> Sites
        requires lie { CodeLocalsLie 0 locals.now }
        requires few { code_local_units locals.now ≤ 16384 }
        ensures { (code : List Outline) → KnowsSites code locals.now 0 result }
    {
        let mut before = [0; MOST_LOCALS];
        write_units_before(locals, &mut before);
        Sites {
            marks: Marks::new(),
            before,
        }
    }

    /// The unit at an address in a local, if that is safe.
    fn unit_in_local(&self, locals: &[CodeLocal], address: LocalAddress) -> Option<u32>
        requires before { spec.AreBefore locals.now self.now }
        requires room { length locals.now ≤ 16384 }
        requires few { code_local_units locals.now ≤ 16384 }
        requires inside { StaysInside locals.now (Some address) }
        ensures { result ≡ spec.unit_at locals.now (Some address) }
    {
        let number = address.local as usize;
        match at(locals, number) {
            Some(local) => unit_in(local, self.before[number], address),
            None => None,
        }
    }

    /// The unit at an address, if that is in a safe local.
    fn unit_at(&self, locals: &[CodeLocal], address: Option<LocalAddress>) -> Option<u32>
        requires before { spec.AreBefore locals.now self.now }
        requires room { length locals.now ≤ 16384 }
        requires few { code_local_units locals.now ≤ 16384 }
        requires inside { StaysInside locals.now address }
        ensures { result ≡ spec.unit_at locals.now address }
    {
        match address {
            Some(address) => self.unit_in_local(locals, address),
            None => None,
        }
    }

    /// The unit that an instruction accesses at a place, if that is one of a safe local.
    fn unit_of<I: HasOutline>(
        &self,
        code: &[I],
        locals: &[CodeLocal],
        place: usize,
        instr: &I,
    ) -> Option<u32>
        requires known { KnowsSites (map I.outline code.now) locals.now place self.now }
        requires here { Stands (map I.outline code.now) 0 place (I.outline instr.now) }
        requires names { NamesAddress (I.outline instr.now) }
        requires locals { AreLocals (map I.outline code.now) locals.now }
        ensures { let i = I.outline instr.now in
            spec.IsOnlyUnit (map I.outline code.now) locals.now place i.role result }
    {
        match accessed(instr.role()) {
            Some(register) => self.unit_at(locals, self.marks.address(register)),
            None => None,
        }
    }

    /// What stands beside the instruction at a place.
    pub fn at<I: HasOutline>(
        &self,
        code: &[I],
        locals: &[CodeLocal],
        place: usize,
        instr: &I,
    ) -> Site
        requires known { KnowsSites (map I.outline code.now) locals.now place self.now }
        requires here { Stands (map I.outline code.now) 0 place (I.outline instr.now) }
        requires fits { RoleFits (map I.outline code.now) place (I.outline instr.now).role }
        requires names { NamesAddress (I.outline instr.now) }
        requires locals { AreLocals (map I.outline code.now) locals.now }
        ensures { let i = I.outline instr.now in
            IsSite (map I.outline code.now) locals.now place i.role result }
    {
        Site {
            unit: self.unit_of(code, locals, place, instr),
            origin: origin_of(&self.marks, code, place, instr.role()),
        }
    }

    /// Goes past the instruction at a place.
    pub fn pass<I: HasOutline>(&mut self, code: &[I], locals: &[CodeLocal], place: usize, instr: &I)
        requires few { place < 65536 }
        requires known { KnowsSites (map I.outline code.now) locals.now place self.old }
        requires here { Stands (map I.outline code.now) 0 place (I.outline instr.now) }
        requires defined { IfSome (I.outline instr.now).defined (λ d. d < 1024) }
        ensures { KnowsSites (map I.outline code.now) locals.now (place + 1) self.new }
    {
        self.marks.pass(code, place, instr);
    }
}
