//! Whether the instructions of a body stand in the order that they ask for.

ghost use Rattle.std.specs.Prelude.{◌≡◌, ◌≢◌, ◌+◌, ◌<◌, ◌≤◌, ◌↔◌, ℕ, None, Some, IfSome, IsTrue, length, map};
ghost use Rattle.core_ir.specs.Outline.{Outline};
ghost use Rattle.core_ir.specs.Flow.{HasRole, IsAmong, IsKept, IsUnreached, Stands};
ghost use Rattle.core_ir.specs.Order.{Behind, Chained, EndsWith, InStart, IsFresh, IsOrdered, IsOrderedAt, IsStart, RoleFits, Served};
ghost use Rattle.core_ir.specs.inner.Found.{AreStarting, DefinesBelow, defined_in, role_in};
ghost use Rattle.core_ir.specs.inner.Jumps.{AreOf};
ghost use Rattle.core_ir.specs.inner.Registers.{AreKnown, Defines};

use crate::jumps::Jumps;
use crate::numbers::is_below;
use crate::outline::HasOutline;
use crate::registers::Registers;
use crate::role::{Role, is_return};

/// The role of the instruction at a place.
pub(crate) fn role_at<I: HasOutline>(code: &[I], place: usize) -> Option<Role>
    ensures { result ≡ role_in (map I.outline code.now) place }
{
    Some(code.get(place)?.role())
}

/// The register that the instruction at a place defines.
fn defined_at<I: HasOutline>(code: &[I], place: usize) -> Option<u32>
    ensures { result ≡ defined_in (map I.outline code.now) place }
{
    code.get(place)?.defined()
}

/// Whether the register is served at the place, and no jump from elsewhere comes between.
fn is_served<I: HasOutline>(
    code: &[I],
    jumps: &Jumps,
    registers: &Registers,
    place: usize,
    register: u32,
) -> bool
    requires jumps { AreOf (map I.outline code.now) jumps.now }
    requires known { AreKnown (map I.outline code.now) place registers.now }
    requires inside { place < length code.now }
    ensures { IsTrue result ↔ Served (map I.outline code.now) place register }
{
    match registers.last(register) {
        Some(server) => jumps.is_unbroken(code, server, place),
        None => false,
    }
}

/// Whether that holds of each register that the instruction at the place uses.
fn are_served<I: HasOutline>(
    code: &[I],
    jumps: &Jumps,
    registers: &Registers,
    place: usize,
    instr: &I,
) -> bool
    requires jumps { AreOf (map I.outline code.now) jumps.now }
    requires known { AreKnown (map I.outline code.now) place registers.now }
    requires inside { place < length code.now }
    ensures { IsTrue result
        ↔ ((r : ℕ) → IsAmong (I.outline instr.now).used r → Served (map I.outline code.now) place r) }
{
    for operand in 0..instr.operands() {
        if !is_served(code, jumps, registers, place, instr.operand(operand)) {
            return false;
        }
    }
    true
}

/// Whether the instruction at a place defines the register.
fn defines<I: HasOutline>(code: &[I], place: usize, register: u32) -> bool
    ensures { IsTrue result ↔ (defined_in (map I.outline code.now) place ≡ Some register) }
{
    match defined_at(code, place) {
        Some(defined) => defined == register,
        None => false,
    }
}

/// Whether the address of a load at the first place stays in its register up to this place.
fn is_kept<I: HasOutline>(code: &[I], registers: &Registers, first: u32, place: usize) -> bool
    requires known { AreKnown (map I.outline code.now) place registers.now }
    requires before { first < place }
    ensures { let code = map I.outline code.now in
        IsTrue result ↔ ((p : ℕ) → HasRole code 0 first (Role.Load p) → IsKept code 0 first place p) }
{
    match role_at(code, first as usize) {
        Some(Role::Load { p }) => { is_below(registers.last(p), first) && !defines(code, place, p) }
        _ => true,
    }
}

/// Whether the register has a chain at this place.
fn is_chained<I: HasOutline>(code: &[I], registers: &Registers, place: usize, register: u32) -> bool
    requires known { AreKnown (map I.outline code.now) place registers.now }
    ensures { IsTrue result ↔ Chained (map I.outline code.now) place register }
{
    match registers.chain(register) {
        Some(first) => is_kept(code, registers, first, place),
        None => false,
    }
}

/// Whether the instruction directly before a place tests this address, and no jump leads to the place.
fn is_touched<I: HasOutline>(code: &[I], jumps: &Jumps, place: usize, address: u32) -> bool
    requires jumps { AreOf (map I.outline code.now) jumps.now }
    requires inside { place < length code.now }
    ensures { IsTrue result ↔ Behind (map I.outline code.now) place (Role.Touch address) }
{
    if place == 0 || !jumps.is_unreached(code, place) {
        return false;
    }
    match role_at(code, place - 1) {
        Some(Role::Touch { p }) => p == address,
        _ => false,
    }
}

/// The roles of three instructions that start a thread, in order, where the first defines a register.
fn are_starting(first: Role, second: Role, third: Role, defined: Option<u32>) -> bool
    ensures { IsTrue result ↔ AreStarting first second third defined }
{
    match (first, second, third, defined) {
        (Role::Fork, Role::StartArg { t }, Role::StartFn { t: thread, .. }, Some(number)) => {
            t == number && thread == number
        }
        _ => false,
    }
}

/// Whether the run of three instructions that starts a thread stands from this place on.
fn is_start<I: HasOutline>(code: &[I], jumps: &Jumps, first: usize) -> bool
    requires jumps { AreOf (map I.outline code.now) jumps.now }
    requires few { first < 65536 }
    ensures { IsTrue result ↔ ((t f : ℕ) × IsStart (map I.outline code.now) first t f) }
{
    let (Some(number), Some(argument), Some(function)) = (
        role_at(code, first),
        role_at(code, first + 1),
        role_at(code, first + 2),
    ) else {
        return false;
    };
    if !are_starting(number, argument, function, defined_at(code, first)) {
        return false;
    }
    if !jumps.is_unreached(code, first + 1) {
        return false;
    }
    jumps.is_unreached(code, first + 2)
}

/// Whether the place stands so many places behind the first of such a run.
fn is_in_start<I: HasOutline>(code: &[I], jumps: &Jumps, place: usize, behind: usize) -> bool
    requires jumps { AreOf (map I.outline code.now) jumps.now }
    requires few { place < 65536 }
    ensures { IsTrue result ↔ InStart (map I.outline code.now) place behind }
{
    place >= behind && is_start(code, jumps, place - behind)
}

/// Whether the instruction at a place makes a new thread's number.
fn is_fork<I: HasOutline>(code: &[I], place: usize) -> bool
    ensures { IsTrue result ↔ HasRole (map I.outline code.now) 0 place Role.Fork }
{
    matches!(role_at(code, place), Some(Role::Fork))
}

/// Whether what serves the register is no thread's number, and served no earlier start as its function.
fn is_fresh<I: HasOutline>(code: &[I], registers: &Registers, place: usize, function: u32) -> bool
    requires few { place < 65536 }
    requires known { AreKnown (map I.outline code.now) place registers.now }
    ensures { IsTrue result ↔ IsFresh (map I.outline code.now) place function }
{
    match registers.last(function) {
        Some(server) => {
            !is_fork(code, server as usize) && is_below(registers.started(function), server + 1)
        }
        None => true,
    }
}

/// Whether an instruction of this role may stand at the place.
fn fits_role<I: HasOutline>(
    code: &[I],
    jumps: &Jumps,
    registers: &Registers,
    place: usize,
    role: Role,
) -> bool
    requires jumps { AreOf (map I.outline code.now) jumps.now }
    requires known { AreKnown (map I.outline code.now) place registers.now }
    requires inside { place < length code.now }
    requires few { place < 65536 }
    ensures { IsTrue result ↔ RoleFits (map I.outline code.now) place role }
{
    match role {
        Role::Indirect { c } => is_chained(code, registers, place, c),
        Role::StartArg { .. } => is_in_start(code, jumps, place, 1),
        Role::StartFn { f, .. } => {
            is_in_start(code, jumps, place, 2) && is_fresh(code, registers, place, f)
        }
        Role::Load { p } | Role::Store { p } | Role::Lock { p } => {
            is_touched(code, jumps, place, p)
        }
        _ => true,
    }
}

/// Whether the instruction at a place has there what it asks for.
fn is_ordered_at<I: HasOutline>(
    code: &[I],
    jumps: &Jumps,
    registers: &Registers,
    place: usize,
    instr: &I,
) -> bool
    requires jumps { AreOf (map I.outline code.now) jumps.now }
    requires known { AreKnown (map I.outline code.now) place registers.now }
    requires inside { place < length code.now }
    requires few { place < 65536 }
    ensures { IsTrue result ↔ IsOrderedAt (map I.outline code.now) place (I.outline instr.now) }
{
    if !are_served(code, jumps, registers, place, instr) {
        return false;
    }
    fits_role(code, jumps, registers, place, instr.role())
}

/// Whether each instruction has what it asks for, in one pass.
fn are_ordered<I: HasOutline>(code: &[I], jumps: &Jumps) -> bool
    requires jumps { AreOf (map I.outline code.now) jumps.now }
    requires defined { DefinesBelow 1024 (map I.outline code.now) }
    ensures { let code = map I.outline code.now in
        IsTrue result ↔ ((u : ℕ) (i : Outline) → Stands code 0 u i → IsOrderedAt code u i) }
{
    let mut registers = Registers::new();
    for (place, instr) in code.iter().enumerate() {
        if !is_ordered_at(code, jumps, &registers, place, instr) {
            return false;
        }
        registers.pass(code, place, instr);
    }
    true
}

/// Whether the last instruction returns.
fn ends_with_return<I: HasOutline>(code: &[I]) -> bool
    ensures { IsTrue result ↔ EndsWith (map I.outline code.now) Role.Return }
{
    if code.is_empty() {
        return false;
    }
    is_return(role_at(code, code.len() - 1))
}

/// Whether a body has the order that its instructions ask for.
pub(crate) fn is_ordered<I: HasOutline>(code: &[I], jumps: &Jumps) -> bool
    requires jumps { AreOf (map I.outline code.now) jumps.now }
    requires defined { DefinesBelow 1024 (map I.outline code.now) }
    ensures { IsTrue result ↔ IsOrdered (map I.outline code.now) }
{
    if !ends_with_return(code) {
        return false;
    }
    are_ordered(code, jumps)
}
