//! The rows that emit a few instructions, of values that registers have already.

ghost use Rattle.std.specs.Prelude.{◌≡◌, ◌+◌, pos};
ghost use Rattle.c_types.specs.declared.ty.Ty.{out-Ty};
ghost use Rattle.elab_rows.specs.Addresses as address;
ghost use Rattle.elab_rows.specs.Calls as calls;
ghost use Rattle.elab_emit.specs.Emits.{IsSound, Outcome, code_of};
ghost use Rattle.elab_rows.specs.Made as made;
ghost use Rattle.elab_rows.specs.Made.{held};
ghost use Rattle.elab_rows.specs.Rows as spec;
ghost use Rattle.elab_rows.specs.Units.{units as unit_count};
ghost use Rattle.elab_rows.specs.Values as values;
ghost use Rattle.elab_emit.specs.Held.{from_root};

use crate::emitter::{Emitter, Trouble, give, put};
use crate::sizes::units;
use crate::types::innermost;
use c_tree::BinaryOperator;
use c_types::{Ty, copy_type, same};
use core_ir::{Instr, Operator};
use elab_rows::{Last, Named, Scope};
use shared::Shared;

/// A number.
pub fn number(out: &mut Emitter, v: i64) -> Result<u32, Trouble>
    requires { IsSound out.old }
    ensures made { Outcome out.old (code_of out.old (spec.number v)) result out.new }
    ensures sound { IsSound out.new }
{
    let d = out.register;
    give(out, Instr::Const { d, v })
}

/// The units of a type as a number.
pub fn size(out: &mut Emitter, scope: &Scope, ty: &Ty) -> Result<u32, Trouble>
    requires { IsSound out.old }
    ensures made { Outcome out.old (code_of out.old (spec.number (pos (unit_count scope.now.structs ty.now)))) result out.new }
    ensures sound { IsSound out.new }
{
    let n = units(scope, ty)?;
    number(out, i64::from(n))
}

/// The address of a global.
pub fn global(out: &mut Emitter, g: u32) -> Result<u32, Trouble>
    requires { IsSound out.old }
    ensures made { Outcome out.old (code_of out.old (address.global_address g)) result out.new }
    ensures sound { IsSound out.new }
{
    let d = out.register;
    give(out, Instr::AddrG { d, g })
}

/// The address of a frame local.
pub fn frame_local(out: &mut Emitter, v: u32) -> Result<u32, Trouble>
    requires { IsSound out.old }
    ensures made { Outcome out.old (code_of out.old (address.local_address v)) result out.new }
    ensures sound { IsSound out.new }
{
    let d = out.register;
    give(out, Instr::AddrL { d, v })
}

/// A function. `Memory`, where its number is above 32 bits.
pub fn function(out: &mut Emitter, f: usize) -> Result<u32, Trouble>
    requires { IsSound out.old }
    ensures made { Outcome out.old (code_of out.old (spec.function_name f)) result out.new }
    ensures sound { IsSound out.new }
{
    if f > u32::MAX as usize {
        return Err(Trouble::Memory);
    }
    let d = out.register;
    give(out, Instr::AddrF { d, f: f as u32 })
}

/// The value of a slot.
pub fn slot(out: &mut Emitter, s: u32) -> Result<u32, Trouble>
    requires { IsSound out.old }
    ensures made { Outcome out.old (code_of out.old (spec.slot_value s)) result out.new }
    ensures sound { IsSound out.new }
{
    let d = out.register;
    give(out, Instr::GetLocal { d, s })
}

/// A register's value becomes a slot's.
pub fn set_slot(out: &mut Emitter, s: u32, a: u32) -> Result<u32, Trouble>
    requires { IsSound out.old }
    ensures made { Outcome out.old (code_of out.old (address.slot_assigned s (held a))) result out.new }
    ensures sound { IsSound out.new }
{
    put(out, Instr::SetLocal { s, a })?;
    Ok(a)
}

/// A conversion, where the types aren't the same.
pub fn convert(out: &mut Emitter, a: u32, from: &Ty, to: &Ty) -> Result<u32, Trouble>
    requires { IsSound out.old }
    ensures made { Outcome out.old (code_of out.old (made.converted from.now to.now (held a))) result out.new }
    ensures sound { IsSound out.new }
{
    if same(from, to) {
        return Ok(a);
    }
    let from = copy_type(from)?;
    let to = copy_type(to)?;
    let d = out.register;
    give(out, Instr::Cast { d, a, from, to })
}

/// The value at an address, through this root.
pub fn load(out: &mut Emitter, root: Ty, ty: &Ty, p: u32) -> Result<u32, Trouble>
    requires { IsSound out.old }
    ensures made { Outcome out.old (code_of out.old (address.loaded (from_root ty.now root (held p)))) result out.new }
    ensures sound { IsSound out.new }
{
    let ty = copy_type(ty)?;
    put(out, Instr::Touch { p, ty: root })?;
    let d = out.register;
    give(out, Instr::Load { d, p, ty })
}

/// An address as a pointer to this type, where it points to the root.
pub fn point(out: &mut Emitter, root: Ty, target: &Ty, a: u32) -> Result<u32, Trouble>
    requires { IsSound out.old }
    ensures made { Outcome out.old (code_of out.old (address.pointing root target.now (held a))) result out.new }
    ensures sound { IsSound out.new }
{
    if same(innermost(&root), innermost(target)) {
        return Ok(a);
    }
    let alloc = out.alloc;
    let target = copy_type(target)?;
    let from = Ty::Pointer(Shared::new(alloc, root)?);
    let to = Ty::Pointer(Shared::new(alloc, target)?);
    let d = out.register;
    give(out, Instr::Cast { d, a, from, to })
}

/// The value of an lvalue of this type at an address; of a struct the address.
pub fn value_at(out: &mut Emitter, root: Ty, ty: &Ty, p: u32) -> Result<u32, Trouble>
    requires { IsSound out.old }
    ensures made { Outcome out.old (code_of out.old (address.lvalue_value (from_root ty.now root (held p)))) result out.new }
    ensures sound { IsSound out.new }
{
    match ty {
        Ty::Array(element, _) => point(out, root, element.get(), p),
        Ty::Struct(_) => Ok(p),
        _ => load(out, root, ty, p),
    }
}

/// The value at an address, where the root is of this type too.
pub fn whole_value(out: &mut Emitter, ty: &Ty, p: u32) -> Result<u32, Trouble>
    requires { IsSound out.old }
    ensures made { Outcome out.old (code_of out.old (address.lvalue_value (from_root ty.now ty.now (held p)))) result out.new }
    ensures sound { IsSound out.new }
{
    let root = copy_type(ty)?;
    value_at(out, root, ty, p)
}

/// A value is stored at an address.
pub fn store(out: &mut Emitter, root: Ty, ty: &Ty, p: u32, a: u32) -> Result<u32, Trouble>
    requires { IsSound out.old }
    ensures made { Outcome out.old (address.restored_made root ty.now p (code_of out.old (held a))) result out.new }
    ensures sound { IsSound out.new }
{
    let ty = copy_type(ty)?;
    let touch = Instr::Touch { p, ty: root };
    put(out, touch)?;
    put(out, Instr::Store { p, a, ty })?;
    Ok(a)
}

/// An operator of two values.
fn binary(out: &mut Emitter, op: Operator, a: u32, b: u32) -> Result<u32, Trouble>
    requires { IsSound out.old }
    ensures made { Outcome out.old (code_of out.old (spec.binary_code op (held a) (held b))) result out.new }
    ensures sound { IsSound out.new }
{
    let d = out.register;
    give(out, Instr::Binary { d, op, a, b })
}

/// An operator of one value.
pub fn unary(out: &mut Emitter, op: Operator, a: u32) -> Result<u32, Trouble>
    requires { IsSound out.old }
    ensures made { Outcome out.old (code_of out.old (spec.unary_code op (held a))) result out.new }
    ensures sound { IsSound out.new }
{
    let d = out.register;
    give(out, Instr::Unary { d, op, a })
}

/// A pointer and so many times this many units.
pub fn add_units(out: &mut Emitter, p: u32, i: u32, s: u32) -> Result<u32, Trouble>
    requires { IsSound out.old }
    ensures made { Outcome out.old (code_of out.old (spec.pointer_plus s (held p) (held i))) result out.new }
    ensures sound { IsSound out.new }
{
    let d = out.register;
    give(out, Instr::PtrAdd { d, p, i, s })
}

/// An address and this many units.
pub fn member_at(out: &mut Emitter, p: u32, k: u32) -> Result<u32, Trouble>
    requires { IsSound out.old }
    ensures made { Outcome out.old (code_of out.old (address.member_address k (held p))) result out.new }
    ensures sound { IsSound out.new }
{
    let d = out.register;
    give(out, Instr::PtrConst { d, p, k })
}

/// A difference of pointers by the units of their target.
fn difference_of(out: &mut Emitter, n: u32, p: u32, q: u32) -> Result<u32, Trouble>
    requires { IsSound out.old }
    ensures made { Outcome out.old (code_of out.old (spec.pointer_difference n (held p) (held q))) result out.new }
    ensures sound { IsSound out.new }
{
    let units = binary(out, Operator::Subtract, p, q)?;
    let size = number(out, i64::from(n))?;
    binary(out, Operator::Divide, units, size)
}

/// A pointer less so many times this many units.
fn subtract_units(out: &mut Emitter, p: u32, i: u32, s: u32) -> Result<u32, Trouble>
    requires { IsSound out.old }
    ensures made { Outcome out.old (code_of out.old (spec.pointer_minus s (held p) (held i))) result out.new }
    ensures sound { IsSound out.new }
{
    let i = unary(out, Operator::Subtract, i)?;
    add_units(out, p, i, s)
}

/// What stands behind the operands of an operator.
pub fn finish_operation(out: &mut Emitter, last: Last, a: u32, b: u32) -> Result<u32, Trouble>
    requires { IsSound out.old }
    ensures made { Outcome out.old (code_of out.old (spec.last_code last (held a) (held b))) result out.new }
    ensures sound { IsSound out.new }
{
    match last {
        Last::Binary(operator) => binary(out, operator, a, b),
        Last::PointerPlus(n) => add_units(out, a, b, n),
        Last::PlusPointer(n) => add_units(out, b, a, n),
        Last::PointerMinus(n) => subtract_units(out, a, b, n),
        Last::PointerDifference(n) => difference_of(out, n, a, b),
    }
}

/// The operator of Core for one of the language.
pub fn operator_of(operator: BinaryOperator) -> Operator
    ensures { result ≡ spec.operator_of operator }
{
    match operator {
        BinaryOperator::BitwiseOr => Operator::BitwiseOr,
        BinaryOperator::BitwiseExclusiveOr => Operator::BitwiseExclusiveOr,
        BinaryOperator::BitwiseAnd => Operator::BitwiseAnd,
        BinaryOperator::Equal => Operator::Equal,
        BinaryOperator::NotEqual => Operator::NotEqual,
        BinaryOperator::Less => Operator::Less,
        BinaryOperator::Greater => Operator::Greater,
        BinaryOperator::LessEqual => Operator::LessEqual,
        BinaryOperator::GreaterEqual => Operator::GreaterEqual,
        BinaryOperator::ShiftLeft => Operator::ShiftLeft,
        BinaryOperator::ShiftRight => Operator::ShiftRight,
        BinaryOperator::Add => Operator::Add,
        BinaryOperator::Subtract => Operator::Subtract,
        BinaryOperator::Multiply => Operator::Multiply,
        BinaryOperator::Divide => Operator::Divide,
        BinaryOperator::Remainder => Operator::Remainder,
        BinaryOperator::LogicalOr | BinaryOperator::LogicalAnd => Operator::Not,
    }
}

/// The address of a string. `Memory`, where its number is above 32 bits.
pub fn string(out: &mut Emitter, scope: &Scope, n: u32) -> Result<u32, Trouble>
    requires { IsSound out.old }
    ensures made { Outcome out.old (code_of out.old (spec.string (scope.now.first_string + n))) result out.new }
    ensures sound { IsSound out.new }
{
    match scope.first_string.checked_add(n) {
        Some(g) => global(out, g),
        None => Err(Trouble::Memory),
    }
}

/// The address of a variable; of any other name any register.
pub fn name_address(out: &mut Emitter, name: Named) -> Result<u32, Trouble>
    requires { IsSound out.old }
    ensures made { Outcome out.old (code_of out.old (values.name_address name)) result out.new }
    ensures sound { IsSound out.new }
{
    match name {
        Named::Global(g) => global(out, g),
        Named::Frame(v) => frame_local(out, v),
        _ => Ok(0),
    }
}
