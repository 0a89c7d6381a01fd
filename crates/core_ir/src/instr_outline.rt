//! What control flow sees of each instruction.

ghost use Rattle.std.specs.Prelude.{◌≡◌, ◌<◌, Some, length, slice_get};
ghost use Rattle.core_ir.specs.Instructions.{outline_of};

use crate::instr::Instr;
use crate::outline::HasOutline;
use crate::role::Role;

/// The first or the second of two operands.
fn either(at: usize, first: u32, second: u32) -> u32
    ensures first { at ≡ 0 → result ≡ first }
    ensures second { 0 < at → result ≡ second }
{
    if at == 0 { first } else { second }
}

impl HasOutline for Instr {
    ghost outline = { outline_of };

    fn role(&self) -> Role {
        match self {
            Instr::Const { v, .. } => Role::Const { v: *v },
            Instr::AddrL { v, .. } => Role::Local { v: *v },
            Instr::GetLocal { s, .. } => Role::Slot { s: *s },
            Instr::PtrAdd { p, i, s, .. } => Role::Indexed {
                p: *p,
                i: *i,
                s: *s,
            },
            Instr::PtrConst { p, k, .. } => Role::Shifted { p: *p, k: *k },
            Instr::Cast { a, .. } => Role::Cast { a: *a },
            Instr::Touch { p, .. } => Role::Touch { p: *p },
            Instr::Load { p, .. } => Role::Load { p: *p },
            Instr::Store { p, .. } => Role::Store { p: *p },
            Instr::CallInd { c, .. } => Role::Indirect { c: *c },
            Instr::Return { .. } => Role::Return,
            Instr::Enter => Role::Enter,
            Instr::Leave => Role::Leave,
            Instr::Fork { .. } => Role::Fork,
            Instr::StartArg { t, .. } => Role::StartArg { t: *t },
            Instr::StartFn { t, f } => Role::StartFn { t: *t, f: *f },
            Instr::Lock { p } | Instr::Unlock { p } => Role::Lock { p: *p },
            _ => Role::Plain,
        }
    }

    fn defined(&self) -> Option<u32> {
        match self {
            Instr::Const { d, .. }
            | Instr::AddrG { d, .. }
            | Instr::AddrL { d, .. }
            | Instr::AddrF { d, .. }
            | Instr::GetLocal { d, .. }
            | Instr::Binary { d, .. }
            | Instr::Unary { d, .. }
            | Instr::PtrAdd { d, .. }
            | Instr::PtrConst { d, .. }
            | Instr::Cast { d, .. }
            | Instr::Load { d, .. }
            | Instr::Malloc { d, .. }
            | Instr::Fork { d }
            | Instr::Input { d, .. } => Some(*d),
            _ => None,
        }
    }

    fn operands(&self) -> usize {
        match self {
            Instr::Call { args, .. } => args.len(),
            Instr::CallInd { args, .. } => args.as_slice().len() + 1,
            Instr::Binary { .. }
            | Instr::PtrAdd { .. }
            | Instr::Store { .. }
            | Instr::StartArg { .. }
            | Instr::StartFn { .. } => 2,
            Instr::SetLocal { .. }
            | Instr::Unary { .. }
            | Instr::PtrConst { .. }
            | Instr::Cast { .. }
            | Instr::Touch { .. }
            | Instr::Load { .. }
            | Instr::Branch { .. }
            | Instr::Return { a: Some(_) }
            | Instr::Malloc { .. }
            | Instr::Free { .. }
            | Instr::Lock { .. }
            | Instr::Unlock { .. }
            | Instr::Join { .. }
            | Instr::Print { .. }
            | Instr::Input { .. } => 1,
            _ => 0,
        }
    }

    fn operand(&self, at: usize) -> u32 {
        match self {
            Instr::Call { args, .. } => args.as_slice()[at],
            Instr::CallInd { c, args, .. } => { if at == 0 { *c } else { args.as_slice()[at - 1] } }
            Instr::Binary { a, b, .. } => either(at, *a, *b),
            Instr::PtrAdd { p, i, .. } => either(at, *p, *i),
            Instr::Store { p, a, .. } => either(at, *p, *a),
            Instr::StartArg { t, a } => either(at, *t, *a),
            Instr::StartFn { t, f } => either(at, *t, *f),
            Instr::SetLocal { a, .. }
            | Instr::Unary { a, .. }
            | Instr::Cast { a, .. }
            | Instr::Branch { a, .. }
            | Instr::Return { a: Some(a) }
            | Instr::Malloc { a, .. }
            | Instr::Print { a }
            | Instr::Input { a, .. } => *a,
            Instr::PtrConst { p, .. }
            | Instr::Touch { p, .. }
            | Instr::Load { p, .. }
            | Instr::Free { p }
            | Instr::Lock { p }
            | Instr::Unlock { p } => *p,
            Instr::Join { t } => *t,
            _ => unreachable!(),
        }
    }

    fn slot(&self) -> Option<u32> {
        match self {
            Instr::GetLocal { s, .. } | Instr::SetLocal { s, .. } => Some(*s),
            Instr::Call { s, .. } | Instr::CallInd { s, .. } => *s,
            _ => None,
        }
    }

    fn target(&self) -> Option<u32> {
        match self {
            Instr::Jump { l } | Instr::Branch { l, .. } => Some(*l),
            _ => None,
        }
    }
}
