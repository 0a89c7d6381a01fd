//! What control flow sees of code: the same as of the instruction for which it stands.

ghost use Rattle.std.specs.Prelude.{◌≡◌, ◌<◌, Some, length, slice_get};
ghost use Rattle.machine.specs.Outlines.{outline_of_code};

use crate::code::CodePlace;
use core_ir::{HasOutline, Role};

/// The first or the second of two operands.
fn either(at: usize, first: u32, second: u32) -> u32
    ensures first { at ≡ 0 → result ≡ first }
    ensures second { 0 < at → result ≡ second }
{
    if at == 0 { first } else { second }
}

impl HasOutline for CodePlace {
    ghost outline = { outline_of_code };

    fn role(&self) -> Role {
        match self {
            CodePlace::Const { v, .. } => Role::Const { v: *v },
            CodePlace::AddrL { v, .. } => Role::Local { v: *v },
            CodePlace::GetLocal { s, .. } => Role::Slot { s: *s },
            CodePlace::PtrAdd { p, i, s, .. } => Role::Indexed {
                p: *p,
                i: *i,
                s: *s,
            },
            CodePlace::PtrConst { p, k, .. } => Role::Shifted { p: *p, k: *k },
            CodePlace::Cast { a, .. } => Role::Cast { a: *a },
            CodePlace::Touch { p, .. } => Role::Touch { p: *p },
            CodePlace::Load { p, .. } => Role::Load { p: *p },
            CodePlace::Store { p, .. } => Role::Store { p: *p },
            CodePlace::CallInd { c, .. } => Role::Indirect { c: *c },
            CodePlace::Return { .. } => Role::Return,
            CodePlace::Enter => Role::Enter,
            CodePlace::Leave => Role::Leave,
            CodePlace::Fork { .. } => Role::Fork,
            CodePlace::StartArg { t, .. } => Role::StartArg { t: *t },
            CodePlace::StartFn { t, f } => Role::StartFn { t: *t, f: *f },
            CodePlace::Lock { p } | CodePlace::Unlock { p } => Role::Lock { p: *p },
            _ => Role::Plain,
        }
    }

    fn defined(&self) -> Option<u32> {
        match self {
            CodePlace::Const { d, .. }
            | CodePlace::AddrG { d, .. }
            | CodePlace::AddrL { d, .. }
            | CodePlace::AddrF { d, .. }
            | CodePlace::GetLocal { d, .. }
            | CodePlace::Binary { d, .. }
            | CodePlace::Unary { d, .. }
            | CodePlace::PtrAdd { d, .. }
            | CodePlace::PtrConst { d, .. }
            | CodePlace::Cast { d, .. }
            | CodePlace::Load { d, .. }
            | CodePlace::Malloc { d, .. }
            | CodePlace::Fork { d }
            | CodePlace::Input { d, .. } => Some(*d),
            _ => None,
        }
    }

    fn operands(&self) -> usize {
        match self {
            CodePlace::Call { args, .. } => args.len(),
            CodePlace::CallInd { args, .. } => args.as_slice().len() + 1,
            CodePlace::Binary { .. }
            | CodePlace::PtrAdd { .. }
            | CodePlace::Store { .. }
            | CodePlace::StartArg { .. }
            | CodePlace::StartFn { .. } => 2,
            CodePlace::SetLocal { .. }
            | CodePlace::Unary { .. }
            | CodePlace::PtrConst { .. }
            | CodePlace::Cast { .. }
            | CodePlace::Touch { .. }
            | CodePlace::Load { .. }
            | CodePlace::Branch { .. }
            | CodePlace::Return { a: Some(_) }
            | CodePlace::Malloc { .. }
            | CodePlace::Free { .. }
            | CodePlace::Lock { .. }
            | CodePlace::Unlock { .. }
            | CodePlace::Join { .. }
            | CodePlace::Print { .. }
            | CodePlace::Input { .. } => 1,
            _ => 0,
        }
    }

    fn operand(&self, at: usize) -> u32 {
        match self {
            CodePlace::Call { args, .. } => args.as_slice()[at],
            CodePlace::CallInd { c, args, .. } => {
                if at == 0 { *c } else { args.as_slice()[at - 1] }
            }
            CodePlace::Binary { a, b, .. } => either(at, *a, *b),
            CodePlace::PtrAdd { p, i, .. } => either(at, *p, *i),
            CodePlace::Store { p, a, .. } => either(at, *p, *a),
            CodePlace::StartArg { t, a } => either(at, *t, *a),
            CodePlace::StartFn { t, f } => either(at, *t, *f),
            CodePlace::SetLocal { a, .. }
            | CodePlace::Unary { a, .. }
            | CodePlace::Cast { a, .. }
            | CodePlace::Branch { a, .. }
            | CodePlace::Return { a: Some(a) }
            | CodePlace::Malloc { a, .. }
            | CodePlace::Print { a }
            | CodePlace::Input { a, .. } => *a,
            CodePlace::PtrConst { p, .. }
            | CodePlace::Touch { p, .. }
            | CodePlace::Load { p, .. }
            | CodePlace::Free { p }
            | CodePlace::Lock { p }
            | CodePlace::Unlock { p } => *p,
            CodePlace::Join { t } => *t,
            _ => unreachable!(),
        }
    }

    fn slot(&self) -> Option<u32> {
        match self {
            CodePlace::GetLocal { s, .. } | CodePlace::SetLocal { s, .. } => Some(*s),
            CodePlace::Call { s, .. } | CodePlace::CallInd { s, .. } => *s,
            _ => None,
        }
    }

    fn target(&self) -> Option<u32> {
        match self {
            CodePlace::Jump { l } | CodePlace::Branch { l, .. } => Some(*l),
            _ => None,
        }
    }
}
