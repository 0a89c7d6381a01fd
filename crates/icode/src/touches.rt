//! Whether what goes to or comes from the safe store stands behind touches of class Sensitive.

ghost use Rattle.std.specs.Prelude.{◌≡◌, ◌↔◌, None, Some, IsTrue};
ghost use Rattle.machine.specs.Numbers as numbers;
ghost use Rattle.machine.specs.ValidCode.{IsSensitiveTouch, TouchesAreSensitive};
ghost use Rattle.machine.specs.ValidCode as spec;
ghost use Rattle.machine.specs.declared.code.ScalarKind.{ScalarKind};

use machine::{CodePlace, ScalarKind};
use sensitivity::Class;

/// Whether values of this kind stand in the safe store.
fn is_kept(kind: ScalarKind) -> bool
    ensures { result ≡ numbers.is_kept kind }
{
    matches!(kind, ScalarKind::Code | ScalarKind::Protected)
}

/// The kind of an access's value.
fn access_kind(instr: &CodePlace) -> Option<ScalarKind>
    ensures { result ≡ spec.access_kind instr.now }
{
    match instr {
        CodePlace::Load { kind, .. } | CodePlace::Store { kind, .. } => Some(*kind),
        _ => None,
    }
}

/// Whether it is a touch of class Sensitive.
fn is_sensitive_touch(instr: &CodePlace) -> bool
    ensures { IsTrue result ↔ IsSensitiveTouch instr.now }
{
    matches!(
        instr,
        CodePlace::Touch {
            class: Class::Sensitive,
            ..
        }
    )
}

/// Whether an instruction is such a touch, if the one behind it accesses the safe store.
fn touch_fits(touch: &CodePlace, access: &CodePlace) -> bool
    ensures { IsTrue result ↔ ((kind : ScalarKind) → spec.access_kind access.now ≡ Some kind
        → IsTrue (numbers.is_kept kind) → IsSensitiveTouch touch.now) }
{
    match access_kind(access) {
        Some(kind) => !is_kept(kind) || is_sensitive_touch(touch),
        None => true,
    }
}

/// Whether that holds of each instruction of a body, and the one behind it.
pub(crate) fn touches_are_sensitive(body: &[CodePlace]) -> bool
    ensures { IsTrue result ↔ TouchesAreSensitive body.now }
{
    for place in 1..body.len() {
        if !touch_fits(&body[place - 1], &body[place]) {
            return false;
        }
    }
    true
}
