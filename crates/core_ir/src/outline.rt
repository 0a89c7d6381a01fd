//! What control flow sees of an instruction, without types.

ghost use Rattle.std.specs.Prelude.{◌≡◌, ◌<◌, length, Some, slice_get};
ghost use Rattle.core_ir.specs.Outline.{Outline};

use crate::role::Role;

/// An instruction as control flow sees it.
pub trait HasOutline {
    ghost outline: { Self → Outline };

    /// What it is to the rules on order.
    fn role(&self) -> Role
        ensures { result ≡ (outline self.now).role };

    /// The register that it defines.
    fn defined(&self) -> Option<u32>
        ensures { result ≡ (outline self.now).defined };

    /// How many operands are registers that it uses.
    fn operands(&self) -> usize
        ensures { result ≡ length (outline self.now).used };

    /// The register of this operand.
    fn operand(&self, at: usize) -> u32
        requires { at < length (outline self.now).used }
        ensures { slice_get (outline self.now).used at ≡ Some result };

    /// The slot that it reads or writes.
    fn slot(&self) -> Option<u32>
        ensures { result ≡ (outline self.now).slot };

    /// The place to which it may jump.
    fn target(&self) -> Option<u32>
        ensures { result ≡ (outline self.now).target };
}
