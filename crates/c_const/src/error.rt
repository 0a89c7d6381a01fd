//! Why an expression has no constant value.

use std::alloc::AllocError;

/// Why an expression has no constant value. The first cause in source order decides, operands
/// before their operator.
#[derive(Debug, Drop)]
pub enum ConstRefusal {
    /// A form that no integer constant expression has, evaluated or not.
    NotConstant,
    /// A zero divisor that is evaluated.
    Divide,
    /// No memory is left.
    Memory,
}

impl From<AllocError> for ConstRefusal {
    ghost use Rattle.std.specs.Prelude.{◌≡◌};
    ghost use Rattle.c_const.specs.declared.error.ConstRefusal.TheVariants.{Memory};

    ghost from_gives = { λ _ refusal. refusal ≡ Memory };

    fn from(_error: AllocError) -> ConstRefusal {
        ConstRefusal::Memory
    }
}
