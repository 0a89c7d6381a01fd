//! What holds of the constants in typed forms.

ghost use Rattle.c_typed_constants.specs.Theorems.{ConstantsAgree};

/// The constant in the typed form of an expression is what `c_const::constant` answers of the expression: the same value, or
/// that a zero divisor is evaluated, and a value only where there is one.
pub fn constants_agree()
    ensures { ConstantsAgree }
{}
