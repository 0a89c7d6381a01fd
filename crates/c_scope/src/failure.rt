//! Why a walk ends.

ghost use Rattle.std.specs.Prelude.{◌≡◌, IfOk, IfErr, IsTrue, IsFalse, Some, None};
ghost use Rattle.c_scope.specs.declared.failure.Failure.TheVariants as failed;

use crate::rule::Rule;
use std::alloc::AllocError;

/// Why a walk ends.
#[derive(Clone, Copy, Debug, PartialEq, Eq)]
pub enum Failure {
    /// At the first rule that is broken.
    Broken(Rule),
    /// No memory is left. What is known is then between two places, and isn't used again.
    Memory,
}

impl From<AllocError> for Failure {
    ghost use Rattle.std.specs.Prelude.{◌≡◌};
    ghost use Rattle.c_scope.specs.declared.failure.Failure.TheVariants.{Memory};

    ghost from_gives = { λ _ failure. failure ≡ Memory };

    fn from(_error: AllocError) -> Failure {
        Failure::Memory
    }
}

/// The rule holds exactly where the test does.
///
/// # Errors
///
/// `Broken`, exactly where it doesn't.
pub fn test(rule: Rule, holds: bool) -> Result<(), Failure>
    ensures held { IfOk result (λ _. IsTrue holds) }
    ensures broken { IfErr result (λ failure. (failure ≡ failed.Broken rule) × IsFalse holds) }
{
    if holds {
        Ok(())
    } else {
        Err(Failure::Broken(rule))
    }
}

/// What is found, or the rule is broken.
///
/// # Errors
///
/// `Broken`, exactly where nothing is found.
pub fn found<T: Drop>(rule: Rule, thing: Option<T>) -> Result<T, Failure>
    ensures ok { IfOk result (λ it. thing ≡ Some it) }
    ensures broken { IfErr result (λ failure. (failure ≡ failed.Broken rule) × (thing ≡ None)) }
{
    match thing {
        Some(thing) => Ok(thing),
        None => Err(Failure::Broken(rule)),
    }
}
