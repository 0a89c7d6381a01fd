//! Why nothing was read.

use std::alloc::AllocError;
use thiserror::Error;

/// Why nothing was read.
#[derive(Clone, Copy, Debug, PartialEq, Eq, Error)]
pub enum Failure {
    /// The tokens begin with nothing of the kind.
    #[error("no such tokens")]
    Mismatch,
    /// No memory was left.
    #[error("out of memory")]
    Memory,
}

impl From<AllocError> for Failure {
    ghost use Rattle.std.specs.Prelude.{◌≡◌};
    ghost use Rattle.c_readers.specs.declared.error.Failure.TheVariants.{Memory};

    ghost from_gives = { λ _ failure. failure ≡ Memory };

    fn from(_error: AllocError) -> Failure {
        Failure::Memory
    }
}
