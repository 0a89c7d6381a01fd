//! Why tokens are no source.

use std::alloc::AllocError;
use thiserror::Error;

/// Why the tokens are no source.
#[derive(Clone, Copy, Debug, PartialEq, Eq, Error)]
pub enum ParseRefusal {
    /// Behind this many items tokens are left, and no item begins them.
    #[error("syntax {item}")]
    Syntax { item: u32 },
    /// No memory was left.
    #[error("out of memory")]
    Memory,
}

impl From<AllocError> for ParseRefusal {
    ghost use Rattle.std.specs.Prelude.{◌≡◌};
    ghost use Rattle.c_parser.specs.declared.error.ParseRefusal.TheVariants.{Memory};

    ghost from_gives = { λ _ refusal. refusal ≡ Memory };

    fn from(_error: AllocError) -> ParseRefusal {
        ParseRefusal::Memory
    }
}
