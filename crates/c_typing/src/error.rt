//! Why a source has no typed form.

use std::alloc::AllocError;
use thiserror::Error;

/// Why a source has no typed form.
#[derive(Clone, Copy, Debug, PartialEq, Eq, Error)]
pub enum CheckRefusal {
    /// The first rule that is broken, from 1 to 18, and its item, from 0.
    #[error("type {item} {rule}")]
    Rule { item: u32, rule: u8 },
    /// No memory was left.
    #[error("out of memory")]
    Memory,
}

impl From<AllocError> for CheckRefusal {
    ghost use Rattle.std.specs.Prelude.{◌≡◌};
    ghost use Rattle.c_typing.specs.declared.error.CheckRefusal.TheVariants.{Memory};

    ghost from_gives = { λ _ refusal. refusal ≡ Memory };

    fn from(_error: AllocError) -> CheckRefusal {
        CheckRefusal::Memory
    }
}
