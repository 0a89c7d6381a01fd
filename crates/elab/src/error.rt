//! Why a source has no program.

use elab_emit::Trouble;
use elab_pieces::LimitName;
use std::alloc::AllocError;
use thiserror::Error;

/// Why a source has no program.
#[derive(Clone, Copy, Debug, PartialEq, Eq, Error)]
pub enum ElabRefusal {
    /// The first limit that its program passes.
    #[error("limit {which}")]
    Limit { which: LimitName },
    /// No memory was left.
    #[error("out of memory")]
    Memory,
}

impl From<AllocError> for ElabRefusal {
    ghost use Rattle.std.specs.Prelude.{◌≡◌};
    ghost use Rattle.elab.specs.declared.error.ElabRefusal.TheVariants.{Memory};

    ghost from_gives = { λ _ refusal. refusal ≡ Memory };

    fn from(_error: AllocError) -> ElabRefusal {
        ElabRefusal::Memory
    }
}

impl From<Trouble> for ElabRefusal {
    ghost use Rattle.std.specs.Prelude.{◌≡◌};
    ghost use Rattle.elab.specs.Refusals.{refusal_of};

    ghost from_gives = { λ trouble refusal. refusal ≡ refusal_of trouble };

    fn from(trouble: Trouble) -> ElabRefusal {
        match trouble {
            Trouble::TooLong => ElabRefusal::Limit {
                which: LimitName::Code,
            },
            Trouble::Memory => ElabRefusal::Memory,
        }
    }
}
