use thiserror::Error;

/// Why a type has no units, or a member no offset.
#[derive(Clone, Copy, Debug, PartialEq, Eq, Error)]
pub enum LayoutRefusal {
    /// A `void`, a function, a struct without a body, or an array or a struct with such a part.
    #[error("incomplete")]
    Incomplete,
    /// More than 65,536 units.
    #[error("too large")]
    TooLarge,
}
