ghost use Rattle.std.specs.Prelude.{◌≡◌};
ghost use Rattle.lanes_base32.specs.declared.error.Refusal.TheVariants.{Memory};

use std::alloc::AllocError;
use thiserror::Error;

/// Why a text isn't decoded.
#[derive(Debug, Drop, PartialEq, Eq, Error)]
pub enum Refusal {
    /// Memory is refused, so there is no result.
    #[error("an allocation was refused")]
    Memory,
    /// The text isn't one that the encoder writes.
    #[error("the text isn't one that the encoder writes")]
    NotCanonical,
}

impl From<AllocError> for Refusal {
    ghost from_gives = { λ _ e. e ≡ Memory };

    fn from(_error: AllocError) -> Self {
        Refusal::Memory
    }
}
