// Why there is no program.
ghost use Rattle.std.specs.Prelude.{◌≡◌};
ghost use Rattle.bytecode_listing.specs.declared.error.ReadError.TheVariants.{Memory};

use refusals::FaultKind;
use std::alloc::{AllocError, AllocFailed};
use thiserror::Error;

/// Why a listing isn't a program. [`crate::assemble`] returns it.
#[derive(Debug, Drop, Error)]
pub enum ListingError {
    /// Memory is refused, so there is no result.
    #[error("an allocation was refused")]
    Memory,
    /// The first fault of the listing. If the program exceeds the limits of programs, the place is the listing's end.
    #[error("fault at octet {place}")]
    Fault {
        /// How many bytes of the listing come before the fault.
        place: usize,
        /// What is wrong there.
        kind: FaultKind,
    },
}

/// Why reading ends: memory is refused, or what begins with so many bytes left isn't allowed there.
#[derive(Drop)]
pub enum ReadError {
    Memory,
    At(usize),
}

impl From<AllocError> for ReadError {
    ghost from_gives = { λ _ e. e ≡ Memory };

    fn from(_refused: AllocError) -> ReadError {
        ReadError::Memory
    }
}

impl<T: Drop> From<AllocFailed<T>> for ReadError {
    ghost from_gives = { λ _ e. e ≡ Memory };

    fn from(_refused: AllocFailed<T>) -> ReadError {
        ReadError::Memory
    }
}
