// Why there is no program.
ghost use Rattle.std.specs.Prelude.{◌≡◌};
ghost use Rattle.bytecode_format.specs.declared.error.FormatError.TheVariants.{Memory};

use std::alloc::{AllocError, AllocFailed};
use thiserror::Error;

/// Why bytes or parts aren't a program.
#[derive(Debug, Drop, Error)]
pub enum FormatError {
    /// Memory is refused, so there is no result.
    #[error("an allocation was refused")]
    Memory,
    /// The bytes spell no program, or the parts exceed a program's limits.
    #[error("no program is spelled so, or it is beyond the limits")]
    Spelling,
}

impl From<AllocError> for FormatError {
    ghost from_gives = { λ _ e. e ≡ Memory };

    fn from(_refused: AllocError) -> FormatError {
        FormatError::Memory
    }
}

impl<T: Drop> From<AllocFailed<T>> for FormatError {
    ghost from_gives = { λ _ e. e ≡ Memory };

    fn from(_refused: AllocFailed<T>) -> FormatError {
        FormatError::Memory
    }
}
