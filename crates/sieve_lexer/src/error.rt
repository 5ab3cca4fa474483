// Why a script has no list of tokens.
ghost use Rattle.std.specs.Prelude.{◌≡◌};
ghost use Rattle.sieve_lexer.specs.declared.error.LexicalError.TheVariants.{Memory};

use std::alloc::{AllocError, AllocFailed};
use thiserror::Error;

/// Why a script has no list of tokens. [`crate::tokens`] returns it.
#[derive(Debug, Drop, Error)]
pub enum LexicalError {
    /// Memory is refused, so there is no result.
    #[error("an allocation was refused")]
    Memory,
    /// The script has more than [`MAX_SCRIPT`](crate::MAX_SCRIPT) bytes.
    #[error("the script is longer than a script may be")]
    ScriptTooLong,
    /// Neither a token nor white space nor a comment begins at this byte, counted from 0.
    #[error("no token begins at octet {place}")]
    Lexical { place: usize },
}

impl From<AllocError> for LexicalError {
    ghost from_gives = { λ _ e. e ≡ Memory };

    fn from(_: AllocError) -> LexicalError {
        LexicalError::Memory
    }
}

impl<T: Drop> From<AllocFailed<T>> for LexicalError {
    ghost from_gives = { λ _ e. e ≡ Memory };

    fn from(_: AllocFailed<T>) -> LexicalError {
        LexicalError::Memory
    }
}
