// Why a script isn't parsed.
ghost use Rattle.std.specs.Prelude.{◌≡◌};
ghost use Rattle.sieve_parser.specs.Refusals.{parse_error};
ghost use Rattle.sieve_parser.specs.declared.error.ParseError.TheVariants.{Memory};

use sieve_lexer::LexicalError;
use std::alloc::{AllocError, AllocFailed};
use thiserror::Error;

/// Why a script isn't parsed. [`crate::parse`] returns it.
#[derive(Debug, Drop, Error)]
pub enum ParseError {
    /// Memory is refused, so there is no result.
    #[error("an allocation was refused")]
    Memory,
    /// The script has more than 65,536 bytes.
    #[error("the script is longer than a script may be")]
    ScriptTooLong,
    /// Neither a token nor white space nor a comment begins at this byte, counted from 0.
    #[error("no token begins at octet {place}")]
    Lexical { place: usize },
    /// With this token, counted from 0, the tokens don't begin a script; the end counts as a token.
    #[error("no script goes on with token {place}")]
    Syntax { place: usize },
    /// This token, counted from 0, is the brace or test name that would be nested too deep.
    #[error("token {place} is nested too deep")]
    TooDeep { place: usize },
}

impl From<AllocError> for ParseError {
    ghost from_gives = { λ _ e. e ≡ Memory };

    fn from(_: AllocError) -> ParseError {
        ParseError::Memory
    }
}

impl<T: Drop> From<AllocFailed<T>> for ParseError {
    ghost from_gives = { λ _ e. e ≡ Memory };

    fn from(_: AllocFailed<T>) -> ParseError {
        ParseError::Memory
    }
}

impl From<LexicalError> for ParseError {
    ghost from_gives = { λ given e. e ≡ parse_error given };

    fn from(error: LexicalError) -> ParseError {
        match error {
            LexicalError::Memory => ParseError::Memory,
            LexicalError::ScriptTooLong => ParseError::ScriptTooLong,
            LexicalError::Lexical { place } => ParseError::Lexical { place },
        }
    }
}
