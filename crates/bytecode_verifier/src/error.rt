// Why a program isn't accepted.
ghost use Rattle.std.specs.Prelude.{◌≡◌};
ghost use Rattle.bytecode_verifier.specs.declared.error.Refusal.TheVariants.{Memory};

use std::alloc::{AllocError, AllocFailed};
use thiserror::Error;

/// Why a program isn't accepted: the rule that it breaks, and the place of the instruction, counted from 0.
///
/// [`crate::verify`] returns the first rule in this order that is broken, with the least place where it is broken.
#[derive(Clone, Copy, Debug, Drop, Error)]
pub enum Refusal {
    /// Memory is refused, so there is no result.
    #[error("an allocation was refused")]
    Memory,
    /// An index is beyond the end of its table.
    #[error("instruction {place} names what isn't there")]
    Index { place: usize },
    /// The byte names no operation, a field is out of its range, or a field that the operation doesn't use isn't 0.
    #[error("instruction {place} has a wrong field")]
    Form { place: usize },
    /// The last instruction isn't HALT. The place is 0 if there are no instructions.
    #[error("instruction {place} doesn't end the run")]
    End { place: usize },
    /// An EACH or NEXT has no partner or names another place, too many loops are open, or a BREAK closes more loops
    /// than are open.
    #[error("a loop is wrong at instruction {place}")]
    Loop { place: usize },
    /// A jump isn't forward, or its target is beyond the end or has other open loops.
    #[error("instruction {place} jumps to a wrong place")]
    Jump { place: usize },
    /// An operation needs the current part, and no loop is open.
    #[error("no loop is open around instruction {place}")]
    NoPart { place: usize },
    /// An entry of the stack is missing or of the wrong kind, there are too many, or one is left at a place where
    /// none can be.
    #[error("the stack is wrong at instruction {place}")]
    Stack { place: usize },
}

impl From<AllocError> for Refusal {
    ghost from_gives = { λ _ e. e ≡ Memory };

    fn from(_refused: AllocError) -> Refusal {
        Refusal::Memory
    }
}

impl<T: Drop> From<AllocFailed<T>> for Refusal {
    ghost from_gives = { λ _ e. e ≡ Memory };

    fn from(_refused: AllocFailed<T>) -> Refusal {
        Refusal::Memory
    }
}
