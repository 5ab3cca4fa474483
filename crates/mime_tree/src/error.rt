// Why bytes can't be read as a message.
//
// One type, `MessageError`, is the error of a message and of the tree of its parts.
ghost use Rattle.std.specs.Prelude.{◌≡◌};
ghost use Rattle.mime_tree.specs.declared.error.MessageError.TheVariants.{Memory};

use std::alloc::{AllocError, AllocFailed};
use thiserror::Error;

/// Why bytes can't be read as a message, or as the tree of its parts. [`crate::Tree::read`] returns it.
#[derive(Debug, Drop, Error)]
pub enum MessageError {
    /// Memory is refused, so there is no result.
    #[error("an allocation was refused")]
    Memory,
    /// There are more than [`MAX_MESSAGE`](crate::MAX_MESSAGE) bytes.
    #[error("the message is longer than a message may be")]
    MessageTooLarge,
    /// There are more than [`MAX_PARTS`](crate::MAX_PARTS) parts.
    #[error("the message has more parts than a message may have")]
    TooManyParts,
}

impl From<AllocError> for MessageError {
    ghost from_gives = { λ _ e. e ≡ Memory };

    fn from(_refused: AllocError) -> MessageError {
        MessageError::Memory
    }
}

impl<T: Drop> From<AllocFailed<T>> for MessageError {
    ghost from_gives = { λ _ e. e ≡ Memory };

    fn from(_refused: AllocFailed<T>) -> MessageError {
        MessageError::Memory
    }
}
