// The errors of the store's calls.
ghost use Rattle.std.specs.Prelude.{◌≡◌};
ghost use Rattle.part_store.specs.declared.error.StoreError.TheVariants.{Memory};
ghost use Rattle.part_store.specs.Refusals.{refusal_of};

use sqlite::ErrorCode;
use std::alloc::{AllocError, AllocFailed};
use thiserror::Error;

/// Why a call of the store failed. Each contract names the cases that its call can return; `depot_actions` turns them
/// into refusals of the same name.
#[derive(Clone, Copy, Debug, PartialEq, Eq, Drop, Error)]
pub enum StoreError {
    /// Memory was refused, here or in the database.
    #[error("an allocation was refused")]
    Memory,
    /// The user has no entry with that number.
    #[error("the user has no entry of that number")]
    NoSuchEntry,
    /// The user has too few numbers left for the new entries: the last one is 4,294,967,295.
    #[error("the numbers that are left don't suffice")]
    NumberFull,
    /// Another content has the same SHA-256 digest and different bytes.
    #[error("another content has the same digest")]
    Collision,
    /// The database refused the call or failed, or the bytes of an entry were altered.
    #[error("the database refused or failed")]
    Database,
}

impl From<AllocError> for StoreError {
    ghost from_gives = { λ _ e. e ≡ Memory };

    fn from(_refused: AllocError) -> StoreError {
        StoreError::Memory
    }
}

impl<T: Drop> From<AllocFailed<T>> for StoreError {
    ghost from_gives = { λ _ e. e ≡ Memory };

    fn from(_refused: AllocFailed<T>) -> StoreError {
        StoreError::Memory
    }
}

impl From<sqlite::Error> for StoreError {
    ghost from_gives = { λ error e. e ≡ refusal_of error };

    fn from(error: sqlite::Error) -> StoreError {
        match error {
            sqlite::Error::SqliteFailure(ErrorCode::OutOfMemory) => StoreError::Memory,
            _ => StoreError::Database,
        }
    }
}
