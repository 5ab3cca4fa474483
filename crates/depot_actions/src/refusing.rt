// The errors of the store as refusals.
ghost use Rattle.std.specs.Prelude.{◌≡◌};
ghost use Rattle.depot_actions.specs.Private.{of_store};

use part_store::StoreError;
use refusals::Refusal;

/// The refusal with the name of a store's error.
pub(crate) fn refused(error: StoreError) -> Refusal
    ensures { result ≡ of_store error }
{
    match error {
        StoreError::Memory => Refusal::Memory,
        StoreError::NoSuchEntry => Refusal::NoSuchEntry,
        StoreError::NumberFull => Refusal::NumberFull,
        StoreError::Collision => Refusal::Collision,
        StoreError::Database => Refusal::Database,
    }
}
