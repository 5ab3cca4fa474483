// Stores of volumes that fail.
ghost use Rattle.std.specs.Prelude.{◌≡◌};
ghost use Rattle.volumes.specs.Holding.{IsFailure, failure_for};

use part_store::StoreError;
use refusals::Refusal;

/// Returns the refusal for a store that can't be read or filled: `Memory` if memory is refused, otherwise `Database`.
pub fn failure_of(error: StoreError) -> Refusal
    ensures same { result ≡ failure_for error }
    ensures which { IsFailure result }
{
    match error {
        StoreError::Memory => Refusal::Memory,
        StoreError::NoSuchEntry => Refusal::Database,
        StoreError::NumberFull => Refusal::Database,
        StoreError::Collision => Refusal::Database,
        StoreError::Database => Refusal::Database,
    }
}
