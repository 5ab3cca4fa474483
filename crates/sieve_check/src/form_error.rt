// Why commands and tests get no typed form.
//
// The code that makes the typed form returns it, or why there is none: memory is refused, or something isn't written
// as it has to be. `check` has found before that everything is. So the code has one way out besides its result, where
// the definition has nothing.
ghost use Rattle.std.specs.Prelude.{◌≡◌};
ghost use Rattle.sieve_check.specs.declared.form_error.FormError.TheVariants.{Memory};

use std::alloc::{AllocError, AllocFailed};

/// Why a command, a test or a part of one has no typed form.
#[derive(Clone, Copy)]
pub enum FormError {
    /// Memory is refused, so there is no result.
    Memory,
    /// It isn't written as it has to be.
    Malformed,
}

impl From<AllocError> for FormError {
    ghost from_gives = { λ _ e. e ≡ Memory };

    fn from(_: AllocError) -> FormError {
        FormError::Memory
    }
}

impl<T: Drop> From<AllocFailed<T>> for FormError {
    ghost from_gives = { λ _ e. e ≡ Memory };

    fn from(_: AllocFailed<T>) -> FormError {
        FormError::Memory
    }
}
