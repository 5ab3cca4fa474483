// Why a trace broke off.
ghost use Rattle.std.specs.Prelude.{◌≡◌};
ghost use Rattle.sieve_trace.specs.declared.error.TraceError.TheVariants.{Memory, Write};

use devices::DeviceFailed;
use std::alloc::AllocError;
use thiserror::Error;

/// Why a trace broke off. The beginning of the trace was written. [`crate::trace`] returns it.
#[derive(Debug, Drop, Error)]
pub enum TraceError {
    /// Memory was refused.
    #[error("memory was refused")]
    Memory,
    /// A call of the sink failed.
    #[error("a line can't be written")]
    Write,
}

impl From<AllocError> for TraceError {
    ghost use Rattle.std.specs.Prelude.{◌≡◌};

    ghost from_gives = { λ cause e. e ≡ Memory };

    fn from(_cause: AllocError) -> TraceError {
        TraceError::Memory
    }
}

impl From<DeviceFailed> for TraceError {
    ghost use Rattle.std.specs.Prelude.{◌≡◌};

    ghost from_gives = { λ cause e. e ≡ Write };

    fn from(_cause: DeviceFailed) -> TraceError {
        TraceError::Write
    }
}
