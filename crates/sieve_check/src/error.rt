// Why a script isn't accepted.
ghost use Rattle.std.specs.Prelude.{◌≡◌};
ghost use Rattle.sieve_check.specs.declared.error.CheckError.TheVariants.{Memory};

use std::alloc::{AllocError, AllocFailed};

/// Why a script isn't accepted, as [`crate::check`] returns it. A place is the number of an identifier's token,
/// counted from 0.
#[derive(Debug, Drop)]
pub enum CheckError {
    /// Memory is refused, so there is no result.
    Memory,
    /// No command or test has this name (RFC 5228, section 2.10.5).
    UnknownCommand { place: usize },
    /// The command or test needs a capability that wasn't required (RFC 5228, section 2.10.5).
    MissingCapability { place: usize },
    /// `require` names a capability that isn't known (RFC 5228, section 3.2).
    UnknownCapability { place: usize },
    /// The command or test is at a wrong place, or has other arguments, tests or another end than it takes; or a
    /// string of it that is expanded has a reference into a namespace or to a capture after the last one; or `set` or
    /// `take` has a name that isn't an identifier (RFC 5229, sections 3 and 4).
    ///
    /// Wrong places are those of a `require` after another command or in a block; of an `elsif` or `else` that
    /// doesn't follow an `if` or `elsif`; of `store`, `take`, `break` and the tests of the current part outside of
    /// all loops; and of a `break` with a name that no loop around it has (RFC 5228, sections 3.1 and 3.2; RFC 5703,
    /// section 3).
    BadArguments { place: usize },
    /// A string of the command or test has more bytes than the limit, or the lists of a test have more strings; or a
    /// string of it that is expanded has more segments, or a name of a variable has more bytes; or with this command
    /// or test the script has more variables; or this is a loop inside as many others as can be open.
    Limit { place: usize },
}

/// The kind of a [`CheckError`], without its place. A command or test with several faults has the first in this
/// order.
#[derive(Clone, Copy)]
pub enum Fault {
    /// The kind of [`CheckError::UnknownCommand`].
    UnknownCommand,
    /// The kind of [`CheckError::MissingCapability`].
    MissingCapability,
    /// The kind of [`CheckError::UnknownCapability`].
    UnknownCapability,
    /// The kind of [`CheckError::BadArguments`].
    BadArguments,
    /// The kind of [`CheckError::Limit`].
    Limit,
}

impl CheckError {
    ghost use Rattle.std.specs.Prelude.{◌≡◌};
    ghost use Rattle.sieve_check.specs.Causes.{refusal};

    // The error of a fault of the command or test whose identifier is this token.
    pub(crate) fn of(fault: Fault, place: usize) -> CheckError
        ensures { result ≡ refusal place fault }
    {
        match fault {
            Fault::UnknownCommand => CheckError::UnknownCommand { place },
            Fault::MissingCapability => CheckError::MissingCapability { place },
            Fault::UnknownCapability => CheckError::UnknownCapability { place },
            Fault::BadArguments => CheckError::BadArguments { place },
            Fault::Limit => CheckError::Limit { place },
        }
    }
}

impl From<AllocError> for CheckError {
    ghost from_gives = { λ _ e. e ≡ Memory };

    fn from(_: AllocError) -> CheckError {
        CheckError::Memory
    }
}

impl<T: Drop> From<AllocFailed<T>> for CheckError {
    ghost from_gives = { λ _ e. e ≡ Memory };

    fn from(_: AllocFailed<T>) -> CheckError {
        CheckError::Memory
    }
}
