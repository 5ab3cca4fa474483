// The faults of single strings of commands and tests.
ghost use Rattle.std.specs.Prelude.{◌≡◌};
ghost use Rattle.sieve_check.specs.Rules.{has_many_strings};
ghost use Rattle.sieve_check.specs.Reading.{read_of};

use crate::argument_strings::ArgumentStrings;
use crate::names::capability_named;
use crate::references::{has_large_references, has_wrong_reference};
use crate::signature::Reading;
use bytecode_format::MAX_TEST_STRINGS;
use octets::{MAX_STRING, Octets};

/// What can be wrong with a string.
#[derive(Clone, Copy)]
pub enum StringFlaw {
    /// It isn't a capability.
    Unknown,
    /// It has more bytes than the limit.
    Long,
    /// It has a reference into a namespace, or to a capture that can't exist.
    Wrong,
    /// It has too many segments, or a reference by a name that has too many bytes.
    Large,
}

impl StringFlaw {
    ghost use Rattle.std.specs.Prelude.{◌≡◌};
    ghost use Rattle.std.specs.List.{find};
    ghost use Rattle.sieve_check.specs.Reading.{name_in};
    ghost use Rattle.sieve_check.specs.Rules.{string_has};

    /// Whether this is wrong with the string.
    pub fn is_in(self, string: &Octets) -> bool
        ensures { result ≡ string_has self string.now }
    {
        match self {
            StringFlaw::Unknown => capability_named(string.as_slice()).is_none(),
            StringFlaw::Long => string.len() > MAX_STRING,
            StringFlaw::Wrong => has_wrong_reference(string.as_slice()),
            StringFlaw::Large => has_large_references(string.as_slice()),
        }
    }

    /// The first of the strings that has this fault. It is inlined, so that each flaw has a search of its own, and
    /// lists without strings need no call.
    #[inline(always)]
    pub fn first_in<'t>(self, mut strings: ArgumentStrings<'t>) -> Option<&'t [u8]>
        ensures { name_in result ≡ find (string_has self) strings.entry }
    {
        'strings: while let Some(string) = strings.next() {
            if self.is_in(string) {
                return Some(string.as_slice());
            }
        }
        None
    }
}

/// Whether the lists have more strings than a test can have.
pub fn has_many_strings(reading: Reading<'_>) -> bool
    ensures { result ≡ has_many_strings (read_of reading.entry) }
{
    let mut left = MAX_TEST_STRINGS;
    let mut strings = ArgumentStrings::in_lists(reading.lists());
    'strings: while strings.next().is_some() {
        if left == 0 {
            return true;
        }
        left -= 1;
    }
    false
}
