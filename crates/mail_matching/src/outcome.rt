// The outcome of a test.
//
// The result of a test is one of three: it fails, it holds, or it holds with captures. So captures of a failed test
// can't be written down.
ghost use Rattle.std.specs.Prelude.{◌≡◌, [], IfOk, IsOk, slice_index_or};

use glob_match::Captures;
use std::alloc::{AllocError, Global};
use std::borrow::CowSlice;
use std::marker::Model;

/// The captures that a matching value sets: the value itself, and the texts that match the first nine wildcards of
/// the key (RFC 5229, section 3.2).
///
/// A value that the message lends isn't copied. Of any other value only the captures are copied: at most ten texts of
/// [`MAX_CAPTURE`](glob_match::MAX_CAPTURE) bytes. [`Captured::text`] gives one. A contract sees ten texts, which are
/// empty if the key has no such wildcard.
#[derive(Drop)]
pub struct Captured<'a> {
    // The value that is lent, or copies of the captures, one after the other.
    octets: CowSlice<'a, u8>,
    // The places of the captures there.
    stretches: Captures,
}

impl<'a> Model for Captured<'a> {
    ghost use Rattle.std.specs.Prelude.{ℕ, List};
    ghost use Rattle.std.specs.Cow.{cow_slice_items};
    ghost use Rattle.glob_match.specs.Captures.{texts};
    ghost use Rattle.mail_matching.specs.FirstMatch.{ten_of};
    ghost use Rattle.mail_matching.specs.Kept.{HasNoMore};

    ghost Value = { List (List ℕ) };

    ghost view = { λ c. ten_of (texts (cow_slice_items c.octets) c.stretches) };

    ghost invariant = { λ c. HasNoMore c.octets (texts (cow_slice_items c.octets) c.stretches) };
}

impl<'a> Captured<'a> {
    ghost use Rattle.std.specs.Cow.{IsBorrowedSlice, cow_slice_items};
    ghost use Rattle.glob_match.specs.Captures.{texts};
    ghost use Rattle.mail_matching.specs.FirstMatch.{ten_of};

    // The captures of a value, by their stretches of it.
    //
    // The only error is a refusal of memory.
    #[inline(always)]
    pub(crate) fn new(
        alloc: Global,
        value: &CowSlice<'a, u8>,
        stretches: Captures,
    ) -> Result<Captured<'a>, AllocError>
        ensures captures { IfOk result
            (λ captured. captured ≡ ten_of (texts (cow_slice_items value.now) stretches)) }
        ensures lent { IsBorrowedSlice value.now → IsOk result }
    {
        match value {
            CowSlice::Borrowed(lent) => Ok(Captured {
                octets: CowSlice::Borrowed(lent),
                stretches,
            }),
            CowSlice::Owned(owned) => Captured::copied(alloc, owned, &stretches),
        }
    }

    // The same for a value that isn't lent for as long as the message: its captures are copied.
    //
    // The only error is a refusal of memory.
    pub(crate) fn copied(
        alloc: Global,
        value: &[u8],
        stretches: &Captures,
    ) -> Result<Captured<'a>, AllocError>
        ensures { IfOk result (λ captured. captured ≡ ten_of (texts value.now stretches.now)) }
    {
        let (octets, stretches) = stretches.gathered(alloc, value)?;
        Ok(Captured {
            octets: CowSlice::Owned(octets),
            stretches,
        })
    }

    /// Returns the capture with this number: 0 is the whole value, 1 to 9 are those of the wildcards. It is empty if
    /// there is none.
    pub fn text(&self, number: usize) -> &[u8]
        ensures { result.now ≡ slice_index_or self.now number [] }
    {
        self.stretches.text(self.octets.as_slice(), number)
    }
}

/// The outcome of comparing values with keys. A [`crate::Progress`] has it after [`crate::ask`].
#[derive(Drop)]
pub enum Outcome<'a> {
    /// No value matches a key.
    Fails,
    /// A value matches a key, and the captures stay as they are.
    Holds,
    /// A value matches a key by `:matches`, and these are the captures after that.
    Captures(Captured<'a>),
}

impl<'a> Outcome<'a> {
    ghost use Rattle.mail_matching.specs.Outcomes.{holds};

    /// Returns whether a value matches a key.
    pub fn holds(&self) -> bool
        ensures { result ≡ holds self.now }
    {
        !matches!(self, Outcome::Fails)
    }
}

/// The outcome and the cost of a test, as [`crate::ask_and_find`] returns them.
#[derive(Drop)]
pub struct Answer<'m> {
    /// Whether the test holds, and which captures it sets.
    pub outcome: Outcome<'m>,
    /// The cost in charges. It counts all names and fields, and all values and keys, even those that weren't
    /// compared.
    pub cost: u128,
}
