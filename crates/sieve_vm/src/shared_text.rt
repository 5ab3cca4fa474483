// Texts with several holders.
//
// A text on the stack is lent by the program, or shared (`Rc`): a variable's value, a capture or a joined text is
// held by each entry that it was pushed to, and by the variable, as long as one of them has it. So no instruction
// searches the stack for entries that have to be copied before a variable or the captures change. Such a search would
// give SET a factor of 1,024 that no charge shows.
ghost use Rattle.std.specs.Prelude.{◌≡◌, IfOk, length, nat_le, take};
ghost use Rattle.octets.specs.Limits.{max_value};
ghost use Rattle.sieve_vm.specs.SharedTexts.{items_of};

use crate::joining::first;
use octets::{MAX_VALUE, Octets};
use std::alloc::{AllocError, Global};
use std::rc::Rc;

/// A text that several entries of the stack and variables can hold, without a copy for each.
#[derive(Drop)]
pub enum SharedText<'p> {
    /// Bytes that the program lends.
    Lent(&'p [u8]),
    /// Bytes that are kept as long as one holder has them.
    Shared(Rc<Vec<u8>>),
}

impl<'p> SharedText<'p> {
    /// The text with these bytes.
    ///
    /// # Errors
    ///
    /// `AllocError` if memory is refused.
    pub fn new(alloc: Global, octets: Vec<u8>) -> Result<SharedText<'p>, AllocError>
        ensures { IfOk result (λ text. items_of text ≡ octets.items) }
    {
        Ok(SharedText::Shared(Rc::new(alloc, octets)?))
    }

    /// The bytes of the text.
    #[inline(always)]
    pub fn as_slice(&self) -> &[u8]
        ensures { result.now ≡ items_of self.now }
    {
        match self {
            SharedText::Lent(octets) => octets,
            SharedText::Shared(octets) => octets.as_ref().as_slice(),
        }
    }

    /// The same text, with one more holder.
    ///
    /// # Errors
    ///
    /// `AllocError` if memory is refused.
    pub fn share(&self) -> Result<SharedText<'p>, AllocError>
        ensures { IfOk result (λ text. items_of text ≡ items_of self.now) }
    {
        match self {
            SharedText::Lent(octets) => Ok(SharedText::Lent(octets)),
            SharedText::Shared(octets) => Ok(SharedText::Shared(octets.clone()?)),
        }
    }

    /// The first bytes of the text; the same text if it has no more.
    ///
    /// # Errors
    ///
    /// `AllocError` if memory is refused.
    pub fn cut(self, alloc: Global) -> Result<SharedText<'p>, AllocError>
        ensures { IfOk result (λ text. items_of text ≡ take max_value (items_of self.entry)) }
    {
        match self {
            SharedText::Lent(octets) => Ok(SharedText::Lent(first(octets))),
            SharedText::Shared(octets) => cut_shared(alloc, octets),
        }
    }

    /// The bytes of the text, copied if there are other holders.
    ///
    /// # Errors
    ///
    /// `AllocError` if memory is refused.
    pub fn into_octets(self, alloc: Global) -> Result<Octets, AllocError>
        ensures { IfOk result (λ octets. octets ≡ items_of self.entry) }
    {
        match self {
            SharedText::Lent(octets) => copied(alloc, octets),
            SharedText::Shared(octets) => match Rc::try_unwrap(octets) {
                Ok(octets) => Ok(Octets::from_vec(octets)),
                Err(shared) => copied(alloc, shared.as_ref().as_slice()),
            },
        }
    }
}

// The first bytes of a text that can have other holders. A short one isn't copied.
fn cut_shared<'p>(alloc: Global, octets: Rc<Vec<u8>>) -> Result<SharedText<'p>, AllocError>
    ensures { IfOk result (λ text. items_of text ≡ take max_value octets.value.items) }
{
    if is_short(octets.as_ref()) {
        return Ok(SharedText::Shared(octets));
    }
    match Rc::try_unwrap(octets) {
        Ok(octets) => SharedText::new(alloc, shortened(octets)),
        Err(shared) => SharedText::new(
            alloc,
            Vec::from_slice(alloc, first(shared.as_ref().as_slice()))?,
        ),
    }
}

// The first of the bytes, in place.
fn shortened(mut octets: Vec<u8>) -> Vec<u8>
    ensures { result.items ≡ take max_value octets.items }
{
    octets.truncate(MAX_VALUE);
    octets
}

// Whether all of the bytes are the first ones.
fn is_short(octets: &Vec<u8>) -> bool
    ensures { result ≡ nat_le (length octets.now.items) max_value }
{
    octets.len() <= MAX_VALUE
}

/// A copy of bytes.
///
/// # Errors
///
/// `AllocError` if memory is refused.
pub fn copied(alloc: Global, octets: &[u8]) -> Result<Octets, AllocError>
    ensures { IfOk result (λ copy. copy ≡ octets.now) }
{
    Ok(Octets::from_vec(Vec::from_slice(alloc, octets)?))
}
