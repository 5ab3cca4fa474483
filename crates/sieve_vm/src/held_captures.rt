// The captures of a run.
//
// Captures are the value with its stretches if it is lent, here and in the evaluator of the meaning: a slice of the
// message. Of any other value the stretches alone are copied, so that a decoded content isn't kept for them. Before
// the first match there are none. Contracts see ten texts in each case, so an edit that loses them is refused. A
// capture that is pushed is copied once, at most 4,096 bytes, and shared after that: an entry that held the whole
// value would keep a copy of up to the message's size, and a program can have 500 of them on its stack.
ghost use Rattle.std.specs.Prelude.{◌≡◌, [], None, IfOk, IfSome, IsNone, IsSomeAnd, slice_index_or};
ghost use Rattle.mail_matching.specs.FirstMatch.{no_captures};
ghost use Rattle.sieve_vm.specs.SharedTexts.{items_of};

use crate::known::keep;
use crate::shared_text::SharedText;
use mail_matching::Captured;
use std::alloc::{AllocError, Global};
use std::marker::Model;

/// The captures of the last match that has set them. A contract sees ten texts.
///
/// The captures of the match are kept once, however often they are pushed: what is pushed is a text of the capture's
/// own, which is made at the first push.
#[derive(Drop)]
pub struct HeldCaptures<'p, 'm> {
    captured: Option<Captured<'m>>,
    // By the number of the capture.
    made: Vec<Option<SharedText<'p>>>,
}

impl<'p, 'm> Model for HeldCaptures<'p, 'm> {
    ghost use Rattle.std.specs.Prelude.{ℕ, List};
    ghost use Rattle.mail_matching.specs.Outcomes.{captures_of};
    ghost use Rattle.sieve_vm.specs.SharedTexts.{AreMade};

    ghost Value = { List (List ℕ) };

    ghost view = { λ c. captures_of c.captured };

    ghost invariant = { λ c. AreMade c.made.items (captures_of c.captured) };
}

impl<'p, 'm> HeldCaptures<'p, 'm> {
    /// Ten empty captures. It takes no memory.
    pub fn new(alloc: Global) -> HeldCaptures<'p, 'm>
        ensures { result ≡ no_captures }
    {
        HeldCaptures {
            captured: None,
            made: Vec::new(alloc),
        }
    }

    /// Keeps those of a match, in the place of the ones before.
    pub fn set(&mut self, captured: Captured<'m>)
        ensures { self.new ≡ captured.entry }
    {
        self.made.clear();
        self.captured = Some(captured);
    }

    /// The text of a capture, shared with one more holder.
    ///
    /// # Errors
    ///
    /// `AllocError` if memory is refused.
    pub fn share(&mut self, alloc: Global, number: u8) -> Result<SharedText<'p>, AllocError>
        ensures same { self.new ≡ self.old }
        ensures text { IfOk result (λ text. items_of text ≡ slice_index_or self.old number []) }
    {
        let place = usize::from(number);
        if let Some(text) = text_made(&self.made, place)? {
            return Ok(text);
        }
        let text = SharedText::new(alloc, Vec::from_slice(alloc, self.octets(place))?)?;
        keep(&mut self.made, place + 1, place, text.share()?)?;
        Ok(text)
    }

    // The bytes of a capture.
    fn octets(&self, place: usize) -> &[u8]
        ensures { result.now ≡ slice_index_or self.now place [] }
    {
        match &self.captured {
            Some(captured) => captured.text(place),
            None => &[],
        }
    }
}

// The text that was made of a capture, if one was.
fn text_made<'p>(
    made: &[Option<SharedText<'p>>],
    place: usize,
) -> Result<Option<SharedText<'p>>, AllocError>
    ensures some { IfOk result (λ found. IfSome found
        (λ text. IsSomeAnd (slice_index_or made.now place None)
        (λ held. items_of text ≡ items_of held))) }
    ensures none { IfOk result (λ found. IsNone found → slice_index_or made.now place None ≡ None) }
{
    match made.get(place) {
        Some(found) => match found {
            Some(text) => Ok(Some(text.share()?)),
            None => Ok(None),
        },
        None => Ok(None),
    }
}
