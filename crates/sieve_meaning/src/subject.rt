// The subject of commands and tests.
ghost use Rattle.std.specs.Prelude.{◌≡◌, ◌<◌, ◌≤◌, ◌-◌, None, Some, IfOk, IfSome, length, option_map};
ghost use Rattle.std.proofs.Props.{props};
ghost use Rattle.std.specs.Cow.{cow_slice_items};
ghost use Rattle.octets.specs.Limits.{max_message};
ghost use Rattle.mime_decode.specs.Visited.{numbers_from, visited};
ghost use Rattle.mail_matching.specs.Questions.{current};

use mime_decode::Message;
use std::alloc::{AllocError, Global};
use std::borrow::CowSlice;
use std::ops::Range;

/// The message, and the number of its current part, which is that of the innermost loop; `None` outside of loops.
///
/// [`Subject::of`] makes it for a whole script, and [`Subject::at`] for a turn of a loop. Commands and tests take it.
#[derive(Clone, Copy)]
pub struct Subject<'a, 'm> {
    /// The message that the script runs on.
    pub message: &'a Message<'m>,
    /// The number of the current part, counted from 0.
    pub part: Option<usize>,
    ghost within: { IfSome part (λ number. number < length message.now.parts) } by { Prim.hlevel props },
}

impl<'a, 'm> Subject<'a, 'm> {
    /// Returns the subject of the message outside of loops.
    pub fn of(message: &'a Message<'m>) -> Subject<'a, 'm>
        ensures message { result.message.now ≡ message.now }
        ensures part { result.part ≡ None }
    {
        Subject {
            message,
            part: None,
        }
    }

    /// Returns the subject of a turn of a loop on this part of the message.
    ///
    /// # Requires
    ///
    /// The part is in the message: `part < message.parts()`.
    pub fn at(self, part: usize) -> Subject<'a, 'm>
        requires { part < length self.message.now.parts }
        ensures message { result.message.now ≡ self.entry.message.now }
        ensures part { result.part ≡ Some part }
    {
        Subject {
            message: self.message,
            part: Some(part),
        }
    }

    /// Returns the content of the current part; `None` if there is none.
    ///
    /// # Errors
    ///
    /// `AllocError` if memory is refused.
    pub fn content(self, alloc: Global) -> Result<Option<CowSlice<'m, u8>>, AllocError>
        ensures content { IfOk result
            (λ content. option_map cow_slice_items content
            ≡ option_map (λ p. p.content) (current self.entry.message.now self.entry.part)) }
        ensures short { IfOk result
            (λ content. IfSome content (λ octets. length (cow_slice_items octets) ≤ max_message)) }
    {
        match self.part {
            Some(part) if part < self.message.parts() => {
                Ok(Some(self.message.content(alloc, part)?))
            }
            _ => Ok(None),
        }
    }

    /// Returns the numbers of the parts that a loop visits if it begins here.
    pub fn visited(self) -> Range<usize>
        ensures parts { numbers_from result.start (result.end - result.start)
            ≡ visited self.entry.part self.entry.message.now }
        ensures within { result.end ≤ length self.entry.message.now.parts }
    {
        self.message.visited(self.part)
    }
}
