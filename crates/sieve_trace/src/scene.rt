// The part that a line is about, in words.
ghost use Rattle.std.specs.Prelude.{◌≡◌, ◌<◌, ◌++◌, length, None, Option, ℕ, Some, IfOk, IsOk, OnOk, slice_get};
ghost use Rattle.sieve_trace.specs.Printed.{media_of, part_text};

use crate::words::push_number;
use mime_decode::Message;
use std::alloc::{AllocError, Global};

// Appends the media type of a part.
fn push_media(out: &mut Vec<u8>, message: &Message<'_>, number: usize) -> Result<(), AllocError>
    requires { number < length message.now.parts }
    ensures { OnOk result (out.new.items ≡ out.old.items
        ++ media_of (slice_get message.now.parts number)) }
{
    let media = message.tree().media_without_params(number);
    media.append_text(out)
}

// Appends a part by its number and media type.
#[tactic(auto, using(std::proofs::lemmas::Option::slice_get_past), unfolding(crate::specs::Printed::part_text))]
fn push_part(out: &mut Vec<u8>, message: &Message<'_>, number: usize) -> Result<(), AllocError>
    ensures { OnOk result (out.new.items ≡ out.old.items ++ part_text message.now (Some number)) }
{
    out.extend_from_slice(b" part ")?;
    push_number(out, number as u64)?;
    out.extend_from_slice(b" ")?;
    if number < message.parts() {
        return push_media(out, message, number);
    }
    Ok(())
}

// A part by its number and media type, with a space before them; empty outside of loops.
#[tactic(auto, unfolding(crate::specs::Printed::part_text))]
fn part_of(alloc: Global, message: &Message<'_>, part: Option<usize>) -> Result<Vec<u8>, AllocError>
    ensures { IfOk result (λ words. words.items ≡ part_text message.now part) }
{
    let mut words = Vec::new(alloc);
    match part {
        Some(number) => {
            push_part(&mut words, message, number)?;
            Ok(words)
        }
        None => Ok(words),
    }
}

/// The part of a message that a line is about, with the words for it.
#[derive(Drop)]
pub struct Scene<'a, 'm> {
    /// Where memory comes from.
    alloc: Global,
    /// The message that the script runs on.
    pub message: &'a Message<'m>,
    /// The number of the part; `None` outside of loops.
    pub part: Option<usize>,
    /// The number and the media type of the part, with a space before them; empty outside of loops.
    pub words: Vec<u8>,
    ghost told: { words.items ≡ part_text message.now part },
}

impl<'a, 'm> Scene<'a, 'm> {
    /// The scene outside of loops.
    #[tactic(auto, unfolding(crate::specs::Printed::part_text))]
    pub fn of(alloc: Global, message: &'a Message<'m>) -> Scene<'a, 'm>
        ensures { result.message.now ≡ message.now }
    {
        Scene {
            alloc,
            message,
            part: None,
            words: Vec::new(alloc),
        }
    }

    /// Changes the scene to another part. The words of a part are made once for all lines in a row that are about it.
    ///
    /// # Errors
    ///
    /// `AllocError` if memory is refused. None is taken if the scene is at this part.
    pub fn move_to(&mut self, part: Option<usize>) -> Result<(), AllocError>
        ensures message { self.new.message.now ≡ self.old.message.now }
        ensures part { OnOk result (self.new.part ≡ part) }
        ensures known { self.old.part ≡ part → IsOk result }
    {
        if self.part == part {
            return Ok(());
        }
        let words = part_of(self.alloc, self.message, part)?;
        *self = Scene {
            alloc: self.alloc,
            message: self.message,
            part,
            words,
        };
        Ok(())
    }
}
