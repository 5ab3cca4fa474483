// The stretches of a value that the wildcards of a key match.
//
// `stretches` gives the places of any captures. That those of `matches` are the stretches of the wildcards, and are
// within the value, is its clause and a law. That captures are lent isn't stated: contracts see ten texts. That no
// memory is taken is stated as success, so a body that copies if there is memory, and lends if there is none, would
// be proved.
ghost use Rattle.std.specs.Prelude.{◌≡◌, ◌≤◌, ◌<◌, ◌+◌, ◌++◌, [], IfOk, OnOk, length, slice_index_or, ◌∷◌};
ghost use Rattle.std.specs.List.{concat};
ghost use Rattle.glob_match.specs.Captures.{LieWithin, cut, texts, whole};
ghost use Rattle.glob_match.specs.Segments.{with_stretches};
ghost use Rattle.glob_match.specs.Matching.{max_captures};

use arrayvec::ArrayVec;
use std::alloc::{AllocError, Global};
use std::marker::Model;

/// How many captures there are at most: the whole value, and the first nine wildcards (RFC 5229, section 3.2).
pub const MAX_CAPTURES: usize = 10;

/// How many bytes of a capture are kept.
pub const MAX_CAPTURE: usize = 4096;

/// The bytes of a value from `start` up to, but not including, `end`. Both are counted in bytes from 0.
#[derive(Clone, Copy, Default, Drop)]
pub struct Stretch {
    /// The place of the first byte.
    pub start: usize,
    /// The place after the last byte.
    pub end: usize,
}

/// The captures of a value that matches a key, as stretches of the value: the whole value first, then the first nine
/// wildcards, each cut to [`MAX_CAPTURE`] bytes.
///
/// [`crate::matches`] makes it. It doesn't keep the value, so pass the same value to [`Captures::text`]. A contract
/// sees the list of the stretches.
#[derive(Drop)]
pub struct Captures {
    stretches: ArrayVec<Stretch, MAX_CAPTURES>,
}

impl Model for Captures {
    ghost use Rattle.std.specs.Prelude.{List};
    ghost use Rattle.glob_match.specs.declared.captures.Stretch.{Stretch};

    ghost Value = { List Stretch };

    ghost view = { λ c. c.stretches.items };
}

impl Captures {
    // The capture of the whole value.
    pub(crate) fn of_value(value: &[u8]) -> Captures
        ensures places { result ≡ cut (whole value.now) ∷ [] }
        ensures few { length result ≤ max_captures }
    {
        let mut captures = Captures {
            stretches: ArrayVec::new(),
        };
        captures.push(0, value.len());
        captures
    }

    // Adds the capture of a stretch, unless there is no room.
    pub(crate) fn push(&mut self, start: usize, end: usize)
        requires { start ≤ end }
        ensures few { length self.new ≤ max_captures }
        ensures places { self.new ≡ with_stretches self.old (record { start = start; end = end }
            ∷ []) }
    {
        if !self.stretches.is_full() {
            let kept = (end - start).min(MAX_CAPTURE);
            self.stretches.push(Stretch {
                start,
                end: start + kept,
            });
        }
    }

    /// Returns the captures, first that of the whole value.
    pub fn stretches(&self) -> &[Stretch]
        ensures { result.now ≡ self.now }
    {
        self.stretches.as_slice()
    }

    /// Returns the text of the capture `number` of `value`, which is 0 for the whole value. It is empty if there is
    /// no such capture.
    pub fn text<'v>(&self, value: &'v [u8], number: usize) -> &'v [u8]
        ensures { result.now ≡ slice_index_or (texts value.now self.now) number [] }
    {
        match self.stretches.as_slice().get(number) {
            Some(stretch) => {
                let end = stretch.end.min(value.len());
                &value[stretch.start.min(end)..end]
            }
            None => &[],
        }
    }

    /// Copies the captured bytes of `value`, without the rest of it: returns the texts of the captures, one after the
    /// other, and the captures by their places in this copy.
    ///
    /// # Errors
    ///
    /// `AllocError` if memory is refused.
    pub fn gathered(&self, alloc: Global, value: &[u8]) -> Result<(Vec<u8>, Captures), AllocError>
        ensures octets { IfOk result (λ gathered. gathered.0.items
            ≡ concat (texts value.now self.now)) }
        ensures same { IfOk result (λ gathered. texts gathered.0.items gathered.1
            ≡ texts value.now self.now) }
    {
        let mut octets = Vec::new(alloc);
        let mut captures = Captures {
            stretches: ArrayVec::new(),
        };
        for number in 0..self.stretches.len() {
            captures.add_text(&mut octets, self.text(value, number))?;
        }
        Ok((octets, captures))
    }

    // Appends a text to the bytes that the captures refer to, and adds its capture.
    fn add_text(&mut self, octets: &mut Vec<u8>, text: &[u8]) -> Result<(), AllocError>
        requires room { length self.old < max_captures }
        requires within { LieWithin (length octets.old.items) self.old }
        ensures octets { OnOk result (octets.new.items ≡ octets.old.items ++ text.now) }
        ensures texts { OnOk result (texts octets.new.items self.new
            ≡ texts octets.old.items self.old ++ text.now ∷ []) }
        ensures within { OnOk result (LieWithin (length octets.new.items) self.new) }
        ensures number { OnOk result (length self.new ≡ length self.old + 1) }
    {
        let start = octets.len();
        octets.extend_from_slice(text)?;
        self.stretches.push(Stretch {
            start,
            end: octets.len(),
        });
        Ok(())
    }
}
