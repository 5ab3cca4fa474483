// The lengths of boundaries, which rule out most lines that begin as a delimiter does.
ghost use Rattle.std.specs.Prelude.{◌≡◌, ◌+◌, ◌<◌, ◌≤◌, ◌⊎◌, false, true};
ghost use Rattle.mime_tree.specs.Reading.{AreWithin, IsWithin};

use crate::open_part::OpenPart;

/// The least and the greatest length of the boundaries of open parts.
#[derive(Clone, Copy)]
pub(crate) struct BoundaryLengths {
    least: usize,
    most: usize,
}

impl BoundaryLengths {
    /// The lengths for these parts. If none has a boundary, the least is greater than the greatest.
    pub(crate) fn of(opened: &[OpenPart]) -> BoundaryLengths
        ensures { AreWithin result opened.now }
    {
        let mut lengths = BoundaryLengths {
            least: usize::MAX,
            most: 0,
        };
        for part in opened {
            lengths = lengths.with(part);
        }
        lengths
    }

    // The lengths with one more part.
    #[inline]
    fn with(self, part: &OpenPart) -> BoundaryLengths
        ensures least { result.least ≤ self.least }
        ensures most { self.most ≤ result.most }
        ensures within { IsWithin result part.now.boundary }
    {
        match part.boundary_length() {
            Some(length) => BoundaryLengths {
                least: self.least.min(length),
                most: self.most.max(length),
            },
            None => self,
        }
    }

    /// Whether there is no boundary.
    pub(crate) fn are_none(self) -> bool
        ensures { result ≡ true → self.most < self.least }
    {
        self.most < self.least
    }

    /// Whether the name of a delimiter or closing line can have this length: the name of a closing line has two
    /// dashes more.
    #[inline]
    pub(crate) fn allow(self, length: usize) -> bool
        ensures { result ≡ false → (length < self.least) ⊎ (self.most + 2 < length) }
    {
        self.least <= length && length.saturating_sub(2) <= self.most
    }
}
