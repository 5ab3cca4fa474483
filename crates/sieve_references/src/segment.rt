// The segments of a string.
ghost use Rattle.std.specs.Prelude.{◌≡◌, ◌-◌, ◌<◌, ◌∷◌, [], drop, length, MatchOption};
ghost use Rattle.sieve_references.specs.References.{segments};
ghost use Rattle.sieve_references.specs.Reading.{octets_before};
ghost use Rattle.sieve_references.specs.SegmentView.{segment_of};

use crate::reading::{reference_at, reference_behind};
use crate::run::up_to_dollar;

/// A piece of a string: a reference, or a stretch between references (RFC 5229, section 3). [`first_segment`] makes
/// it.
#[derive(Clone, Copy)]
pub enum Segment<'s> {
    /// Bytes that mean themselves.
    Text(&'s [u8]),
    /// A reference to the variable with this name, as it is written.
    Variable(&'s [u8]),
    /// A reference to the capture with this number, at most 9.
    Capture(u8),
    /// A reference to a capture after the last one, which is never there.
    Beyond,
    /// A reference into a namespace, which the checker refuses.
    Foreign,
}

/// Returns the first segment of a string and the rest of the string after it; `None` if the string is empty.
///
/// All segments of a string, taken one after the other, take time linear in its length.
pub fn first_segment(text: &[u8]) -> Option<(Segment<'_>, &[u8])>
    ensures { MatchOption result (text.now ≡ [])
        (λ f. (segments text.now ≡ segment_of f.0 ∷ segments f.1.now)
        × (length f.1.now < length text.now)
        × (f.1.now ≡ drop (length text.now - length f.1.now) text.now)) }
{
    if text.is_empty() {
        return None;
    }
    if let Some((reference, rest)) = reference_at(text) {
        return Some((reference, rest));
    }
    let (octets, rest) = text.split_at(stretch_len(text));
    Some((Segment::Text(octets), rest))
}

// How many bytes come before the first reference, or in the whole text if it has none.
fn stretch_len(text: &[u8]) -> usize
    ensures { result ≡ octets_before text.now }
{
    let mut rest = text;
    let mut len = 0;
    'dollars: while let Some((plain, after)) = up_to_dollar(rest) {
        len += plain.len();
        if reference_behind(after).is_some() {
            return len;
        }
        len += 1;
        rest = after;
    }
    text.len()
}
