// References, read word by word. A reader stops at the first byte with which no reference can continue.
ghost use Rattle.std.specs.Prelude.{◌≡◌, ◌∷◌, [], MatchOption, Some, None};
ghost use Rattle.sieve_references.specs.References.{reference_of};
ghost use Rattle.sieve_references.specs.Reading.{elements, found_at, reference, reference_behind};
ghost use Rattle.sieve_references.specs.SegmentView.{segment_of};

use crate::identifier::{LAST_CAPTURE, is_element, is_identifier, number};
use crate::run::word;
use crate::segment::Segment;
use octets::first;

// The segment that the one word between the braces of a reference refers to.
fn named(word: &[u8]) -> Option<Segment<'_>>
    ensures { MatchOption result (reference_of (word.now ∷ []) ≡ None)
        (λ segment. reference_of (word.now ∷ []) ≡ Some (segment_of segment)) }
{
    if is_identifier(word) {
        return Some(Segment::Variable(word));
    }
    let capture = number(word)?;
    if capture > LAST_CAPTURE {
        return Some(Segment::Beyond);
    }
    Some(Segment::Capture(capture))
}

// The text after the closing brace, if each of the words before it is a name or a number.
fn elements(text: &[u8]) -> Option<&[u8]>
    ensures { MatchOption result (elements text.now ≡ None)
        (λ after. elements text.now ≡ Some after.now) }
{
    let mut rest = text;
    'elements: while let Some((octets, end, after)) = word(rest) {
        if !is_element(octets) {
            return None;
        }
        if end == b'}' {
            return Some(after);
        }
        if end != b'.' {
            return None;
        }
        rest = after;
    }
    None
}

// The reference whose `${` comes before the text, and the text after its closing brace.
fn reference(text: &[u8]) -> Option<(Segment<'_>, &[u8])>
    ensures { MatchOption result (reference text.now ≡ None)
        (λ found. reference text.now
        ≡ Some (record { segment = segment_of found.0; rest = found.1.now })) }
{
    let (octets, end, after) = word(text)?;
    if end == b'}' {
        return Some((named(octets)?, after));
    }
    if end == b'.' && is_identifier(octets) {
        return Some((Segment::Foreign, elements(after)?));
    }
    None
}

/// The reference whose `$` comes before the text, and the text after it.
pub(crate) fn reference_behind(text: &[u8]) -> Option<(Segment<'_>, &[u8])>
    ensures { MatchOption result (reference_behind text.now ≡ None)
        (λ found. reference_behind text.now
        ≡ Some (record { segment = segment_of found.0; rest = found.1.now })) }
{
    let (octet, inside) = first(text)?;
    if octet != b'{' {
        return None;
    }
    reference(inside)
}

/// The reference at the start of the text, and the text after it.
pub(crate) fn reference_at(text: &[u8]) -> Option<(Segment<'_>, &[u8])>
    ensures { MatchOption result (found_at text.now ≡ None)
        (λ found. found_at text.now
        ≡ Some (record { segment = segment_of found.0; rest = found.1.now })) }
{
    let (octet, after) = first(text)?;
    if octet != b'$' {
        return None;
    }
    reference_behind(after)
}
