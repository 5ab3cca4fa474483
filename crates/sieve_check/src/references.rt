// Faults of the references in a string that is expanded (RFC 5229, section 3).
//
// By the definition, scripts with a reference that isn't allowed have a typed form, too, without that reference. Such
// a script is refused, so the form is never asked for.
ghost use Rattle.std.specs.Prelude.{◌≡◌, ◌||◌, length, nat_lt};
ghost use Rattle.std.specs.List.{list_any};
ghost use Rattle.octets.specs.Limits.{max_segments};
ghost use Rattle.sieve_references.specs.References.{segments};
ghost use Rattle.sieve_references.specs.SegmentView.{segment_of};
ghost use Rattle.sieve_check.specs.Rules.{is_long, is_long_name, is_wrong};

use bytecode_format::MAX_SEGMENTS;
use sieve_references::{Segment, first_segment};

/// The largest number of bytes of a variable's name.
pub const MAX_NAME: usize = 32;

/// Whether the name has more bytes than the limit.
pub fn is_long_name(name: &[u8]) -> bool
    ensures { result ≡ is_long_name name.now }
{
    name.len() > MAX_NAME
}

// Whether the segment is a reference into a namespace, or to a capture that can't exist.
fn is_wrong(segment: Segment<'_>) -> bool
    ensures { result ≡ is_wrong (segment_of segment.entry) }
{
    matches!(segment, Segment::Beyond | Segment::Foreign)
}

// Whether the segment is a reference by a name that has more bytes than the limit.
fn is_long(segment: Segment<'_>) -> bool
    ensures { result ≡ is_long (segment_of segment.entry) }
{
    match segment {
        Segment::Variable(name) => is_long_name(name),
        _ => false,
    }
}

/// Whether the string has a reference into a namespace, or to a capture that can't exist.
pub fn has_wrong_reference(string: &[u8]) -> bool
    ensures { result ≡ list_any is_wrong (segments string.now) }
{
    let mut rest = string;
    'segments: while let Some((segment, after)) = first_segment(rest) {
        if is_wrong(segment) {
            return true;
        }
        rest = after;
    }
    false
}

/// Whether the string has too many segments, or a reference by a name that has too many bytes.
pub fn has_large_references(string: &[u8]) -> bool
    ensures { result ≡ (nat_lt max_segments (length (segments string.now))
        || list_any is_long (segments string.now)) }
{
    let mut left = MAX_SEGMENTS;
    let mut rest = string;
    'segments: while let Some((segment, after)) = first_segment(rest) {
        if left == 0 || is_long(segment) {
            return true;
        }
        left -= 1;
        rest = after;
    }
    false
}
