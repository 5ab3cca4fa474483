// Matching with wildcards.
//
// The number that comes with an answer is a bound made of lengths, not a count. For `is` it is the key's length, or 0
// if the lengths differ. For a search of a stretch it is the sum of the lengths of value and key; if each place has
// to be tried (the stretch isn't found nearby, and has a `?` or more than 16,384 bytes) it is their product.
ghost use Rattle.std.specs.Prelude.{◌≡◌, ◌+◌, ◌*◌, ◌-◌, ◌≤◌, ◌<◌, ◌^◌, ◌∷◌, IsTrue, OnSome, length};
ghost use Rattle.std.specs.Bool.{then_some};
ghost use Rattle.std.specs.Option.{option_map};
ghost use Rattle.glob_match.specs.Captures.{places_of_match, texts};
ghost use Rattle.glob_match.specs.Matching.{match_of, max_captures};
ghost use Rattle.glob_match.specs.Segments.{NoStar, any_places, captures_after_star, with_stretches};
ghost use Rattle.glob_match.specs.Tokens.{literals, tokens_of};

use crate::captures::Captures;
use crate::comparator::Comparator;
use crate::placement::find_segment;
use crate::segment::{begins_with, push_any_octets, split_segment, width};

/// Returns the captures if the value fits the key (RFC 5228, section 2.7.1; RFC 5229, section 3.2), and an estimate
/// of the work.
///
/// In the key `*` matches any stretch, `?` matches one byte, and a backslash makes the next byte literal. If several
/// lists of stretches fit, the one whose lengths are least, compared from the left, is taken. For example, `aXbXb`
/// fits `*X*b` with the captures `a` and `bX`, and it doesn't fit `*X`. A capture is at the place of its wildcard: it
/// begins where the match of the key before that wildcard ends.
///
/// The estimate is made from the lengths. It is at most the product of the two lengths, each plus 1, and at least the
/// number of the key's literal bytes if the value fits.
///
/// # Requires
///
/// The product of the lengths, each plus 1, is less than 2^64.
pub fn matches(value: &[u8], key: &[u8], comparator: Comparator) -> (Option<Captures>, u64)
    requires { (length value.now + 1) * (length key.now + 1) < 2 ^ 64 }
    ensures captures { option_map (texts value.now) result.0
        ≡ match_of comparator value.now key.now }
    ensures places { result.0 ≡ places_of_match comparator value.now key.now }
    ensures most { result.1 ≤ (length value.now + 1) * (length key.now + 1) }
    ensures least { OnSome result.0 (literals (tokens_of key.now) ≤ result.1) }
{
    match_segments(value, key, comparator)
}

// The same, by the places of the captures alone.
fn match_segments(value: &[u8], key: &[u8], comparator: Comparator) -> (Option<Captures>, u64)
    requires { (length value.now + 1) * (length key.now + 1) < 2 ^ 64 }
    ensures places { result.0 ≡ places_of_match comparator value.now key.now }
    ensures most { result.1 ≤ (length value.now + 1) * (length key.now + 1) }
    ensures least { OnSome result.0 (literals (tokens_of key.now) ≤ result.1) }
{
    let (segment, after) = split_segment(key);
    let gone_over = segment.len() as u64;
    if !begins_with(value, segment, comparator) {
        return (None, gone_over);
    }
    let mut captures = Captures::of_value(value);
    let end = push_any_octets(&mut captures, segment, 0);
    match after {
        Some(rest) => {
            let (fits, more) = match_after_star(value, end, rest, comparator, &mut captures);
            if !fits {
                return (None, gone_over + more);
            }
            (Some(captures), gone_over + more)
        }
        None if end == value.len() => (Some(captures), gone_over),
        None => (None, gone_over),
    }
}

// Whether the value from `start` on fits a star and the rest of a key after it. Its captures are added to the given
// ones.
fn match_after_star(
    value: &[u8],
    start: usize,
    key: &[u8],
    comparator: Comparator,
    captures: &mut Captures,
) -> (bool, u64)
    requires within { start ≤ length value.now }
    requires few { length captures.old ≤ max_captures }
    requires room { (length value.now + 1) * (length key.now + 1) < 2 ^ 64 }
    ensures places { then_some result.0 captures.new
        ≡ captures_after_star comparator value.now start key.now captures.old }
    ensures most { result.1 ≤ (length value.now + 1) * (length key.now + 1) }
    ensures least { IsTrue result.0 → literals (tokens_of key.now) ≤ result.1 }
{
    let mut start = start;
    let mut rest = key;
    let mut gone_over = 0;
    'segments: loop {
        let (segment, after) = split_segment(rest);
        let Some(next) = after else {
            let fits = match_end(value, start, segment, comparator, captures);
            return (fits, gone_over + segment.len() as u64);
        };
        let (place, more) = find_segment(&value[start..], segment, comparator);
        gone_over += more;
        let Some(place) = place else {
            return (false, gone_over);
        };
        start = push_placed(captures, segment, start, start + place);
        rest = next;
    }
}

// The same if no star follows.
fn match_end(
    value: &[u8],
    start: usize,
    segment: &[u8],
    comparator: Comparator,
    captures: &mut Captures,
) -> bool
    requires within { start ≤ length value.now }
    requires few { length captures.old ≤ max_captures }
    requires no_star { NoStar (tokens_of segment.now) }
    ensures { then_some result captures.new
        ≡ captures_after_star comparator value.now start segment.now captures.old }
{
    let width = width(segment);
    if width > value.len() - start {
        return false;
    }
    let place = value.len() - width;
    if !begins_with(&value[place..], segment, comparator) {
        return false;
    }
    push_placed(captures, segment, start, place);
    true
}

// Adds the captures of a star from `start` on and of the segment after it, whose first byte is at `place`, and returns
// the place after its last byte.
fn push_placed(captures: &mut Captures, segment: &[u8], start: usize, place: usize) -> usize
    requires few { length captures.old ≤ max_captures }
    requires from { start ≤ place }
    requires room { place + length (tokens_of segment.now) < 2 ^ 64 }
    ensures few { length captures.new ≤ max_captures }
    ensures places { captures.new ≡ with_stretches captures.old
        (record { start = start; end = place } ∷ any_places place (tokens_of segment.now)) }
    ensures end { result ≡ place + length (tokens_of segment.now) }
{
    captures.push(start, place);
    push_any_octets(captures, segment, place)
}
