// The first place of a key's segment in a value.
//
// Wildcards are placed as early as possible, segment by segment, and the last segment is compared with the value's
// end. There is no backtracking. That this gives the least lengths is proved.
ghost use Rattle.std.specs.Prelude.{◌≡◌, ◌+◌, ◌*◌, ◌≤◌, ◌<◌, ◌^◌, ◌==◌, ◌||◌, IfSome, Some, ℕ, true, false, drop, length, map, take};
ghost use Rattle.std.specs.List.{list_any};
ghost use Rattle.glob_match.specs.Containment.{begins_with, first_place};
ghost use Rattle.glob_match.specs.Segments.{NoStar};
ghost use Rattle.glob_match.specs.Tokens.{backslash, question_mark, tokens_of};
ghost use Rattle.glob_match.specs.declared.token.Token.TheVariants.{Literal};

use crate::comparator::Comparator;
use crate::fold::BLOCK;
use crate::lanes::places_before;
use crate::search::{LONG, SHORT, find, linear_bound, product_bound};
use crate::segment::{begins_with, width};
use crate::token::{Token, first_token};

// How many places are tried before a searcher is made.
const NEAR: usize = 256;

/// The first place from which on the value begins with the segment, and an estimate of the work.
pub(crate) fn find_segment(
    value: &[u8],
    segment: &[u8],
    comparator: Comparator,
) -> (Option<usize>, u64)
    requires no_star { NoStar (tokens_of segment.now) }
    requires room { (length value.now + 1) * (length segment.now + 1) < 2 ^ 64 }
    ensures place { result.0 ≡ first_place (begins_with comparator
        (tokens_of segment.now)) value.now }
    ensures most { result.1 ≤ (length value.now + 1) * (length segment.now + 1) }
    ensures least { length segment.now ≤ result.1 }
{
    if segment.is_empty() {
        return (Some(0), linear_bound(value, segment));
    }
    if value.len() < BLOCK && has_special(segment) {
        return find_short(value, segment, comparator);
    }
    if let Some(place) = find_near(value, segment, comparator) {
        return (Some(place), linear_bound(value, segment));
    }
    if !has_special(segment) {
        return find(value, segment, comparator);
    }
    let width = width(segment);
    if width > value.len() {
        (None, linear_bound(value, segment))
    } else if width <= SHORT {
        find_unescaped::<SHORT>(value, segment, comparator)
    } else if width <= LONG {
        find_unescaped::<LONG>(value, segment, comparator)
    } else {
        find_by_tokens(value, segment, comparator)
    }
}

// The first place, if it is near and the segment is short: most segments of a key with many wildcards are found this
// way.
fn find_near(value: &[u8], segment: &[u8], comparator: Comparator) -> Option<usize>
    requires { NoStar (tokens_of segment.now) }
    ensures { IfSome result (λ place. Some place ≡ first_place (begins_with comparator
        (tokens_of segment.now)) value.now) }
{
    if segment.len() > BLOCK {
        return None;
    }
    let end = value.len().saturating_sub(segment.len() + 30).min(NEAR);
    let mut place = 0;
    'places: while place < end {
        let before = places_before(&value[place..], segment, comparator);
        if before < 32 {
            return Some(place + before);
        }
        place += 32;
    }
    None
}

// Whether a byte of the segment doesn't mean itself.
fn has_special(segment: &[u8]) -> bool
    ensures { result ≡ list_any (λ octet. (octet == question_mark)
        || (octet == backslash)) segment.now }
{
    segment
        .iter()
        .any(|octet| *octet == b'?' || *octet == b'\\')
}

// The same for a short value, whose places are tried one after another. To spell the text first would take longer,
// because room for it has to be cleared.
fn find_short(value: &[u8], segment: &[u8], comparator: Comparator) -> (Option<usize>, u64)
    requires { (length value.now + 1) * (length segment.now + 1) < 2 ^ 64 }
    ensures place { result.0 ≡ first_place (begins_with comparator
        (tokens_of segment.now)) value.now }
    ensures most { result.1 ≤ (length value.now + 1) * (length segment.now + 1) }
    ensures least { length segment.now ≤ result.1 }
{
    (
        first_of_short(value, segment, comparator),
        short_bound(value, segment),
    )
}

// The estimate of the work, by the same rule as for longer values.
fn short_bound(value: &[u8], segment: &[u8]) -> u64
    requires { (length value.now + 1) * (length segment.now + 1) < 2 ^ 64 }
    ensures most { result ≤ (length value.now + 1) * (length segment.now + 1) }
    ensures least { length segment.now ≤ result }
{
    if has_any(segment) && width(segment) <= value.len() {
        return product_bound(value, segment);
    }
    linear_bound(value, segment)
}

// Whether the segment has a `?`.
fn has_any(segment: &[u8]) -> bool {
    let mut tokens = segment;
    'tokens: while let Some((token, rest)) = first_token(tokens) {
        if let Token::AnyOctet = token {
            return true;
        }
        tokens = rest;
    }
    false
}

// The first place at which the segment stands. The rest of it is compared only where its first token fits.
fn first_of_short(value: &[u8], segment: &[u8], comparator: Comparator) -> Option<usize>
    ensures { result ≡ first_place (begins_with comparator (tokens_of segment.now)) value.now }
{
    let Some((token, rest)) = first_token(segment) else {
        return Some(0);
    };
    let mut place = 0;
    let mut octets = value;
    'places: while let [octet, after @ ..] = octets {
        if token.takes(*octet, comparator) && begins_with(after, rest, comparator) {
            return Some(place);
        }
        place += 1;
        octets = after;
    }
    None
}

// The same by a search for the text that the segment spells, if it has no wildcard.
#[inline(never)]
fn find_unescaped<const TEXT: usize>(
    value: &[u8],
    segment: &[u8],
    comparator: Comparator,
) -> (Option<usize>, u64)
    requires no_star { NoStar (tokens_of segment.now) }
    requires text { length (tokens_of segment.now) ≤ TEXT }
    requires small { TEXT < 2 ^ 63 }
    requires room { (length value.now + 1) * (length segment.now + 1) < 2 ^ 64 }
    ensures place { result.0 ≡ first_place (begins_with comparator
        (tokens_of segment.now)) value.now }
    ensures most { result.1 ≤ (length value.now + 1) * (length segment.now + 1) }
    ensures least { length segment.now ≤ result.1 }
{
    let mut text = [0; TEXT];
    match unescape(segment, &mut text) {
        Some(len) => (
            find(value, &text[..len], comparator).0,
            linear_bound(value, segment),
        ),
        None => find_by_tokens(value, segment, comparator),
    }
}

// Writes the text that the segment spells, and returns its length, unless there is a wildcard.
fn unescape(segment: &[u8], text: &mut [u8]) -> Option<usize>
    requires { length (tokens_of segment.now) ≤ length text.old }
    ensures text { IfSome result (λ len. map Literal (take len text.new) ≡ tokens_of segment.now) }
    ensures within { IfSome result (λ len. len ≤ length text.new) }
{
    let mut len = 0;
    let mut tokens = segment;
    'tokens: while let Some((token, rest)) = first_token(tokens) {
        let Token::Literal(octet) = token else {
            return None;
        };
        text[len] = octet;
        len += 1;
        tokens = rest;
    }
    Some(len)
}

// The same by trying each place.
fn find_by_tokens(value: &[u8], segment: &[u8], comparator: Comparator) -> (Option<usize>, u64)
    requires no_star { NoStar (tokens_of segment.now) }
    requires room { (length value.now + 1) * (length segment.now + 1) < 2 ^ 64 }
    ensures place { result.0 ≡ first_place (begins_with comparator
        (tokens_of segment.now)) value.now }
    ensures most { result.1 ≤ (length value.now + 1) * (length segment.now + 1) }
    ensures least { length segment.now ≤ result.1 }
{
    let gone_over = product_bound(value, segment);
    let width = width(segment);
    if width > value.len() {
        return (None, gone_over);
    }
    let last = value.len() - width;
    let mut place = 0;
    'places: while place <= last {
        let (before, tried) = places_tried(&value[place..], segment, width, comparator);
        if before < tried {
            return (Some(place + before), gone_over);
        }
        place += tried;
    }
    (None, gone_over)
}

// How many of the first places come before the first from which on the value begins with the segment, and how many
// places were tried.
fn places_tried(
    value: &[u8],
    segment: &[u8],
    width: usize,
    comparator: Comparator,
) -> (usize, usize)
    requires no_star { NoStar (tokens_of segment.now) }
    requires width { width ≡ length (tokens_of segment.now) }
    requires room { width ≤ length value.now }
    ensures some { 0 < result.1 }
    ensures within { result.1 + width ≤ length value.now + 1 }
    ensures few { result.0 ≤ result.1 }
    ensures before { (j : ℕ) → j < result.0 → begins_with comparator (tokens_of segment.now)
        (drop j value.now) ≡ false }
    ensures there { result.0 < result.1 → begins_with comparator (tokens_of segment.now)
        (drop result.0 value.now) ≡ true }
{
    if value.len() - width >= 31 {
        (places_before(value, segment, comparator), 32)
    } else if begins_with(value, segment, comparator) {
        (0, 1)
    } else {
        (1, 1)
    }
}
