// The first place of a literal text in a value.
//
// Keys are searched by `memmem`, without case in windows whose letters are made upper case; windows overlap by the
// key's length less one. Segments with `?` are tried at 32 places at a time; trying place by place was 20 to 40 times
// slower on long values. A key of more than 16,384 bytes with letters costs the product of the lengths without case;
// a string has at most 16,384 bytes.
ghost use Rattle.std.specs.Prelude.{◌≡◌, ◌+◌, ◌*◌, ◌≤◌, ◌<◌, ◌^◌, length, map};
ghost use Rattle.std.specs.Char.{is_ascii_alphabetic};
ghost use Rattle.std.specs.List.{list_any};
ghost use Rattle.memchr.specs.Find.{FindsNeedle};
ghost use Rattle.glob_match.specs.Comparison.{compared};
ghost use Rattle.glob_match.specs.Containment.{begins_with, first_place};
ghost use Rattle.glob_match.specs.declared.comparator.Comparator.TheVariants.{Casemap};
ghost use Rattle.glob_match.specs.declared.token.Token.TheVariants.{Literal};

use crate::comparator::Comparator;
use crate::fold::{BLOCK, equal_from_first, fold};
use memchr::memmem::{self, Finder};

/// A value of at most this length is searched as one window.
pub(crate) const SHORT: usize = 256;

/// A text of at most this length needs no large arrays.
const MEDIUM: usize = 1024;

const MEDIUM_WINDOW: usize = 8 * MEDIUM;

/// A text of at most this length is searched in time linear in value and text. A script's strings are never longer.
pub(crate) const LONG: usize = 16_384;

const LONG_WINDOW: usize = 3 * LONG;

/// The first place of the value at which the text is found under the comparator, and an estimate of the work.
pub(crate) fn find(value: &[u8], text: &[u8], comparator: Comparator) -> (Option<usize>, u64)
    requires { (length value.now + 1) * (length text.now + 1) < 2 ^ 64 }
    ensures place { result.0 ≡ first_place (begins_with comparator
        (map Literal text.now)) value.now }
    ensures most { result.1 ≤ (length value.now + 1) * (length text.now + 1) }
    ensures least { length text.now ≤ result.1 }
{
    if text.len() > value.len() {
        return (None, linear_bound(value, text));
    }
    match comparator {
        Comparator::Octet => (find_octets(value, text), linear_bound(value, text)),
        Comparator::Casemap => find_casemap(value, text),
    }
}

/// An estimate of the work of a search in time linear in value and key.
pub(crate) fn linear_bound(value: &[u8], key: &[u8]) -> u64
    requires { (length value.now + 1) * (length key.now + 1) < 2 ^ 64 }
    ensures most { result ≤ (length value.now + 1) * (length key.now + 1) }
    ensures least { length key.now ≤ result }
{
    (value.len() + key.len()) as u64
}

/// An estimate of the work of a search that tries each place.
pub(crate) fn product_bound(value: &[u8], key: &[u8]) -> u64
    requires { (length value.now + 1) * (length key.now + 1) < 2 ^ 64 }
    ensures most { result ≤ (length value.now + 1) * (length key.now + 1) }
    ensures least { length key.now ≤ result }
{
    (value.len() as u64 + 1) * key.len() as u64
}

// The first place at which the bytes are found as they are.
fn find_octets(value: &[u8], text: &[u8]) -> Option<usize>
    ensures { FindsNeedle value.now text.now 0 result }
{
    memmem::find(value, text)
}

fn find_casemap(value: &[u8], text: &[u8]) -> (Option<usize>, u64)
    requires fits { length text.now ≤ length value.now }
    requires room { (length value.now + 1) * (length text.now + 1) < 2 ^ 64 }
    ensures place { FindsNeedle (compared Casemap value.now)
        (compared Casemap text.now) 0 result.0 }
    ensures most { result.1 ≤ (length value.now + 1) * (length text.now + 1) }
    ensures least { length text.now ≤ result.1 }
{
    let gone_over = linear_bound(value, text);
    if !has_letter(text) {
        (find_octets(value, text), gone_over)
    } else if value.len() < BLOCK {
        // to make a searcher would take longer than the search
        (find_by_octets(value, text), gone_over)
    } else if value.len() <= SHORT {
        (find_folded::<SHORT, SHORT>(value, text), gone_over)
    } else if text.len() <= MEDIUM {
        (find_folded::<MEDIUM, MEDIUM_WINDOW>(value, text), gone_over)
    } else if text.len() <= LONG {
        (find_folded::<LONG, LONG_WINDOW>(value, text), gone_over)
    } else {
        (find_by_octets(value, text), product_bound(value, text))
    }
}

fn has_letter(text: &[u8]) -> bool
    ensures { result ≡ list_any is_ascii_alphabetic text.now }
{
    text.iter().any(|octet| octet.is_ascii_alphabetic())
}

// The same by windows, with the text and each window in upper case.
#[inline(never)]
fn find_folded<const TEXT: usize, const WINDOW: usize>(value: &[u8], text: &[u8]) -> Option<usize>
    requires text { length text.now ≤ TEXT }
    requires window { TEXT ≤ WINDOW }
    requires small { WINDOW < 2 ^ 63 }
    requires some { 0 < length text.now }
    ensures { FindsNeedle (compared Casemap value.now) (compared Casemap text.now) 0 result }
{
    let mut folded = [0; TEXT];
    fold(text, &mut folded[..text.len()]);
    let finder = Finder::new(&folded[..text.len()]);
    let mut window = [0; WINDOW];
    find_in_windows(&finder, text.len(), value, &mut window)
}

// Windows overlap by one byte less than the text has. The first one is small, because a text is often found at once.
fn find_in_windows(finder: &Finder, len: usize, value: &[u8], window: &mut [u8]) -> Option<usize>
    requires text { length finder.now ≡ len }
    requires window { len ≤ length window.old }
    requires some { 0 < len }
    ensures { FindsNeedle (compared Casemap value.now) finder.now 0 result }
{
    let mut start = 0;
    let mut room = len.max(SHORT).min(window.len());
    'windows: loop {
        let octets = (value.len() - start).min(room);
        fold(&value[start..start + octets], &mut window[..octets]);
        if let Some(place) = finder.find(&window[..octets]) {
            return Some(start + place);
        }
        if start + octets == value.len() {
            return None;
        }
        start += octets + 1 - len;
        room = window.len();
    }
}

// The same for a text of any length, in time of the product.
fn find_by_octets(value: &[u8], text: &[u8]) -> Option<usize>
    requires fits { length text.now ≤ length value.now }
    requires some { 0 < length text.now }
    ensures { FindsNeedle (compared Casemap value.now) (compared Casemap text.now) 0 result }
{
    for place in 0..=value.len() - text.len() {
        if equal_from_first(&value[place..place + text.len()], text) {
            return Some(place);
        }
    }
    None
}
