// Every pair of short values and keys.
ghost use Rattle.std.specs.Prelude.{◌≤◌, length};

use crate::recursion::{self, Stretches};
use glob_match::Comparator::{Casemap, Octet};
use glob_match::{Captures, Comparator, Stretch, contains, is, matches};

const OCTETS: [u8; 5] = [b'a', b'b', b'*', b'?', b'\\'];

const LETTERS: [u8; 5] = [b'a', b'A', b'z', b'@', b'['];

// How many numbers there are: four digits in base 6.
const NUMBERS: usize = 1296;

// A text of up to four octets.
#[derive(Clone, Copy)]
struct Text {
    octets: [u8; 4],
    len: usize,
}

impl Text {
    // The text of a number: each digit is one of the octets, or none.
    fn numbered(octets: &[u8; 5], number: usize) -> Text {
        let mut text = Text {
            octets: [0; 4],
            len: 0,
        };
        let mut left = number;
        for _ in 0..4u8 {
            if let Some(octet) = octets.get(left % 6)
                && text.len < 4
            {
                text.octets[text.len] = *octet;
                text.len += 1;
            }
            left /= 6;
        }
        text
    }

    fn as_slice(&self) -> &[u8]
        ensures { length result.now ≤ 4 }
    {
        &self.octets[..self.len.min(4)]
    }
}

// Whether the capture of a number is the stretch that the recursion gives; the capture 0 is the whole value.
fn is_capture(stretch: &Stretch, number: usize, stretches: &Stretches) -> bool {
    if number == 0 || number > 8 {
        return true;
    }
    stretches.ends[number - 1] == (stretch.start, stretch.end)
}

// Whether the captures are the whole value and the stretches.
fn are_captures(captures: &Captures, value: &[u8], stretches: &Stretches) -> bool {
    let found = captures.stretches();
    if found.len() != stretches.number.saturating_add(1) || captures.text(value, 0) != value {
        return false;
    }
    for number in 0..found.len() {
        if !is_capture(&found[number], number, stretches) {
            return false;
        }
    }
    true
}

fn matches_as_the_recursion(value: &[u8], key: &[u8], comparator: Comparator) -> bool
    requires value { length value.now ≤ 4 }
    requires key { length key.now ≤ 4 }
{
    let (found, _) = matches(value, key, comparator);
    match (
        found,
        recursion::least(value, 0, key, comparator, Stretches::none()),
    ) {
        (Some(captures), Some(stretches)) => are_captures(&captures, value, &stretches),
        (None, None) => true,
        _ => false,
    }
}

// Whether each key matches a value as the recursion does.
fn every_key_matches(value: &[u8]) -> bool
    requires { length value.now ≤ 4 }
{
    for j in 0..NUMBERS {
        let key = Text::numbered(&OCTETS, j);
        if !matches_as_the_recursion(value, key.as_slice(), Octet)
            || !matches_as_the_recursion(value, key.as_slice(), Casemap)
        {
            return false;
        }
    }
    true
}

#[test]
fn matches_of_every_pair(rt: HostRuntime) {
    for i in 0..NUMBERS {
        let value = Text::numbered(&OCTETS, i);
        assert!(rt; every_key_matches(value.as_slice()));
    }
}

fn compares_as_the_recursion(value: &[u8], key: &[u8], comparator: Comparator) -> bool
    requires value { length value.now ≤ 4 }
    requires key { length key.now ≤ 4 }
{
    contains(value, key, comparator).0 == recursion::contains(value, key, comparator)
        && is(value, key, comparator).0 == recursion::is(value, key, comparator)
}

// Whether each key is in a value, or is the value, as the recursion has it.
fn every_key_compares(value: &[u8]) -> bool
    requires { length value.now ≤ 4 }
{
    for j in 0..NUMBERS {
        let key = Text::numbered(&LETTERS, j);
        if !compares_as_the_recursion(value, key.as_slice(), Octet)
            || !compares_as_the_recursion(value, key.as_slice(), Casemap)
        {
            return false;
        }
    }
    true
}

#[test]
fn is_and_contains_of_every_pair(rt: HostRuntime) {
    for i in 0..NUMBERS {
        let value = Text::numbered(&LETTERS, i);
        assert!(rt; every_key_compares(value.as_slice()));
    }
}
